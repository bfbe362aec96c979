// What the rules of document 01 ask: rules 1 to 6 of one clause as it stands, rules 7 and 8 of two.
#![tactic(auto)]

ghost use Rattle.std.specs.Prelude.{◌≡◌, false, Option, None};
ghost use Rattle.literal.specs.Literal.{FALSE};
ghost use Rattle.theory.specs.Rules.{tie, rule1, rule3, rule5, rule6};
ghost use Rattle.theory.specs.declared.Step.TheVariants.{Becomes};
ghost use Rattle.clause.specs.Literals.{clause_of, counted};
ghost use Rattle.rules.specs.Rules.{rule_of, pair_rule, false_where, paired, pair_step, another, wanted};

use clause::{Counted, Standing, Test};
use literal::Literal;
use theory::Step;

// Rules 7 and 8 look at two clauses.
#[derive(Clone, Copy)]
pub enum PairRule {
    Seven,
    Eight,
}

// Rules 1 to 6 look at one clause.
#[derive(Clone, Copy)]
pub enum Rule {
    One,
    Two,
    Three,
    Four,
    Five,
    Six,
}

fn becomes_false(x: Literal) -> Step
    ensures { result ≡ Becomes x FALSE }
{
    Step::Becomes(x, Literal::FALSE)
}

// Exactly one of x and y is true: the higher becomes the opposite of the lower.
fn tie(x: Literal, y: Literal) -> Step
    ensures { result ≡ tie x y }
{
    if x.variable() < y.variable() {
        Step::Becomes(y, x.opposite())
    } else {
        Step::Becomes(x, y.opposite())
    }
}

// One clause --------------------------------------------------------------------------------------------------------

// 1. Two true entries, or none true and none open: dead end.
fn rule_1(standing: Standing, from: usize) -> Option<Step>
    ensures { result ≡ rule1 (clause_of standing.entry from) }
{
    if 2 <= standing.times(from, Literal::TRUE) || standing.literals(from).next().is_none() {
        Some(Step::DeadEnd)
    } else {
        None
    }
}

// 3. None true, one open: it becomes true.
fn rule_3(standing: Standing, from: usize) -> Option<Step>
    ensures { result ≡ rule3 (clause_of standing.entry from) }
{
    let mut literals = standing.literals(from);
    match (literals.next(), literals.next()) {
        (Some(x), None) if x.is_open() => Some(Step::Becomes(x, Literal::TRUE)),
        _ => None,
    }
}

// Rules 2 and 4: where so many are true, the first literal that passes becomes false.
fn false_where(standing: Standing, from: usize, trues: usize, test: Test) -> Option<Step>
    ensures { result ≡ false_where trues test (clause_of standing.entry from) }
{
    if standing.times(from, Literal::TRUE) != trues {
        return None;
    }
    standing.count(from).first(from, test).map(becomes_false)
}

// 5. None true, an entry and its opposite stand: the first entry of a placement other than the first such one becomes false.
fn rule_5(standing: Standing, from: usize) -> Option<Step>
    ensures { result ≡ rule5 (clause_of standing.entry from) }
{
    if standing.times(from, Literal::TRUE) != 0 {
        return None;
    }
    let counted = standing.count(from);
    let x = counted.first(from, Test::Opposed)?;
    counted.first(from, Test::Apart(x)).map(becomes_false)
}

// 6. None true, two open entries of different placements and nothing else: tie the higher placement to the lower.
fn rule_6(standing: Standing, from: usize) -> Option<Step>
    ensures { result ≡ rule6 (clause_of standing.entry from) }
{
    let mut literals = standing.literals(from);
    match (literals.next(), literals.next(), literals.next()) {
        (Some(x), Some(y), None) if x.is_open() && y.is_open() && clause::differ(x, y) => {
            Some(tie(x, y))
        }
        _ => None,
    }
}

impl Rule {
    // What the rule asks of the clause at `from`.
    pub fn asks(self, standing: Standing, from: usize) -> Option<Step>
        ensures { result ≡ rule_of self (clause_of standing.entry from) }
    {
        match self {
            Rule::One => rule_1(standing, from),
            Rule::Two => false_where(standing, from, 1, Test::Open),
            Rule::Three => rule_3(standing, from),
            Rule::Four => false_where(standing, from, 0, Test::Twice),
            Rule::Five => rule_5(standing, from),
            Rule::Six => rule_6(standing, from),
        }
    }
}

// Two clauses -------------------------------------------------------------------------------------------------------

// The first literal of the clause at g that passes beside the counted h and has a partner: another in g, of another variable, whose opposite
// stands in h.
fn first_paired(g: usize, h: &Counted, test: Test) -> Option<Literal>
    ensures { result ≡ paired test (clause_of h.now.of g) (counted h.now) }
{
    h.of.literals(g).find(|x| h.passes(test, *x) && h.first(g, Test::Partner(*x)).is_some())
}

// 7. Groups G and H hold a common entry a, and b in G has its opposite in H: a becomes false.
// 8. a and b stand in G, their opposites in H: tie the first such pair in G.
fn pair_step(rule: PairRule, g: usize, h: &Counted) -> Option<Step>
    ensures { result ≡ pair_step rule (clause_of h.now.of g) (counted h.now) }
{
    match rule {
        PairRule::Seven => first_paired(g, h, Test::Common).map(becomes_false),
        PairRule::Eight => {
            let x = first_paired(g, h, Test::Opposed)?;
            let y = h.first(g, Test::Partner(x))?;
            Some(tie(x, y))
        }
    }
}

impl PairRule {
    // What a clause holds of another, beside x whose opposite stands there: rule 7 wants another literal or its opposite, rule 8 a second opposite.
    fn another(self, x: Literal) -> Test
        ensures { result ≡ another self x }
    {
        match self {
            PairRule::Seven => Test::Shared(x),
            PairRule::Eight => Test::Partner(x),
        }
    }

    // What the first of the two literals that a rule wants is in the other clause: rule 7 wants it to stand there, rule 8 its opposite.
    fn wanted(self) -> Test
        ensures { result ≡ wanted self }
    {
        match self {
            PairRule::Seven => Test::Common,
            PairRule::Eight => Test::Opposed,
        }
    }

    // Whether the rule may fit a counted clause and the one at h: three quick looks, and most pairs don't pass the first.
    pub fn may_fit(self, g: &Counted, h: usize) -> bool
        ensures { result ≡ false → pair_step self (counted g.now) (clause_of g.now.of h) ≡ None }
    {
        let Some(x) = g.first(h, Test::Opposed) else {
            return false;
        };
        g.first(h, self.another(x)).is_some() && g.first(h, self.wanted()).is_some()
    }

    // What the rule asks of a counted clause and the one at h. Both rules look at live clauses.
    pub fn asks(self, g: &Counted, h: usize) -> Option<Step>
        ensures { result ≡ pair_rule self (counted g.now) (clause_of g.now.of h) }
    {
        if !self.may_fit(g, h) {
            return None;
        }
        let asked = pair_step(self, g.at, &g.of.count(h))?;
        if g.of.live(g.at) && g.of.live(h) {
            Some(asked)
        } else {
            None
        }
    }
}
