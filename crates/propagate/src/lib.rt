// Propagation (settling) of a table: each step is the very one that document 01 picks.
#![tactic(auto)]

ghost use Rattle.std.specs.Prelude.{◌≡◌, true, false, ◌+◌, ◌≤◌, ◌<◌, length};
ghost use Rattle.literal.specs.Literal.{var, max_variables, max_table};
ghost use Rattle.theory.specs.Formula.{clauses, Within};
ghost use Rattle.theory.specs.State.{WellFormed};
ghost use Rattle.theory.specs.Propagation.{step};
ghost use Rattle.theory.specs.Reasons.{unexplained, credit, explain};
ghost use Rattle.state.specs.State.{state_of};
ghost use Rattle.clause.specs.Reading.{Readable};
ghost use Rattle.clause.specs.Literals.{clause_of};
ghost use Rattle.rules.specs.Rules.{pair_rule, Without, Side};
ghost use Rattle.propagate.specs.Code.{first_from, first_of_pairs, asks_ahead, reasons_of, explanation};
ghost use Rattle.propagate.specs.Partners.{Noted, NotedOf, NoneNoted, Kept, Apart, PartedAll, NotedAfter, NotedAfterOf};

use clause::{Clauses, Standing};
use literal::{ClauseNumber, Literal};
use rules::{PairRule, Rule};
use state::State;
use theory::{Asked, Step};

// Where settling ends, with the clause that settled or tied each variable, by its index, or 0.
#[derive(Drop)]
pub struct Settled {
    pub state: State,
    pub reasons: [u16; Literal::VARIABLES],
}

// Which clauses are noted to have no partner by rule 7, and which by rule 8 (below).
#[derive(Drop)]
pub struct Alone {
    pub seven: [bool; Literal::MAX_TABLE],
    pub eight: [bool; Literal::MAX_TABLE],
}

// What a rule asks of the first clause that it fits.
fn first_clause(standing: Standing, rule: Rule) -> Option<Asked>
    ensures { result ≡ first_from standing.entry.table.now standing.entry.state.now.values rule 1 0 }
{
    for (clause, at) in standing.clauses() {
        if let Some(step) = rule.asks(standing, at) {
            return Some(Asked { clause, step });
        }
    }
    None
}

// Partners ----------------------------------------------------------------------------------------------------------
//
// A partner of a clause is a later one that rule 7 or 8 fits it with. For each of the two rules it is noted, by the index at which a clause
// begins, which clauses have none, so that a step looks again only at those that it may have given one.

// The first partner of the clause at g.
fn first_partner(rule: PairRule, g: usize, later: Clauses) -> Option<Asked>
    ensures { result ≡ asks_ahead (pair_rule rule (clause_of later.entry.of g)) later.entry }
{
    if !later.of.live(g) {
        return None;
    }
    let counted = later.of.count(g);
    for (clause, h) in later {
        if let Some(step) = rule.asks(&counted, h) {
            return Some(Asked { clause, step });
        }
    }
    None
}

// The first pair that rule 7 or 8 fits. A clause that is noted to have no partner is not looked at again.
fn first_pair(
    standing: Standing,
    rule: PairRule,
    alone: &mut [bool; Literal::MAX_TABLE],
) -> Option<Asked>
    requires { Noted standing.table.now standing.state.now.values rule alone.old }
    ensures says { result ≡ first_of_pairs standing.entry.table.now standing.entry.state.now.values rule }
    ensures noted { Noted standing.entry.table.now standing.entry.state.now.values rule alone.new }
{
    let mut clauses = standing.clauses();
    while let Some((_, g)) = clauses.next() {
        if alone[g] {
            continue;
        }
        let found = first_partner(rule, g, clauses);
        if found.is_some() {
            return found;
        }
        alone[g] = true;
    }
    None
}

// The step that document 01 picks: the lowest rule that fits.
pub fn ask(standing: Standing, alone: &mut Alone) -> Option<Asked>
    requires { NotedOf standing.table.now standing.state.now.values alone.old }
    ensures says { result ≡ step (clauses standing.entry.table.now) (state_of standing.entry.state.now.values) }
    ensures noted { NotedOf standing.entry.table.now standing.entry.state.now.values alone.new }
{
    let of_one_clause = [
        Rule::One,
        Rule::Two,
        Rule::Three,
        Rule::Four,
        Rule::Five,
        Rule::Six,
    ];
    for rule in of_one_clause {
        if let Some(asked) = first_clause(standing, rule) {
            return Some(asked);
        }
    }
    if let Some(asked) = first_pair(standing, PairRule::Seven, &mut alone.seven) {
        return Some(asked);
    }
    first_pair(standing, PairRule::Eight, &mut alone.eight)
}

// What is noted after a step ----------------------------------------------------------------------------------------

// Whether the variable of y stands in the clause at `from`.
fn holds(standing: Standing, from: usize, y: Literal) -> bool
    ensures { result ≡ false → Without y (clause_of standing.entry from) }
{
    standing
        .literals(from)
        .any(|x| x.variable() == y.variable())
}

// In how many clauses the variable of y stands.
fn holders(standing: Standing, y: Literal) -> usize {
    standing
        .clauses()
        .filter(|(_, at)| holds(standing, *at, y))
        .count()
}

// The side of a tie x := t that stands in fewer clauses: every pair that fits newly has a clause of either.
fn side(standing: Standing, x: Literal, t: Literal) -> Literal
    ensures { 0 < var t → Side x t result }
{
    if holders(standing, x) < holders(standing, t) {
        x
    } else {
        t
    }
}

// The notes of the first n indices are kept where a test says so.
fn keep<F: Fn(usize) -> bool>(alone: &mut [bool; Literal::MAX_TABLE], n: usize, stays: F)
    requires alone_len { length alone.old ≡ max_table }
    requires inside { n ≤ max_table }
    requires callable { F.IsAlwaysCallable stays }
    ensures { Kept (λ i. i < n → F.post stays i true) alone.old alone.new }
{
    for (i, noted) in alone[..n].iter_mut().enumerate() {
        *noted = *noted && stays(i);
    }
}

// The clauses in which y's variable stands are to be looked at again.
fn forget(standing: Standing, y: Literal, alone: &mut [bool; Literal::MAX_TABLE])
    requires { length alone.old ≡ max_table }
    ensures { Kept (λ i. Without y (clause_of standing.entry i)) alone.old alone.new }
{
    keep(alone, standing.table.len(), |i| !holds(standing, i, y));
}

// The clauses that may have the one at h for a partner are to be looked at again.
fn part(standing: Standing, rule: PairRule, h: usize, alone: &mut [bool; Literal::MAX_TABLE])
    requires { length alone.old ≡ max_table }
    ensures { Kept (λ i. Apart standing.entry.table.now standing.entry.state.now.values rule h i) alone.old alone.new }
{
    let counted = standing.count(h);
    keep(alone, standing.table.len(), |i| !rule.may_fit(&counted, i));
}

// The same for every clause in which y's variable stood before a step.
fn part_all(
    standing: Standing,
    before: &State,
    rule: PairRule,
    y: Literal,
    alone: &mut [bool; Literal::MAX_TABLE],
)
    requires { length alone.old ≡ max_table }
    ensures { Kept (PartedAll standing.entry.table.now before.now.values standing.entry.state.now.values rule y) alone.old alone.new }
{
    let earlier = Standing {
        table: standing.table,
        state: before,
    };
    for (_, h) in earlier.clauses() {
        if holds(earlier, h, y) {
            part(standing, rule, h, alone);
        }
    }
}

// Whether anything is noted of the clauses of the table.
fn any_noted(table: &[i16], alone: &[bool; Literal::MAX_TABLE]) -> bool
    requires readable { Readable table.now }
    requires alone_len { length alone.now ≡ max_table }
    ensures { result ≡ false → NoneNoted (length table.now) alone.now }
{
    alone[..table.len()].contains(&true)
}

// What was noted before a step, where it still holds. A decision makes no pair fit. A pair that a tie x := t makes fit has a clause in which x stood
// and one in which t stood, so it is enough to look at the pairs of one side.
fn look_again(
    standing: Standing,
    before: &State,
    rule: PairRule,
    step: Step,
    alone: &mut [bool; Literal::MAX_TABLE],
)
    requires { Noted standing.table.now before.now.values rule alone.old }
    ensures { NotedAfter standing.entry.table.now before.now.values standing.entry.state.now.values rule step alone.new }
{
    let Step::Becomes(x, t) = step else {
        return;
    };
    if !t.is_open() || !any_noted(standing.table, alone) {
        return;
    }
    let earlier = Standing {
        table: standing.table,
        state: before,
    };
    let y = side(earlier, x, t);
    forget(earlier, y, alone);
    part_all(standing, before, rule, y, alone);
}

// The same for rules 7 and 8.
fn look_again_at_both(standing: Standing, before: &State, step: Step, alone: &mut Alone)
    requires { NotedOf standing.table.now before.now.values alone.old }
    ensures { NotedAfterOf standing.entry.table.now before.now.values standing.entry.state.now.values step alone.new }
{
    look_again(standing, before, PairRule::Seven, step, &mut alone.seven);
    look_again(standing, before, PairRule::Eight, step, &mut alone.eight);
}

// Settling ----------------------------------------------------------------------------------------------------------

// The clause that asked the step has settled or tied x's variable: a number is written once, and followers keep theirs.
fn credit(reasons: &mut [u16; Literal::VARIABLES], clause: ClauseNumber, x: Literal)
    requires x_bound { var x ≤ max_variables }
    requires reasons_len { length reasons.old ≡ max_variables + 1 }
    ensures says { reasons_of reasons.new ≡ credit clause.0 x (reasons_of reasons.old) }
    ensures room { length reasons.new ≡ length reasons.old }
{
    reasons[x.variable().0 as usize] = clause.0;
}

// Settling from a state to its end, or to a dead end.
pub fn propagate(table: &[i16], n: usize, start: State) -> Option<Settled>
    requires readable { Readable table.now }
    requires within { Within n (clauses table.now) }
    requires well_formed { WellFormed n (state_of start.values) }
    requires n_le_max_variables { n ≤ max_variables }
    ensures { explanation result ≡ explain n (clauses table.now) (unexplained (state_of start.values)) }
{
    let mut state = start;
    let mut reasons = [0u16; Literal::VARIABLES];
    let mut alone = Alone {
        seven: [false; Literal::MAX_TABLE],
        eight: [false; Literal::MAX_TABLE],
    };
    while let Some(asked) = ask(
        Standing {
            table,
            state: &state,
        },
        &mut alone,
    ) {
        match asked.step {
            Step::DeadEnd => return None,
            Step::Becomes(x, t) => {
                let before = state;
                state = before.assign(x, t);
                credit(&mut reasons, asked.clause, x);
                let standing = Standing {
                    table,
                    state: &state,
                };
                look_again_at_both(standing, &before, asked.step, &mut alone);
            }
        }
    }
    Some(Settled { state, reasons })
}
