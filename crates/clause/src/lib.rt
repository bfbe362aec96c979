// One clause of a table as it stands in a state: its literals one after the other, how often each stands, and the first that passes a test.
#![tactic(auto)]

ghost use Rattle.std.specs.Prelude.{◌≡◌, ◌+◌, ◌≤◌, length, drop, position, pos};
ghost use Rattle.std.specs.Ordering.{int_eq};
ghost use Rattle.std.specs.Iterator.{YieldsFirst, item_count};
ghost use Rattle.general.specs.Search.{find};
ghost use Rattle.literal.specs.Literal.{var, max_variables};
ghost use Rattle.theory.specs.Rules.{occurs, differ, live};
ghost use Rattle.clause.specs.Reading.{Readable, group_length, clause_at, CountsOf, Begins};

use literal::{ClauseNumber, Literal};
use state::State;

// A table as it stands in a state.
#[derive(Clone, Copy)]
pub struct Standing<'a> {
    pub table: &'a [i16],
    pub state: &'a State,
    pub ghost readable: { Readable table.now },
}

// The clauses of a table, one after the other: the number of each, and the index at which it begins.
#[derive(Clone, Copy)]
pub struct Clauses<'a> {
    pub of: Standing<'a>,
    pub clause: ClauseNumber,
    pub at: usize,
    pub ghost begins: { Begins of.table.now at },
    pub ghost low: { clause.0 ≤ at + 1 },
}

// The literals of a clause that stand, one after the other: false ones are dropped.
#[derive(Clone, Copy)]
pub struct Literals<'a> {
    of: Standing<'a>,
    at: usize,
}

// How often each literal stands in the clause that begins at an index, by its code.
#[derive(Drop)]
pub struct Counted<'a> {
    pub of: Standing<'a>,
    pub at: usize,
    by_code: [u16; Literal::CODES],
    ghost counts: { CountsOf by_code (clause_at of.table.now of.state.now.values at) },
}

// What is looked for in a clause beside the counts of one, the same or another: an open literal, one that stands twice there, one that stands there,
// one whose opposite does, one of another variable than a given one, one that is of another variable and whose opposite stands there, and one that
// is of another variable and stands there itself or by its opposite. No closures: rules 7 and 8 pick theirs by the rule, and no function can give one.
#[derive(Clone, Copy)]
pub enum Test {
    Open,
    Twice,
    Common,
    Opposed,
    Apart(Literal),
    Partner(Literal),
    Shared(Literal),
}

impl<'a> Iterator for Clauses<'a> {
    type Item = (ClauseNumber, usize);

    ghost use Rattle.clause.specs.Clauses.{PassesClause, elements_left};

    ghost next_gives = { PassesClause };

    ghost remaining = { elements_left };

    fn next(&mut self) -> Option<(ClauseNumber, usize)> {
        let Clauses { of, clause, at } = *self;
        if of.table.len() <= at {
            return None;
        }
        self.clause = ClauseNumber(clause.0 + 1);
        self.at = of.next_clause(at);
        Some((clause, at))
    }
}

impl<'a> Iterator for Literals<'a> {
    type Item = Literal;

    ghost use Rattle.clause.specs.Literals.{left};

    ghost next_gives = { YieldsFirst left };

    ghost remaining = { item_count left };

    fn next(&mut self) -> Option<Literal> {
        let Standing { table, state } = self.of;
        for i in self.at..table.len() {
            let entry = Literal::from(table[i]);
            if !entry.is_open() {
                return None;
            }
            let x = state.value(entry);
            if x != Literal::FALSE {
                self.at = i + 1;
                return Some(x);
            }
        }
        None
    }
}

impl<'a> Standing<'a> {
    ghost use Rattle.clause.specs.Literals.{clause_of, left};

    // The index after the 0 that closes the clause at `from`.
    pub fn next_clause(self, from: usize) -> usize
        requires { from ≤ length self.table.now }
        ensures { result ≡ from + group_length (drop from self.entry.table.now) }
    {
        match first_zero(&self.table[from..]) {
            Some(i) => from + i + 1,
            None => self.table.len(),
        }
    }

    pub fn clauses(self) -> Clauses<'a>
        ensures of { result.of ≡ self.entry }
        ensures clause { result.clause.0 ≡ 1 }
        ensures at { result.at ≡ 0 }
    {
        Clauses {
            of: self,
            clause: ClauseNumber(1),
            at: 0,
        }
    }

    pub fn literals(self, from: usize) -> Literals<'a>
        ensures { left result ≡ clause_of self.entry from }
    {
        Literals { of: self, at: from }
    }

    // How often a literal stands in a clause.
    pub fn times(self, from: usize, x: Literal) -> usize
        ensures { result ≡ occurs x (clause_of self.entry from) }
    {
        self.literals(from).filter(|y| *y == x).count()
    }

    pub fn count(self, at: usize) -> Counted<'a>
        ensures of { result.of ≡ self.entry }
        ensures at { result.at ≡ at }
    {
        let mut by_code = [0u16; Literal::CODES];
        for x in self.literals(at) {
            by_code[x.code() as usize] += 1;
        }
        Counted {
            of: self,
            at,
            by_code,
        }
    }

    // "live groups: none true, not at rest"
    pub fn live(self, from: usize) -> bool
        ensures { result ≡ live (clause_of self.entry from) }
    {
        if self.times(from, Literal::TRUE) != 0 {
            return false;
        }
        let counted = self.count(from);
        match counted.first(from, Test::Opposed) {
            None => true,
            Some(x) => counted.first(from, Test::Apart(x)).is_some(),
        }
    }
}

impl<'a> Counted<'a> {
    ghost use Rattle.clause.specs.Finding.{passes};
    ghost use Rattle.clause.specs.Literals.{clause_of, counted};

    fn times(&self, x: Literal) -> u16
        requires { var x ≤ max_variables }
        ensures { result ≡ occurs x (counted self.now) }
    {
        self.by_code[x.code() as usize]
    }

    pub fn passes(&self, test: Test, x: Literal) -> bool
        requires { var x ≤ max_variables }
        ensures { result ≡ passes test (counted self.now) x }
    {
        let stands = |y: Literal| 0 < self.times(y);
        match test {
            Test::Open => x.is_open(),
            Test::Twice => 2 <= self.times(x),
            Test::Common => stands(x),
            Test::Opposed => stands(x.opposite()),
            Test::Apart(y) => differ(y, x),
            Test::Partner(y) => stands(x.opposite()) && differ(y, x),
            Test::Shared(y) => (stands(x) || stands(x.opposite())) && differ(y, x),
        }
    }

    // The first literal of the clause at `from` that passes beside the counted one.
    pub fn first(&self, from: usize, test: Test) -> Option<Literal>
        ensures { result ≡ find (passes test (counted self.now)) (clause_of self.now.of from) }
    {
        self.of.literals(from).find(|x| self.passes(test, *x))
    }
}

pub fn differ(x: Literal, y: Literal) -> bool
    ensures { result ≡ differ x y }
{
    x.variable() != y.variable()
}

// Where the first 0 stands.
fn first_zero(rest: &[i16]) -> Option<usize>
    ensures { result ≡ position (λ e. int_eq e (pos 0)) rest.now }
{
    rest.iter().position(|entry| *entry == 0)
}
