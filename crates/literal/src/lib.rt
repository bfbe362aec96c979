// Placement numbers, group numbers and the entries of a table, as literals.
#![tactic(auto)]

ghost use Rattle.std.specs.Prelude.{◌≡◌, ◌<◌, nat_abs};
ghost use Rattle.literal.specs.Literal.{literal, var, is_open, opposite, literal_of, entry_of, code_of, literal_at};

// A placement number.
#[derive(Clone, Copy, PartialEq, Eq, PartialOrd, Ord)]
pub struct Variable(pub u16);

// A group number, counted apart.
#[derive(Clone, Copy, PartialEq, Eq, PartialOrd, Ord)]
pub struct ClauseNumber(pub u16);

// An entry: Pos(p) says that placement p is taken, Neg(p) that it is left out. Variable 0 is the constant: Pos(0) is true, Neg(0) false.
#[derive(Clone, Copy, PartialEq, Eq)]
pub enum Literal {
    Pos(u16),
    Neg(u16),
}

impl Literal {
    pub const TRUE: Literal = Literal::Pos(0);

    pub const FALSE: Literal = Literal::Neg(0);

    pub const MAX_VARIABLES: usize = 256;

    pub const MAX_CLAUSES: usize = 512;

    pub const MAX_LITERALS: usize = 2048;

    // The elements of the longest table: every literal, and a 0 for every clause.
    pub const MAX_TABLE: usize = Literal::MAX_LITERALS + Literal::MAX_CLAUSES;

    // The constant and every variable; each has two codes.
    pub const VARIABLES: usize = Literal::MAX_VARIABLES + 1;

    pub const CODES: usize = 2 * Literal::VARIABLES;

    pub fn new(variable: Variable, taken: bool) -> Literal
        ensures { result ≡ literal variable.0 taken }
    {
        let Variable(p) = variable;
        if taken {
            Literal::Pos(p)
        } else {
            Literal::Neg(p)
        }
    }

    pub fn opposite(self) -> Literal
        ensures { result ≡ opposite self }
    {
        match self {
            Literal::Pos(p) => Literal::Neg(p),
            Literal::Neg(p) => Literal::Pos(p),
        }
    }

    pub fn variable(self) -> Variable
        ensures { result.0 ≡ var self }
    {
        match self {
            Literal::Pos(p) | Literal::Neg(p) => Variable(p),
        }
    }

    // Whether it is of a variable, not of the constant.
    pub fn is_open(self) -> bool
        ensures { result ≡ is_open self }
    {
        Variable(0) < self.variable()
    }

    // A literal as one number, by which lists are indexed: 2 * p where p is taken, 2 * p + 1 where it is left out. No From: a larger one has no code.
    pub fn code(self) -> u16
        requires { var self < 32768 }
        ensures { result ≡ code_of self }
    {
        match self {
            Literal::Pos(p) => 2 * p,
            Literal::Neg(p) => 2 * p + 1,
        }
    }

    // No From: a u16 is a placement number too.
    #[tactic(auto, unfolding(crate::specs::Literal::literal_at))]
    pub fn of_code(code: u16) -> Literal
        ensures { result ≡ literal_at code }
    {
        Literal::new(Variable(code / 2), code % 2 == 0)
    }

    // The signed number as a table and a trail write it; a constant is 0. No From: a larger one is no element.
    pub fn entry(self) -> i16
        requires { var self < 32768 }
        ensures { result ≡ entry_of self }
    {
        match self {
            Literal::Pos(p) => p as i16,
            Literal::Neg(p) => -(p as i16),
        }
    }
}

// An element of a table; a 0, which closes a group, reads as the constant.
impl From<i16> for Literal {
    ghost from_gives = { λ entry r. r ≡ literal_of entry };

    fn from(entry: i16) -> Literal {
        Literal::new(Variable(size(entry)), 0 <= entry)
    }
}

// The placement number of an element of a table, 0 where it closes a group. A u16 holds it at -32768 too.
pub fn size(entry: i16) -> u16
    ensures { result ≡ nat_abs entry }
{
    entry.unsigned_abs()
}
