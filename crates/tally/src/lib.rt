// The state of the search: what each variable stands for, the rings of the classes, and each clause's count.
#![tactic(auto)]

ghost use Rattle.std.specs.Prelude.{◌≡◌, ◌<◌, ◌≤◌};
ghost use Rattle.literal.specs.Literal.{opposite, code_of, literal_at, max_variables, max_clauses, codes};
ghost use Rattle.theory.specs.State.{value};
ghost use Rattle.tally.specs.Tally.{state_in, value_in, link_in, count_in, with_value, with_link, with_count};

use literal::Literal;

// A count is open literals + ONE_TRUE * true ones.
pub const ONE_TRUE: u16 = 2 * Literal::MAX_LITERALS as u16;

pub const TWO_TRUE: u16 = 2 * ONE_TRUE;

// The code of the opposite literal.
pub fn opposite(x: u16) -> u16
    ensures { result ≡ code_of (opposite (literal_at x)) }
{
    Literal::of_code(x).opposite().code()
}

#[derive(Clone, Copy)]
pub struct Tally {
    pub values: [u16; Literal::VARIABLES],
    pub links: [u16; Literal::VARIABLES],
    pub counts: [u16; Literal::MAX_CLAUSES],
}

impl Tally {
    // Nothing is known yet.
    pub fn new() -> Tally {
        Tally {
            values: [0; Literal::VARIABLES],
            links: [0; Literal::VARIABLES],
            counts: [0; Literal::MAX_CLAUSES],
        }
    }

    // The code of the literal that variable p stands for.
    pub fn value_of(&self, p: usize) -> u16
        requires { p ≤ max_variables }
        ensures { result ≡ value_in self.now p }
    {
        self.values[p]
    }

    // The code of what the literal with this code stands for.
    pub fn value_of_code(&self, code: u16) -> u16
        requires { code < codes }
        ensures { result ≡ code_of (value (state_in self.now) (literal_at code)) }
    {
        self.values[(code / 2) as usize] ^ (code % 2)
    }

    pub fn set_value(&mut self, p: usize, value: u16)
        requires { p ≤ max_variables }
        ensures { self.new ≡ with_value p value self.old }
    {
        self.values[p] = value;
    }

    // The next variable of the class of p, in a ring; p itself where it is alone.
    pub fn link_of(&self, p: usize) -> u16
        requires { p ≤ max_variables }
        ensures { result ≡ link_in self.now p }
    {
        self.links[p]
    }

    pub fn set_link(&mut self, p: usize, next: u16)
        requires { p ≤ max_variables }
        ensures { self.new ≡ with_link p next self.old }
    {
        self.links[p] = next;
    }

    pub fn count_of(&self, g: usize) -> u16
        requires { g < max_clauses }
        ensures { result ≡ count_in self.now g }
    {
        self.counts[g]
    }

    pub fn set_count(&mut self, g: usize, count: u16)
        requires { g < max_clauses }
        ensures { self.new ≡ with_count g count self.old }
    {
        self.counts[g] = count;
    }
}
