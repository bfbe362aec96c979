// What Search's tree and List's tree have in common: the first step of a side of a split, and the choice that is written at a leaf.
#![tactic(auto)]

ghost use Rattle.std.specs.Prelude.{◌≡◌, ◌++◌, map, ◌+◌, ◌≤◌, length, take, drop, is_err};
ghost use Rattle.general.specs.Booleans.{bit};
ghost use Rattle.literal.specs.Literal.{max_variables};
ghost use Rattle.theory.specs.Formula.{holds};
ghost use Rattle.theory.specs.Search.{only_constant, choice_of};
ghost use Rattle.tally.specs.Tally.{state_in};
ghost use Rattle.side.specs.Side.{Siding, Begun};

use literal::Literal;
use moves::DeadEnd;
use notes::Notes;
use occurrences::Index;
use tally::Tally;

// The first step of a side of a split: nothing is listed yet, and the open literal x becomes false.
pub fn begin(index: &Index, state: &mut Tally, work: &mut Notes, x: u16) -> Result<(), DeadEnd>
    requires { Siding index.now state.old x }
    ensures { Begun index.now state.old x state.new work.new (is_err result) }
{
    work.todo_end = 0;
    work.blocks_end = 0;
    decide::decide(index, state, work, x)
}

// Whether a literal is true when only the constant is: open variables are left out.
fn chosen(x: Literal) -> bool
    ensures { result ≡ holds only_constant x }
{
    match x {
        Literal::Pos(p) => p == 0,
        Literal::Neg(p) => p != 0,
    }
}

// The choice of a leaf, from the index `at` on: open variables are left out, tied ones follow.
pub fn write_choice(bytes: &mut [u8], at: usize, n: usize, state: &Tally)
    requires n_in_bounds { at + n ≤ length bytes.old }
    requires n_le_max_variables { n ≤ max_variables }
    ensures { bytes.new ≡ take at bytes.old ++ (map bit (choice_of n (state_in state.now)) ++ drop (at + n) bytes.old) }
{
    for i in 0..n {
        bytes[at + i] = chosen(Literal::of_code(state.value_of(i + 1))) as u8;
    }
}
