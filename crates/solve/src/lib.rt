// Solving a strip: reading it, and searching what was read. The window and the layout program both do.
#![tactic(auto)]

ghost use Rattle.std.specs.Prelude.{◌≡◌};
ghost use Rattle.search.specs.Call.{called};
ghost use Rattle.theory.specs.Calls.{solve_call, solve_variables};

use literal::Literal;
use receipt::{Refusal, Searched};

// The search's answer, and the placements of the strip, 0 where it is refused.
#[derive(Clone, Copy)]
pub struct Solved {
    pub variables: usize,
    pub answer: Result<Searched, Refusal>,
}

pub fn solve(strip: &[u8], allowance: u32, plan: &mut [u8], trail: &mut [i16]) -> Solved
    ensures call { called result.answer plan.new trail.new ≡ solve_call strip.now allowance plan.old trail.old }
    ensures variables { result.variables ≡ solve_variables strip.now }
{
    match strip::decode(strip, Literal::MAX_TABLE) {
        Ok(decoded) => {
            let read = decoded.read;
            let table = &decoded.cells[..read.used];
            Solved {
                variables: read.variables,
                answer: search::search(table, read.variables, allowance, plan, trail),
            }
        }
        Err(refusal) => Solved {
            variables: 0,
            answer: Err(refusal),
        },
    }
}
