// Search: the first layout of a table, by the split tree of document 01.
#![tactic(auto)]

ghost use Rattle.std.specs.Prelude.{◌≡◌};
ghost use Rattle.theory.specs.Calls.{search_call};
ghost use Rattle.search.specs.Call.{answer_of, called};

use memo::Memory;
use receipt::{Fault, Refusal, Searched};

// An answer, and how many splits were made for it: those that were known are in its count alone.
#[derive(Clone, Copy)]
pub struct Tried {
    pub searched: Searched,
    pub walked: u32,
}

// Search with so many slots of the memo, and weights of its hash that spread so far: no answer depends on either.
#[tactic(auto, unfolding(theory::specs::Calls::search_call), using(theory::proofs::Tables::accepted_sizes))]
pub fn search_with(
    table: &[i16],
    n: usize,
    allowance: u32,
    plan: &mut [u8],
    trail: &mut [i16],
    slots: usize,
    spread: usize,
) -> Result<Tried, Refusal>
    ensures { called (answer_of result) plan.new trail.new ≡ search_call n table.now allowance plan.old trail.old }
{
    table::check_table(table, n)?;
    table::at_most(n, plan.len(), Fault::PlanShort)?;
    table::at_most(n, trail.len(), Fault::TrailShort)?;
    fill::clear(plan, 0, n, 0);
    fill::clear(trail, 0, n, 0);
    let mut memory = Memory::new(n, slots, spread);
    let walk = walk::walk_table(table, n, allowance, &mut memory, plan, trail);
    Ok(Tried {
        searched: Searched {
            outcome: walk.outcome,
            count: walk.count,
        },
        walked: memory.walked,
    })
}

pub fn search(
    table: &[i16],
    n: usize,
    allowance: u32,
    plan: &mut [u8],
    trail: &mut [i16],
) -> Result<Searched, Refusal>
    ensures { called result plan.new trail.new ≡ search_call n table.now allowance plan.old trail.old }
{
    let tried = search_with(
        table,
        n,
        allowance,
        plan,
        trail,
        memo::MOST_SLOTS,
        memo::SPREAD,
    )?;
    Ok(tried.searched)
}
