// Search for C with the numbers of its memo as parameters: for random trials with few slots and a poor hash, and for the benchmark's column of splits that
// were walked. The library of the product does not have it.
#![tactic(auto)]

ghost use Rattle.std.specs.Prelude.{◌≡◌};
ghost use Rattle.theory.specs.Calls.{search_call};
ghost use Rattle.memo_trial.specs.Trial.{tried};

// The receipt of Search, and how many splits were walked for it: those of its count that the memo did not know.
#[repr(C)]
#[derive(Clone, Copy)]
pub struct MemoTrial {
    pub number: u32,
    pub count: u32,
    pub place: usize,
    pub group: u32,
    pub walked: u32,
}

// At most so many slots, at least one; a spread of 1 makes the hash a plain sum.
#[unsafe(no_mangle)]
pub extern "C" fn memo_trial_search(
    table: &[i16],
    n: usize,
    allowance: u32,
    plan: &mut [u8],
    trail: &mut [i16],
    slots: usize,
    spread: u32,
) -> MemoTrial
    ensures { (result, (plan.new, trail.new)) ≡ tried result.walked (search_call n table.now allowance plan.old trail.old) }
{
    let tried = search::search_with(table, n, allowance, plan, trail, slots, spread as usize);
    let r = receipt::searching_receipt(tried.map(|tried| tried.searched));
    MemoTrial {
        number: r.number,
        count: r.count,
        place: r.place,
        group: r.clause.0 as u32,
        walked: tried.map_or(0, |tried| tried.walked),
    }
}
