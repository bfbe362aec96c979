// The wide clauses, with no true literal and three or more open ones, of a stretch of variables or of the class of an open root.
#![tactic(auto)]

ghost use Rattle.std.specs.Prelude.{◌≡◌, ◌%◌, ◌≤◌};
ghost use Rattle.literal.specs.Literal.{max_variables};
ghost use Rattle.occurrences.specs.Index.{Indexed};
ghost use Rattle.gather.specs.Gathering.{is_wide, is_signed, AtRoot, Gathering, Collecting, Collected, Gatherable, GatheredAlong, Stands, StandsLive};

use notes::Notes;
use occurrences::Index;
use tally::Tally;

// Which occurrences of a variable count: those of one sign, or all.
#[derive(Clone, Copy)]
pub enum Sign {
    Positive,
    Negative,
    Either,
}

// Whether an occurrence has such a sign.
fn signed(occurrence: u16, sign: Sign) -> bool
    ensures { result ≡ is_signed sign (occurrence % 2) }
{
    match sign {
        Sign::Either => true,
        Sign::Positive => occurrence % 2 == 0,
        Sign::Negative => occurrence % 2 == 1,
    }
}

// Whether a clause is wide, by its count.
pub fn wide(count: u16) -> bool
    ensures { result ≡ is_wide count }
{
    2 < count && count < tally::ONE_TRUE
}

// Gathers the wide clauses in which variable p stands, with such a sign, from place `start` on, and says where they end. A clause that doesn't count is
// overwritten.
pub fn gather_variable(
    index: &Index,
    state: &Tally,
    work: &mut Notes,
    p: usize,
    start: usize,
    sign: Sign,
) -> usize
    requires { Collecting index.now work.old p start }
    ensures { Collected index.now state.now work.old p start sign work.new result }
{
    let mut end = start;
    for &occurrence in index.occurrences_of(p) {
        let g = occurrence / 2;
        work.gathered[end] = g;
        end += (wide(state.count_of(g as usize)) & signed(occurrence, sign)) as usize;
    }
    end
}

// Gathers the wide clauses of the variables from `first` along the links to `last`, from place `start` on, and says where they end.
pub fn gather_stretch(
    index: &Index,
    state: &Tally,
    work: &mut Notes,
    first: u16,
    last: u16,
    start: usize,
) -> usize
    requires { Gatherable index.now state.now work.old first last start }
    ensures { GatheredAlong index.now state.now work.old first last start work.new result }
{
    let mut end = start;
    let mut p = first;
    loop {
        end = gather_variable(index, state, work, p as usize, end, Sign::Either);
        if p == last {
            return end;
        }
        p = state.link_of(p as usize);
    }
}

// Gathers the wide clauses that hold the class of root r, the variables that were tied last first, and says how many there are.
pub fn gather(index: &Index, state: &Tally, work: &mut Notes, r: u16) -> usize
    requires { AtRoot index.now state.now r }
    ensures { Gathering index.now state.now work.old r work.new result }
{
    gather_stretch(index, state, work, state.link_of(r as usize), r, 0)
}

// Whether variable p stands in a wide clause.
fn stands_wide(index: &Index, state: &Tally, p: usize) -> bool
    requires indexed { Indexed index.now }
    requires p_le_max_variables { p ≤ max_variables }
    ensures { Stands index.now state.now p result }
{
    for &occurrence in index.occurrences_of(p) {
        if wide(state.count_of((occurrence / 2) as usize)) {
            return true;
        }
    }
    false
}

// Whether the class of root r stands in a wide clause.
pub fn stands_live(index: &Index, state: &Tally, r: u16) -> bool
    requires { AtRoot index.now state.now r }
    ensures { StandsLive index.now state.now r result }
{
    let mut p = state.link_of(r as usize);
    loop {
        if stands_wide(index, state, p as usize) {
            return true;
        }
        if p == r {
            return false;
        }
        p = state.link_of(p as usize);
    }
}
