// Propagation by lists: a step changes only clauses that hold the changed class, so only those are looked at again.
#![tactic(auto)]

ghost use Rattle.std.specs.Prelude.{◌≡◌, true, ◌<◌, ◌≤◌, is_err};
ghost use Rattle.occurrences.specs.Index.{clause_count, start_at};
ghost use Rattle.tally.specs.Tally.{count_in};
ghost use Rattle.moves.specs.Sound.{Sound};
ghost use Rattle.engine.specs.Reading.{Opens, FirstOpen, OpenEntry};
ghost use Rattle.engine.specs.Ready.{Ready, Propagated};
ghost use Rattle.engine.specs.Turning.{UnitOf, Unitable, UnitsOf, TwoOf, TurnOf, Left};

use moves::DeadEnd;
use notes::Notes;
use occurrences::Index;
use tally::Tally;

// The place of the first open literal of clause g, from place `from` on. There is one, so the walk needs no end.
fn open_place(index: &Index, state: &Tally, g: usize, from: usize) -> usize
    requires { Opens index.now state.now g from }
    ensures { FirstOpen index.now state.now g from result }
{
    let mut i = from;
    while state.value_of_code(index.codes[i]) < 2 {
        i += 1;
    }
    i
}

// The first open literal of clause g.
fn open_entry(index: &Index, state: &Tally, g: usize) -> u16
    requires { Opens index.now state.now g (start_at index.now g) }
    ensures { OpenEntry index.now state.now g result }
{
    let i = open_place(index, state, g, index.start_of(g));
    state.value_of_code(index.codes[i])
}

// Rules 2 and 3 in clause g.
fn unit(index: &Index, state: &mut Tally, work: &mut Notes, g: usize) -> Result<(), DeadEnd>
    requires sound { Sound index.now state.old work.old }
    requires g_bound { g < clause_count index.now }
    ensures { UnitOf index.now state.old work.old g state.new work.new (is_err result) }
{
    let count = state.count_of(g);
    if count == 1 {
        let x = open_entry(index, state, g);
        return decide::decide(index, state, work, tally::opposite(x));
    }
    if tally::ONE_TRUE < count {
        return decide::clear_others(index, state, work, g, 0);
    }
    Ok(())
}

// Rules 1, 2 and 3 until none fits: looks at the noted clauses from index `from` on, and at those that are noted meanwhile.
fn units(index: &Index, state: &mut Tally, work: &mut Notes, from: usize) -> Result<(), DeadEnd>
    requires { Unitable index.now state.old work.old from }
    ensures { UnitsOf index.now state.old work.old state.new work.new (is_err result) }
{
    let mut at = from;
    while at < work.todo_end {
        let g = work.todo_at(at) as usize;
        unit(index, state, work, g)?;
        at += 1;
    }
    Ok(())
}

// The same where any clause was noted since: most looks note none, and a test costs less than a call.
fn new_units(index: &Index, state: &mut Tally, work: &mut Notes, from: usize) -> Result<(), DeadEnd>
    requires { Unitable index.now state.old work.old from }
    ensures { UnitsOf index.now state.old work.old state.new work.new (is_err result) }
{
    if work.todo_end <= from {
        return Ok(());
    }
    units(index, state, work, from)
}

// Rule 6 in clause g, which has two open literals and none true: whether exactly one of two is true, of which the first has the lower variable. Twice the
// same is a dead end by rules 4 and 1.
fn two_open(index: &Index, state: &Tally, g: usize) -> Result<Option<(u16, u16)>, DeadEnd>
    requires opens { Opens index.now state.now g (start_at index.now g) }
    requires g_value { count_in state.now g ≡ 2 }
    ensures { TwoOf index.now state.now g result }
{
    let i = open_place(index, state, g, index.start_of(g));
    let j = open_place(index, state, g, i + 1);
    let x = state.value_of_code(index.codes[i]);
    let y = state.value_of_code(index.codes[j]);
    if x == y {
        return Err(DeadEnd);
    }
    if x / 2 == y / 2 {
        return Ok(None);
    }
    if x < y {
        return Ok(Some((x, y)));
    }
    Ok(Some((y, x)))
}

// Rule 6 in the noted clause at index `twos`, which stays the next one until no tie is found; answers which one is next.
fn look_at_two(
    index: &Index,
    state: &mut Tally,
    work: &mut Notes,
    twos: usize,
) -> Result<usize, DeadEnd>
    requires ready { Ready index.now state.old work.old work.old.todo_end twos }
    requires twos_bound { twos < work.old.todo_end }
    ensures { TurnOf index.now state.old work.old twos state.new work.new result }
{
    let g = work.todo_at(twos) as usize;
    if state.count_of(g) != 2 {
        return Ok(twos + 1);
    }
    let Some((low, high)) = two_open(index, state, g)? else {
        return Ok(twos + 1);
    };
    tie::tie(index, state, work, low, high)?;
    Ok(twos)
}

// Rules 7 and 8 for the pairs of the last listed block. It goes from the list before: pairs that its steps add are listed anew.
fn look_at_pairs(
    index: &Index,
    state: &mut Tally,
    work: &mut Notes,
    twos: usize,
) -> Result<usize, DeadEnd>
    requires ready { Ready index.now state.old work.old work.old.todo_end twos }
    requires twos_bound { twos ≤ work.old.todo_end }
    requires blocks_end_nonzero { 0 < work.old.blocks_end }
    ensures { TurnOf index.now state.old work.old twos state.new work.new result }
{
    let end = work.blocks_end - 1;
    let block = work.block_at(end);
    work.blocks_end = end;
    pairs::look(index, state, work, block)?;
    Ok(twos)
}

// Whether anything is left to look at.
fn is_left(work: &Notes, twos: usize) -> bool
    ensures { Left work.now twos result }
{
    twos < work.todo_end || 0 < work.blocks_end
}

// One look, at a clause with two open literals before the pairs of a block.
fn turn(index: &Index, state: &mut Tally, work: &mut Notes, twos: usize) -> Result<usize, DeadEnd>
    requires ready { Ready index.now state.old work.old work.old.todo_end twos }
    requires twos_bound { twos ≤ work.old.todo_end }
    requires left { Left work.old twos true }
    ensures { TurnOf index.now state.old work.old twos state.new work.new result }
{
    if twos < work.todo_end {
        return look_at_two(index, state, work, twos);
    }
    look_at_pairs(index, state, work, twos)
}

// All rules until none fits.
pub fn propagate(index: &Index, state: &mut Tally, work: &mut Notes) -> Result<(), DeadEnd>
    requires { Ready index.now state.old work.old 0 0 }
    ensures { Propagated index.now state.old state.new work.new (is_err result) }
{
    units(index, state, work, 0)?;
    let mut twos = 0;
    while is_left(work, twos) {
        let at = work.todo_end;
        twos = turn(index, state, work, twos)?;
        new_units(index, state, work, at)?;
    }
    Ok(())
}
