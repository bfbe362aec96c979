// The start of a search: everything is open, and what a rule may fit is noted.
#![tactic(auto)]

ghost use Rattle.std.specs.Prelude.{◌≡◌, false, ◌+◌, ◌<◌, ◌≤◌, length, is_err, IfSome};
ghost use Rattle.literal.specs.Literal.{max_variables, variables};
ghost use Rattle.occurrences.specs.Index.{Indexed, clause_count, clause_of};
ghost use Rattle.notes.specs.Notes.{with_blocks_end};
ghost use Rattle.undouble.specs.Doubling.{DoublesOf};
ghost use Rattle.start.specs.Opening.{OpenBelow};
ghost use Rattle.start.specs.Counting.{CountsOf};
ghost use Rattle.start.specs.Undoubling.{Undoubling, WrittenOnce, Doubled, UndoubledOf};
ghost use Rattle.start.specs.Signs.{signs_block, SignsOf, ListedBelow, Listing};
ghost use Rattle.start.specs.Starting.{StartOf};

use literal::Literal;
use moves::DeadEnd;
use notes::{Block, Notes};
use occurrences::Index;
use std::array;
use tally::Tally;

// Every variable is open and alone in its class.
fn open_all() -> Tally
    ensures { OpenBelow result variables }
{
    Tally {
        values: array::from_fn(|p| 2 * p as u16),
        links: array::from_fn(|p| p as u16),
        counts: [0; Literal::MAX_CLAUSES],
    }
}

// How many literals clause g has.
fn length_of(index: &Index, g: usize) -> u16
    requires indexed { Indexed index.now }
    requires g_bound { g < clause_count index.now }
    ensures { result ≡ length (clause_of index.now g) }
{
    index.literals_of(g).len() as u16
}

// Counts the clauses, all of whose literals are open; an empty one is a dead end. A clause is to be looked at where it has one or two.
// It is always written past the last note, and is one where the end moves on.
fn count_all(index: &Index, state: &mut Tally, work: &mut Notes) -> Result<(), DeadEnd>
    requires indexed { Indexed index.now }
    requires open_below { OpenBelow state.old variables }
    ensures { CountsOf index.now state.new work.new (is_err result) }
{
    let mut end = 0;
    for g in 0..index.clauses {
        let count = length_of(index, g);
        state.set_count(g, count);
        if count == 0 {
            return Err(DeadEnd);
        }
        work.todo[end] = g as u16;
        end += (count < 3) as usize;
    }
    work.todo_end = end;
    work.blocks_end = 0;
    Ok(())
}

// Whether variable p stands twice in a clause: not where each of its occurrences is in a later clause than the one before.
// They go by clause, but nothing rests on that: a true too many costs only time.
fn repeats(index: &Index, p: usize) -> bool
    requires indexed { Indexed index.now }
    requires p_le_max_variables { p ≤ max_variables }
    ensures { result ≡ false → WrittenOnce index.now p }
{
    let mut next = 0;
    for &occurrence in index.occurrences_of(p) {
        let g = occurrence / 2;
        if g < next {
            return true;
        }
        next = g + 1;
    }
    false
}

// An occurrence of variable p that is the same as the one before it, so that a literal of it stands twice in a clause.
fn doubled(index: &Index, p: usize) -> Option<u16>
    requires indexed { Indexed index.now }
    requires p_le_max_variables { p ≤ max_variables }
    ensures { IfSome result (Doubled index.now p) }
{
    let mut before = None;
    for &occurrence in index.occurrences_of(p) {
        if before == Some(occurrence) {
            return before;
        }
        before = Some(occurrence);
    }
    None
}

// Rules 4 and 5 for variable r where it stands twice in a clause, unless it was decided meanwhile. Where its occurrences show that a literal does, no clause
// is read.
fn undouble_at(index: &Index, state: &mut Tally, work: &mut Notes, r: u16) -> Result<(), DeadEnd>
    requires undoubling { Undoubling index.now state.old work.old }
    requires r_nonzero { 0 < r }
    requires r_le_max_variables { r ≤ max_variables }
    ensures { DoublesOf index.now state.old work.old r state.new work.new (is_err result) }
{
    if !repeats(index, r as usize) {
        return Ok(());
    }
    if state.value_of(r as usize) != 2 * r {
        return Ok(());
    }
    match doubled(index, r as usize) {
        Some(occurrence) => decide::decide(index, state, work, 2 * r + occurrence % 2),
        None => undouble::doubles_at(index, state, work, r),
    }
}

// Rules 4 and 5 for each variable in turn.
fn undouble_all(index: &Index, state: &mut Tally, work: &mut Notes) -> Result<(), DeadEnd>
    requires { Undoubling index.now state.old work.old }
    ensures { UndoubledOf index.now state.old work.old state.new work.new (is_err result) }
{
    for r in 1..Literal::VARIABLES {
        undouble_at(index, state, work, r as u16)?;
    }
    Ok(())
}

// Whether variable p occurs with both signs.
fn both_signs(index: &Index, p: usize) -> bool
    requires indexed { Indexed index.now }
    requires p_le_max_variables { p ≤ max_variables }
    ensures { SignsOf index.now p result }
{
    let occurrences = index.occurrences_of(p);
    for &occurrence in occurrences {
        if occurrence % 2 != occurrences[0] % 2 {
            return true;
        }
    }
    false
}

// The pairs of a clause that holds variable p and one that holds its opposite.
fn signs_block(p: u16) -> Block
    ensures { result ≡ signs_block p }
{
    Block {
        first: p,
        last: 0,
        from: 0,
        to: 0,
    }
}

// Lists variable p for its pairs where they can cross; answers how many blocks are listed then.
fn list_at(index: &Index, work: &mut Notes, end: usize, p: usize) -> usize
    requires indexed { Indexed index.now }
    requires p_nonzero { 0 < p }
    requires p_le_max_variables { p ≤ max_variables }
    requires listed_below { ListedBelow index.now (with_blocks_end end work.old) p }
    ensures { Listing index.now work.old work.new result (p + 1) }
{
    if both_signs(index, p) {
        work.blocks[end] = signs_block(p as u16);
        end + 1
    } else {
        end
    }
}

// A pair of clauses crosses by a variable that stands with both signs: those are listed.
fn list_all(index: &Index, work: &mut Notes)
    requires { Indexed index.now }
    ensures { Listing index.now work.old work.new work.new.blocks_end (max_variables + 1) }
{
    let mut end = 0;
    for p in 1..Literal::VARIABLES {
        end = list_at(index, work, end, p);
    }
    work.blocks_end = end;
}

// Everything is open, and what a rule may fit is noted.
pub fn start(index: &Index, state: &mut Tally, work: &mut Notes) -> Result<(), DeadEnd>
    requires { Indexed index.now }
    ensures { StartOf index.now state.new work.new (is_err result) }
{
    *state = open_all();
    count_all(index, state, work)?;
    undouble_all(index, state, work)?;
    list_all(index, work);
    Ok(())
}
