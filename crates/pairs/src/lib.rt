// The pairs of a block of which a tie, or the start, says that they may meet: a look at each, once. Most are told apart by sets of clauses.
#![tactic(auto)]

ghost use Rattle.std.specs.Prelude.{◌≤◌, is_err};
ghost use Rattle.moves.specs.Listing.{ListsIn, SpansIn};
ghost use Rattle.meet.specs.Looking.{Lookable, LookOf};
ghost use Rattle.pairs.specs.Seen.{Seeable, SeenBy, Seeing, SeenAll, MayMeet, FirstRow};
ghost use Rattle.pairs.specs.Sides.{Chunkable, NextRow, FacingOf, SideOf, side_of, start_of};

use gather::Sign;
use literal::Literal;
use moves::DeadEnd;
use notes::{Block, Notes};
use occurrences::Index;
use tally::Tally;

// A set in a byte has so many places, and at least so many clauses are seen at once: a chunk. A side of many is seen in so many chunks, in which clauses
// share a place.
const CHUNK: usize = 8;

const CHUNKS: usize = 4;

// Places from `from` to `to`, at which clauses were gathered.
#[derive(Clone, Copy)]
struct Range {
    from: usize,
    to: usize,
}

// Which clauses may meet ---------------------------------------------------------------------------------------------

// The set of those of a chunk in which a literal stands, by code: i % CHUNK for the clause gathered at place i.
type Seen = [u8; Literal::CODES];

// Sees the literals of clause g, if it is wide, as those of a set.
#[tactic(auto, using(meet::proofs::Reading::reading_laws))]
fn see_clause(index: &Index, state: &Tally, seen: &mut Seen, g: usize, set: u8)
    requires { Seeable index.now state.now g }
    ensures { SeenBy index.now state.now seen.old g set seen.new }
{
    if !gather::wide(state.count_of(g)) {
        return;
    }
    for &code in index.literals_of(g) {
        let v = state.value_of_code(code);
        seen[v as usize] |= set;
    }
}

// The literals of the clauses of a chunk. The constants count for nothing.
fn see_chunk(index: &Index, state: &Tally, work: &Notes, chunk: Range) -> Seen
    requires { Seeing index.now state.now work.now chunk.from chunk.to }
    ensures { SeenAll index.now state.now work.now chunk.from chunk.to result }
{
    let mut seen = [0u8; Literal::CODES];
    for i in chunk.from..chunk.to {
        let g = work.gathered_at(i) as usize;
        see_clause(index, state, &mut seen, g, 1u8 << (i % CHUNK));
    }
    seen[0] = 0;
    seen[1] = 0;
    seen
}

// The set of those that may meet clause g: it has a literal whose opposite stands in them, and a second one that does, or whose opposite does. Where a place
// has one clause alone, that one does meet it.
#[tactic(auto, using(meet::proofs::Reading::reading_laws, crate::proofs::Touching::opposite_low))]
fn may_meet(index: &Index, state: &Tally, seen: &Seen, g: usize) -> u8
    requires { Seeable index.now state.now g }
    ensures { MayMeet index.now state.now seen.now g result }
{
    if !gather::wide(state.count_of(g)) {
        return 0;
    }
    let mut crossed: u8 = 0;
    let mut once: u8 = 0;
    let mut twice: u8 = 0;
    for &code in index.literals_of(g) {
        let v = state.value_of_code(code);
        let across = seen[tally::opposite(v) as usize];
        let touched = seen[v as usize] | across;
        crossed |= across;
        twice |= once & touched;
        once |= touched;
    }
    crossed & twice
}

// The look -----------------------------------------------------------------------------------------------------------

// The first row from place `from` on that may meet one whose literals are seen, or `to`.
fn first_row(
    index: &Index,
    state: &Tally,
    work: &Notes,
    seen: &Seen,
    from: usize,
    to: usize,
) -> usize
    requires seeing { Seeing index.now state.now work.now from to }
    requires from_le_to { from ≤ to }
    ensures { FirstRow index.now state.now work.now seen.now from to result }
{
    for i in from..to {
        let g = work.gathered_at(i) as usize;
        if may_meet(index, state, seen, g) != 0 {
            return i;
        }
    }
    to
}

// The first row that may meet a clause of a chunk, or the rows' end. Of one row alone the look itself takes no longer.
fn next_row(index: &Index, state: &Tally, work: &Notes, rows: Range, chunk: Range) -> usize
    requires { Chunkable index.now state.now work.now rows chunk }
    ensures { NextRow index.now state.now work.now rows chunk result }
{
    if rows.to - rows.from < 2 {
        return rows.from;
    }
    let seen = see_chunk(index, state, work, chunk);
    first_row(index, state, work, &seen, rows.from, rows.to)
}

// Rules 7 and 8 for each row and each clause of a chunk.
fn meet_chunk(
    index: &Index,
    state: &mut Tally,
    work: &mut Notes,
    rows: Range,
    chunk: Range,
) -> Result<(), DeadEnd>
    requires { Chunkable index.now state.old work.old rows chunk }
    ensures { FacingOf index.now state.old work.old rows chunk state.new work.new (is_err result) }
{
    let mut from = rows.from;
    loop {
        let left = Range { from, to: rows.to };
        let i = next_row(index, state, work, left, chunk);
        if rows.to <= i {
            return Ok(());
        }
        let g = work.gathered_at(i) as usize;
        meet::meet_row(index, state, work, g, chunk.from, chunk.to)?;
        from = i + 1;
    }
}

// The same for each of the others, chunk by chunk.
fn meet_chunks(
    index: &Index,
    state: &mut Tally,
    work: &mut Notes,
    rows: Range,
    others: Range,
) -> Result<(), DeadEnd>
    requires { Chunkable index.now state.old work.old rows others }
    ensures { FacingOf index.now state.old work.old rows others state.new work.new (is_err result) }
{
    let length = CHUNK.max((others.to - others.from) / CHUNKS);
    for from in (others.from..others.to).step_by(length) {
        let to = (from + length).min(others.to);
        meet_chunk(index, state, work, rows, Range { from, to })?;
    }
    Ok(())
}

// The same where these are the fewer. One alone is the row, and read once.
fn meet_fewer(
    index: &Index,
    state: &mut Tally,
    work: &mut Notes,
    fewer: Range,
    more: Range,
) -> Result<(), DeadEnd>
    requires { Chunkable index.now state.old work.old fewer more }
    ensures { FacingOf index.now state.old work.old fewer more state.new work.new (is_err result) }
{
    if fewer.to - fewer.from == 1 {
        let g = work.gathered_at(fewer.from) as usize;
        return meet::meet_row(index, state, work, g, more.from, more.to);
    }
    meet_chunks(index, state, work, more, fewer)
}

// The sides of a block.
#[derive(Clone, Copy)]
enum Side {
    Near,
    Far,
}

// Gathers the clauses of a side of a block, and says where they end.
fn gather_side(index: &Index, state: &Tally, work: &mut Notes, block: Block, side: Side) -> usize
    requires lookable { Lookable index.now state.now work.old }
    requires spans_in { SpansIn state.now block }
    ensures { SideOf (side_of side state.now block) index.now state.now work.old (start_of side) work.new result }
{
    let (first, last, start, sign) = match side {
        Side::Near => (block.first, block.last, notes::NEAR, Sign::Positive),
        Side::Far => (block.from, block.to, notes::FAR, Sign::Negative),
    };
    if block.last == 0 {
        return gather::gather_variable(index, state, work, block.first as usize, start, sign);
    }
    gather::gather_stretch(index, state, work, first, last, start)
}

// Rules 7 and 8 for the pairs of a block, which is no longer listed.
pub fn look(index: &Index, state: &mut Tally, work: &mut Notes, block: Block) -> Result<(), DeadEnd>
    requires lookable { Lookable index.now state.old work.old }
    requires spans_in { SpansIn state.old block }
    ensures { LookOf (ListsIn state.old block) index.now state.old work.old state.new work.new (is_err result) }
{
    let near_end = gather_side(index, state, work, block, Side::Near);
    if near_end == notes::NEAR {
        return Ok(());
    }
    let far_end = gather_side(index, state, work, block, Side::Far);
    let near = Range {
        from: notes::NEAR,
        to: near_end,
    };
    let far = Range {
        from: notes::FAR,
        to: far_end,
    };
    if far_end - notes::FAR < near_end - notes::NEAR {
        return meet_fewer(index, state, work, far, near);
    }
    meet_fewer(index, state, work, near, far)
}
