// List: the layouts of a table in order, as many as rows are asked for (document 02, A6), by the tree that splits on the lowest open variable.
#![tactic(auto)]

ghost use Rattle.std.specs.Prelude.{◌≡◌, ◌+◌, ◌*◌, ltb, is_err};
ghost use Rattle.std.specs.Int.{w32, w64};
ghost use Rattle.std.proofs.Common.{Fits};
ghost use Rattle.theory.specs.Listing.{open_variable, list_tree};
ghost use Rattle.theory.specs.Calls.{list_call};
ghost use Rattle.occurrences.specs.Index.{formula_of};
ghost use Rattle.tally.specs.Tally.{state_in};
ghost use Rattle.side.specs.Branch.{branch_of};
ghost use Rattle.list.specs.Walk.{Openable, Rowable, Walkable, Splittable, Listable, under, leaf_run, run_from, split_run, counted, Walked, top, kept_rows, answer_of};
ghost use Rattle.list.specs.Call.{called};

use literal::{Literal, Variable};
use moves::DeadEnd;
use notes::Notes;
use occurrences::Index;
use receipt::{Fault, Listed, Outcome, Refusal};
use tally::Tally;

// How a walk ends: with all there is to find, at a layout more than there are rows for, or at a split for which nothing is left of the allowance.
#[derive(Clone, Copy, PartialEq, Eq)]
pub enum Ending {
    All,
    More,
    Stopped,
}

// How a walk of the tree ends, the rows that it writes, and the splits that it makes.
#[derive(Clone, Copy)]
pub struct Walk {
    pub ending: Ending,
    pub written: usize,
    pub count: u32,
}

impl Walk {
    const DEAD_END: Walk = Walk {
        ending: Ending::All,
        written: 0,
        count: 0,
    };
}

// Where a walk stands: of how many variables, from which one on an open one is looked for, the splits left, the rows asked for, and the next of them to write.
#[derive(Clone, Copy)]
pub struct Level {
    pub variables: usize,
    pub from: usize,
    pub left: u32,
    pub wanted: usize,
    pub row: usize,
}

// The lowest open variable. None below `from` is open.
fn open_variable(state: &Tally, from: usize, n: usize) -> Option<Variable>
    requires { Openable state.now from n }
    ensures { branch_of result ≡ open_variable n (state_in state.now) }
{
    for p in from..n + 1 {
        if state.value_of(p) == 2 * (p as u16) {
            return Some(Variable(p as u16));
        }
    }
    None
}

// A layout is a row; one more than was asked for is not written.
fn write_row(level: Level, state: &Tally, rows: &mut [u8]) -> Walk
    requires { Rowable level rows.old }
    ensures { Walked level (leaf_run level.variables (state_in state.now)) rows.old rows.new result }
{
    if level.row == level.wanted {
        return Walk {
            ending: Ending::More,
            written: 0,
            count: 0,
        };
    }
    side::write_choice(rows, level.row * level.variables, level.variables, state);
    Walk {
        ending: Ending::All,
        written: 1,
        count: 0,
    }
}

// The level below a split on p, with `left` splits left, where `row` is the next row.
fn below(level: Level, p: Variable, left: u32, row: usize) -> Level
    ensures { result ≡ under p.0 left row level }
{
    Level {
        variables: level.variables,
        from: p.0 as usize + 1,
        left,
        wanted: level.wanted,
        row,
    }
}

// A dead end, a layout, or a split on the lowest open variable, live clause or none.
#[cycle(settle_and_decide_split)]
fn settle_and_decide(
    index: &Index,
    state: &mut Tally,
    work: &mut Notes,
    begun: Result<(), DeadEnd>,
    level: Level,
    rows: &mut [u8],
) -> Walk
    requires { Walkable index.now state.old work.old (is_err begun) level rows.old }
    ensures { Walked level (run_from (is_err begun) level index.now state.old) rows.old rows.new result }
{
    if begun.is_err() {
        return Walk::DEAD_END;
    }
    if engine::propagate(index, state, work).is_err() {
        return Walk::DEAD_END;
    }
    let Some(p) = open_variable(state, level.from, level.variables) else {
        return write_row(level, state, rows);
    };
    split(index, state, work, p, level, rows)
}

// The layouts with p left out come before those with p taken. The second side starts from the copy made before the first side runs.
#[cycle(settle_and_decide_split)]
fn split(
    index: &Index,
    state: &mut Tally,
    work: &mut Notes,
    p: Variable,
    level: Level,
    rows: &mut [u8],
) -> Walk
    requires { Splittable index.now state.old p.0 level rows.old }
    ensures { Walked level (split_run p.0 level (formula_of index.now) (state_in state.old)) rows.old rows.new result }
{
    if level.left == 0 {
        return Walk {
            ending: Ending::Stopped,
            written: 0,
            count: 0,
        };
    }
    let mut second = *state;
    let x = Literal::new(p, true);
    let out = side::begin(index, state, work, x.code());
    let lower = below(level, p, level.left - 1, level.row);
    let a = settle_and_decide(index, state, work, out, lower, rows);
    if a.ending != Ending::All {
        return through(a, 0, 1);
    }
    let used = 1 + a.count;
    let taken = side::begin(index, &mut second, work, x.opposite().code());
    let rest = below(level, p, level.left - used, level.row + a.written);
    let b = settle_and_decide(index, &mut second, work, taken, rest, rows);
    through(b, a.written, used)
}

// A walk of one side, as a walk of the split: its rows and its splits come after those before it.
fn through(side: Walk, written: usize, splits: u32) -> Walk
    requires fits { Fits w64 (written + side.written) }
    requires fits_2 { Fits w32 (splits + side.count) }
    ensures { result ≡ counted written splits side }
{
    Walk {
        ending: side.ending,
        written: written + side.written,
        count: splits + side.count,
    }
}

// The walk of a checked table from the initial state.
fn walk_table(table: &[i16], n: usize, k: usize, allowance: u32, rows: &mut [u8]) -> Walk
    requires { Listable n table.now k rows.old }
    ensures { Walked (top n k allowance) (list_tree n table.now k) rows.old rows.new result }
{
    let index = Index::build(table);
    let mut state = Tally::new();
    let mut work = Notes::new();
    let begun = start::start(&index, &mut state, &mut work);
    let level = Level {
        variables: n,
        from: 1,
        left: allowance,
        wanted: k,
        row: 0,
    };
    settle_and_decide(&index, &mut state, &mut work, begun, level, rows)
}

// The room is under k times n, reckoned without the product.
fn is_short(room: usize, n: usize, k: usize) -> bool
    ensures { result ≡ ltb room (k * n) }
{
    n != 0 && room / n < k
}

// The rows that count: on a stop none does.
fn kept_rows(walk: Walk) -> usize
    ensures { result ≡ kept_rows walk }
{
    match walk.ending {
        Ending::All | Ending::More => walk.written,
        Ending::Stopped => 0,
    }
}

// What a walk answers, with the rows that count.
fn answer_of(walk: Walk, rows: usize) -> Listed
    ensures { result ≡ answer_of walk rows }
{
    let outcome = match walk.ending {
        Ending::All if rows == 0 => Outcome::NoLayout,
        Ending::All | Ending::More => Outcome::LaidOut,
        Ending::Stopped => Outcome::Stopped,
    };
    Listed {
        outcome,
        rows,
        more: walk.ending == Ending::More,
        count: walk.count,
    }
}

#[tactic(auto, unfolding(theory::specs::Calls::list_call))]
pub fn list(
    table: &[i16],
    n: usize,
    k: usize,
    allowance: u32,
    rows: &mut [u8],
) -> Result<Listed, Refusal>
    ensures { called result rows.new ≡ list_call n table.now k allowance rows.old }
{
    table::check_table(table, n)?;
    if is_short(rows.len(), n, k) {
        return Err(Refusal::new(Fault::RowsShort, 0));
    }
    let walk = walk_table(table, n, k, allowance, rows);
    let kept = kept_rows(walk);
    fill::clear(rows, kept * n, (k - kept) * n, 0);
    Ok(answer_of(walk, kept))
}
