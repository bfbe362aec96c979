// The walk of the split tree of document 01 to the first layout of a checked table, with a memo of splits that have none.
#![tactic(auto)]

ghost use Rattle.std.specs.Prelude.{◌≡◌, ◌+◌, ◌≤◌, is_err};
ghost use Rattle.std.specs.Int.{w32};
ghost use Rattle.std.proofs.Common.{Fits};
ghost use Rattle.literal.specs.Literal.{max_variables};
ghost use Rattle.theory.specs.Search.{branch_variable};
ghost use Rattle.occurrences.specs.Index.{formula_of};
ghost use Rattle.tally.specs.Tally.{state_in};
ghost use Rattle.memo.specs.Memory.{Empty, Remembering, Remembered, Keepable};
ghost use Rattle.side.specs.Branch.{branch_of};
ghost use Rattle.walk.specs.Branch.{Branching, BranchesOn, Branchable};
ghost use Rattle.walk.specs.Walk.{Walkable, Splittable, walked, walk_from, split_walk, table_walk, Searchable, Passable, counted, noted, under};
ghost use Rattle.walk.specs.Learning.{LearnOf};

use literal::{Literal, Variable};
use memo::Memory;
use moves::DeadEnd;
use notes::Notes;
use occurrences::Index;
use receipt::Outcome;
use tally::Tally;

// How a walk of the tree ends, and the splits that it makes.
#[derive(Clone, Copy)]
pub struct Walk {
    pub outcome: Outcome,
    pub count: u32,
}

impl Walk {
    const DEAD_END: Walk = Walk {
        outcome: Outcome::NoLayout,
        count: 0,
    };
}

// Where a walk stands: of how many variables, from which one on the next branch variable is looked for, the splits left, and the splits above.
#[derive(Clone, Copy)]
struct Level {
    variables: usize,
    from: usize,
    left: u32,
    depth: usize,
}

// The branch variable -----------------------------------------------------------------------------------------------

// Variable p is an open root that stands in a live clause.
fn branches_on(index: &Index, state: &Tally, p: usize) -> bool
    requires { Branching index.now state.now p }
    ensures { BranchesOn index.now state.now p result }
{
    if state.value_of(p) != 2 * (p as u16) {
        return false;
    }
    gather::stands_live(index, state, p as u16)
}

// The lowest open variable that stands in a live clause. None below `from` does.
fn branch_variable(index: &Index, state: &Tally, from: usize, n: usize) -> Option<Variable>
    requires { Branchable index.now state.now from n }
    ensures { branch_of result ≡ branch_variable (formula_of index.now) (state_in state.now) }
{
    for p in from..n + 1 {
        if branches_on(index, state, p) {
            return Some(Variable(p as u16));
        }
    }
    None
}

// The walk ----------------------------------------------------------------------------------------------------------

// The level below a split on p, with `left` splits left.
fn below(level: Level, p: Variable, left: u32) -> Level
    requires { level.depth ≤ max_variables }
    ensures { result ≡ under p.0 left level }
{
    Level {
        variables: level.variables,
        from: p.0 as usize + 1,
        left,
        depth: level.depth + 1,
    }
}

// "Settling hands over to the split": a dead end, a layout, or a split on the lowest open variable of a live clause. A split that is known to have no layout
// is counted without being walked.
#[cycle(settle_and_decide_split)]
fn settle_and_decide(
    index: &Index,
    state: &mut Tally,
    work: &mut Notes,
    memory: &mut Memory,
    begun: Result<(), DeadEnd>,
    level: Level,
    plan: &mut [u8],
    trail: &mut [i16],
) -> Walk
    requires walkable { Walkable index.now state.old work.old (is_err begun) level plan.old trail.old }
    requires remembering { Remembering level.variables (formula_of index.now) memory.old }
    ensures walks { walked result plan.new trail.new ≡ walk_from (is_err begun) level index.now state.old plan.old trail.old }
    ensures remembers { Remembered level.variables (formula_of index.now) memory.old memory.new }
{
    if begun.is_err() {
        return Walk::DEAD_END;
    }
    if engine::propagate(index, state, work).is_err() {
        return Walk::DEAD_END;
    }
    let Some(p) = branch_variable(index, state, level.from, level.variables) else {
        side::write_choice(plan, 0, level.variables, state);
        return Walk {
            outcome: Outcome::LaidOut,
            count: 0,
        };
    };
    let Some(known) = memory.remembered(state, p.0 as usize, level.variables) else {
        return split(index, state, work, memory, p, level, plan, trail);
    };
    if known <= level.left {
        return Walk {
            outcome: Outcome::NoLayout,
            count: known,
        };
    }
    Walk {
        outcome: Outcome::Stopped,
        count: level.left,
    }
}

// "try it left out, and only if that has no layout try it taken". The second side starts from the copy made before the first side runs.
#[cycle(settle_and_decide_split)]
fn split(
    index: &Index,
    state: &mut Tally,
    work: &mut Notes,
    memory: &mut Memory,
    p: Variable,
    level: Level,
    plan: &mut [u8],
    trail: &mut [i16],
) -> Walk
    requires splittable { Splittable index.now state.old p.0 level plan.old trail.old }
    requires remembering { Remembering level.variables (formula_of index.now) memory.old }
    ensures walks { walked result plan.new trail.new ≡ split_walk p.0 level index.now state.old plan.old trail.old }
    ensures remembers { Remembered level.variables (formula_of index.now) memory.old memory.new }
{
    if level.left == 0 {
        return Walk {
            outcome: Outcome::Stopped,
            count: 0,
        };
    }
    memory.count_split();
    let mut second = *state;
    let x = Literal::new(p, true);
    let out = side::begin(index, state, work, x.code());
    let lower = below(level, p, level.left - 1);
    let a = settle_and_decide(index, state, work, memory, out, lower, plan, trail);
    if a.outcome != Outcome::NoLayout {
        return through(a, 1, x.opposite(), level.depth, trail);
    }
    let used = 1 + a.count;
    let held = memory.hold(&second, p.0 as usize, level.variables, used);
    let taken = side::begin(index, &mut second, work, x.opposite().code());
    let rest = below(level, p, level.left - used);
    let b = settle_and_decide(index, &mut second, work, memory, taken, rest, plan, trail);
    learn(memory, held, level.variables, b, used);
    through(b, used, x, level.depth, trail)
}

// Where the second side has no layout either, the slot that is held for the split learns its splits.
fn learn(memory: &mut Memory, held: Option<usize>, n: usize, side: Walk, used: u32)
    requires keepable { Keepable n memory.old held }
    requires fits { Fits w32 (used + side.count) }
    ensures { LearnOf n (used + side.count) memory.old memory.new held side.outcome }
{
    if side.outcome == Outcome::NoLayout {
        memory.keep(held, n, used + side.count);
    }
}

// A walk of one side, as a walk of the split: its splits count on, and on the path to a layout the side is written at its depth.
fn through(side: Walk, splits: u32, x: Literal, depth: usize, trail: &mut [i16]) -> Walk
    requires { Passable side.count splits x depth trail.old }
    ensures { (result ≡ counted splits side) × (trail.new ≡ noted side.outcome depth x trail.old) }
{
    if side.outcome == Outcome::LaidOut {
        trail[depth] = x.entry();
    }
    Walk {
        outcome: side.outcome,
        count: splits + side.count,
    }
}

// The walk of a checked table from the initial state.
pub fn walk_table(
    table: &[i16],
    n: usize,
    allowance: u32,
    memory: &mut Memory,
    plan: &mut [u8],
    trail: &mut [i16],
) -> Walk
    requires searchable { Searchable n table.now plan.old trail.old }
    requires empty { Empty n memory.old }
    ensures { walked result plan.new trail.new ≡ table_walk n table.now allowance plan.old trail.old }
{
    let index = Index::build(table);
    let mut state = Tally::new();
    let mut work = Notes::new();
    let begun = start::start(&index, &mut state, &mut work);
    let level = Level {
        variables: n,
        from: 1,
        left: allowance,
        depth: 0,
    };
    settle_and_decide(
        &index, &mut state, &mut work, memory, begun, level, plan, trail,
    )
}
