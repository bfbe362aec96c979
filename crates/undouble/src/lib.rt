// Rules 4 and 5: a literal that stands twice in a wide clause becomes false; where a literal and its opposite stand, all others there do.
#![tactic(auto)]

ghost use Rattle.std.specs.Prelude.{◌≡◌, ◌+◌, ◌*◌, is_err};
ghost use Rattle.undouble.specs.Doubling.{stood, Signable, Doubling, Undoubled, DoublingAll, UndoubledAll, OpenRoot, DoublesOf};

use moves::DeadEnd;
use notes::Notes;
use occurrences::Index;
use tally::Tally;

// How often a variable stands in a clause, with each sign.
#[derive(Clone, Copy)]
struct BySign {
    plus: u16,
    minus: u16,
}

// How often variable r stands in clause g.
fn signs(index: &Index, state: &Tally, g: usize, r: u16) -> BySign
    requires { Signable index.now g r }
    ensures plus_value { result.plus ≡ stood index.now state.now g (2 * r) }
    ensures minus_value { result.minus ≡ stood index.now state.now g (2 * r + 1) }
{
    let mut plus = 0;
    let mut minus = 0;
    for &code in index.literals_of(g) {
        let v = state.value_of_code(code);
        plus += (v == 2 * r) as u16;
        minus += (v == 2 * r + 1) as u16;
    }
    BySign { plus, minus }
}

// Rules 4 and 5 for variable r in clause g: after it r stands at most once there, or the clause is not wide.
fn undouble(
    index: &Index,
    state: &mut Tally,
    work: &mut Notes,
    g: usize,
    r: u16,
) -> Result<(), DeadEnd>
    requires { Doubling index.now state.old work.old g r }
    ensures { Undoubled index.now state.old work.old g r state.new work.new (is_err result) }
{
    if !gather::wide(state.count_of(g)) {
        return Ok(());
    }
    let found = signs(index, state, g, r);
    if 1 < found.plus {
        return decide::decide(index, state, work, 2 * r);
    }
    if 1 < found.minus {
        return decide::decide(index, state, work, 2 * r + 1);
    }
    if found.plus + found.minus == 2 {
        return decide::clear_others(index, state, work, g, r);
    }
    Ok(())
}

// Rules 4 and 5 for variable r in the first n clauses that were gathered.
pub fn undoubles(
    index: &Index,
    state: &mut Tally,
    work: &mut Notes,
    n: usize,
    r: u16,
) -> Result<(), DeadEnd>
    requires { DoublingAll index.now state.old work.old n r }
    ensures { UndoubledAll index.now state.old work.old n r state.new work.new (is_err result) }
{
    for i in 0..n {
        let g = work.gathered_at(i) as usize;
        undouble(index, state, work, g, r)?;
    }
    Ok(())
}

// Rules 4 and 5 for the open root r in all clauses.
pub fn doubles_at(index: &Index, state: &mut Tally, work: &mut Notes, r: u16) -> Result<(), DeadEnd>
    requires { OpenRoot index.now state.old work.old r }
    ensures { DoublesOf index.now state.old work.old r state.new work.new (is_err result) }
{
    let n = gather::gather(index, state, work, r);
    undoubles(index, state, work, n, r)
}
