// The step of most rules and of splits: an open literal becomes false, and its class follows. Counts stay right, and clauses that want a look are noted.
#![tactic(auto)]

ghost use Rattle.std.specs.Prelude.{◌≡◌, ◌*◌, ◌/◌, ◌<◌, eqb, is_err};
ghost use Rattle.general.specs.Booleans.{bit};
ghost use Rattle.literal.specs.Literal.{max_clauses};
ghost use Rattle.occurrences.specs.Index.{clause_count};
ghost use Rattle.tally.specs.Tally.{count_in, with_count};
ghost use Rattle.tally.specs.Counts.{two_true};
ghost use Rattle.moves.specs.Sound.{Sound};
ghost use Rattle.moves.specs.Deciding.{Decidable, Decided, Cleared};
ghost use Rattle.decide.specs.Members.{gain_of, recount_of, is_noted, ended, Membering, Membered};
ghost use Rattle.decide.specs.Clearing.{Standing, Passed};

use moves::DeadEnd;
use notes::Notes;
use occurrences::Index;
use tally::Tally;

fn gain(occurrence: u16, to: u16) -> u16
    ensures { result ≡ gain_of occurrence to }
{
    if occurrence % 2 == to {
        tally::ONE_TRUE
    } else {
        0
    }
}

// One occurrence of a variable that became `to`; answers its clause's new count.
fn recount(state: &mut Tally, occurrence: u16, to: u16) -> u16
    requires occurrence_bound { occurrence < 2 * max_clauses }
    requires nonzero { 0 < count_in state.old (occurrence / 2) }
    requires occurrence_bound_2 { count_in state.old (occurrence / 2) < two_true }
    ensures value { result ≡ recount_of (count_in state.old (occurrence / 2)) occurrence to }
    ensures state_after { state.new ≡ with_count (occurrence / 2) result state.old }
{
    let g = (occurrence / 2) as usize;
    let count = state.count_of(g) + gain(occurrence, to) - 1;
    state.set_count(g, count);
    count
}

// Whether the clause is to be noted: two or fewer open literals are left, or one became true.
fn noted(count: u16, occurrence: u16, to: u16) -> bool
    ensures { result ≡ is_noted count occurrence to }
{
    count < 3 || occurrence % 2 == to
}

// The open variable p becomes `to`; answers how many clauses are to be looked at then. A clause is always written past the last note, and is one where the
// end moves on.
fn member(
    index: &Index,
    state: &mut Tally,
    work: &mut Notes,
    from: usize,
    p: usize,
    to: u16,
) -> Result<usize, DeadEnd>
    requires { Membering index.now state.old (ended from work.old) p to }
    ensures { Membered index.now state.old work.old from p to state.new work.new result }
{
    state.set_value(p, to);
    let mut end = from;
    for &occurrence in index.occurrences_of(p) {
        let count = recount(state, occurrence, to);
        if count == 0 || tally::TWO_TRUE <= count {
            return Err(DeadEnd);
        }
        work.todo[end] = occurrence / 2;
        end += noted(count, occurrence, to) as usize;
    }
    Ok(end)
}

// False for x itself, true for its opposite.
fn becomes(value: u16, x: u16) -> u16
    ensures { result ≡ bit (eqb value x) }
{
    if value == x { 1 } else { 0 }
}

// The open literal x becomes false, and its class follows.
pub fn decide(index: &Index, state: &mut Tally, work: &mut Notes, x: u16) -> Result<(), DeadEnd>
    requires { Decidable index.now state.old work.old x }
    ensures { Decided index.now state.old work.old x state.new work.new (is_err result) }
{
    let root = (x / 2) as usize;
    let mut end = work.todo_end;
    let mut p = root;
    loop {
        let to = becomes(state.value_of(p), x);
        end = member(index, state, work, end, p, to)?;
        p = state.link_of(p) as usize;
        if p == root {
            work.todo_end = end;
            return Ok(());
        }
    }
}

// The literal x as it stands becomes false where it is open and not of variable `kept`.
fn clear_one(
    index: &Index,
    state: &mut Tally,
    work: &mut Notes,
    x: u16,
    kept: u16,
) -> Result<(), DeadEnd>
    requires { Standing index.now state.old work.old x }
    ensures { Passed index.now state.old work.old x kept state.new work.new (is_err result) }
{
    if x < 2 || x / 2 == kept {
        return Ok(());
    }
    decide(index, state, work, x)
}

// Rules 2 and 5: every open literal of clause g but those of variable `kept` becomes false.
pub fn clear_others(
    index: &Index,
    state: &mut Tally,
    work: &mut Notes,
    g: usize,
    kept: u16,
) -> Result<(), DeadEnd>
    requires sound { Sound index.now state.old work.old }
    requires g_bound { g < clause_count index.now }
    ensures { Cleared index.now state.old work.old g kept state.new work.new (is_err result) }
{
    for &code in index.literals_of(g) {
        let x = state.value_of_code(code);
        clear_one(index, state, work, x, kept)?;
    }
    Ok(())
}
