// Rules 7 and 8 for a clause and those that were gathered: where a rule fits, its step is made at once; what that lets meet is listed by the step.
#![tactic(auto)]

ghost use Rattle.std.specs.Prelude.{◌≡◌, cond, ◌/◌, ◌<◌, eqb, get_or, is_err};
ghost use Rattle.literal.specs.Literal.{codes};
ghost use Rattle.theory.specs.State.{standing};
ghost use Rattle.occurrences.specs.Index.{clause_of};
ghost use Rattle.tally.specs.Tally.{state_in};
ghost use Rattle.moves.specs.Sound.{Sound};
ghost use Rattle.meet.specs.Meeting.{Readable, Marked, MetBy, Meetable, MetWide};
ghost use Rattle.meet.specs.Places.{Comparing, FacedBy, Sharing, ClearOf, RowOf};

use literal::Literal;
use moves::DeadEnd;
use notes::Notes;
use occurrences::Index;
use tally::Tally;

// A mark for the constant that is none of its literals, so that false ones meet nothing.
const UNSEEN: u16 = 2;

// The literal of a clause at each of its variables.
type Marks = [u16; Literal::VARIABLES];

// How two clauses meet: by a common literal beside one that crosses, or by two that cross, of which the first has the lower variable.
#[derive(Clone, Copy)]
enum Met {
    Common(u16),
    Crossed(u16, u16),
}

// The literals of clause g, by variable.
#[tactic(auto, using(crate::proofs::Reading::reading_laws))]
fn mark_clause(index: &Index, state: &Tally, g: usize) -> Marks
    requires { Readable index.now state.now g }
    ensures { Marked (standing (state_in state.now) (clause_of index.now g)) result }
{
    let mut marks = [0u16; Literal::VARIABLES];
    for &code in index.literals_of(g) {
        let v = state.value_of_code(code);
        marks[(v / 2) as usize] = v;
    }
    marks[0] = UNSEEN;
    marks
}

fn mark_of(marks: &Marks, v: u16) -> u16
    requires { v < codes }
    ensures { result ≡ get_or marks.now (v / 2) 0 }
{
    marks[(v / 2) as usize]
}

fn choose(a: u16, b: u16, same: u16, other: u16) -> u16
    ensures { result ≡ cond (eqb a b) same other }
{
    if a == b { same } else { other }
}

// Rules 7 and 8 for the marked clause and clause h.
#[tactic(auto, using(crate::proofs::Reading::reading_laws))]
fn meet(index: &Index, state: &Tally, marks: &Marks, h: usize) -> Option<Met>
    requires readable { Readable index.now state.now h }
    requires marks_value { get_or marks.now 0 0 ≡ 2 }
    ensures { MetBy (standing (state_in state.now) (clause_of index.now h)) marks.now result }
{
    let mut common: u16 = 0;
    let mut crossing: u16 = 0;
    let mut again: u16 = 0;
    for &code in index.literals_of(h) {
        let v = state.value_of_code(code);
        let mark = mark_of(marks, v);
        let across = tally::opposite(v);
        common = choose(mark, v, v, common);
        again = choose(mark, across, crossing, again);
        crossing = choose(mark, across, v, crossing);
    }
    if crossing == 0 {
        return None;
    }
    if common != 0 {
        return Some(Met::Common(common));
    }
    if again == 0 {
        return None;
    }
    if crossing < again {
        return Some(Met::Crossed(crossing, again));
    }
    Some(Met::Crossed(again, crossing))
}

// The same where clause h may not be wide.
fn meet_wide(index: &Index, state: &Tally, marks: &Marks, h: usize) -> Option<Met>
    requires { Meetable index.now state.now marks.now h }
    ensures { MetWide (standing (state_in state.now) (clause_of index.now h)) marks.now result }
{
    if !gather::wide(state.count_of(h)) {
        return None;
    }
    meet(index, state, marks, h)
}

// The first of the clauses gathered from place `from` to `to` that rule 7 or 8 fits together with clause g, and how they meet.
fn first_met(
    index: &Index,
    state: &Tally,
    work: &Notes,
    g: usize,
    from: usize,
    to: usize,
) -> Option<(usize, Met)>
    requires comparing { Comparing index.now state.now work.now g from to }
    requires readable { Readable index.now state.now g }
    ensures { FacedBy index.now state.now work.now g from to result }
{
    let marks = mark_clause(index, state, g);
    for i in from..to {
        let h = work.gathered_at(i) as usize;
        if let Some(met) = meet_wide(index, state, &marks, h) {
            return Some((i, met));
        }
    }
    None
}

// Rule 7 for clauses g and h: every literal that they have in common becomes false. What crosses stays, so the marks of g serve all along.
#[tactic(auto, using(crate::proofs::Reading::reading_laws))]
fn clear_common(
    index: &Index,
    state: &mut Tally,
    work: &mut Notes,
    g: usize,
    h: usize,
) -> Result<(), DeadEnd>
    requires sound { Sound index.now state.old work.old }
    requires sharing { Sharing index.now state.old g h }
    ensures { ClearOf index.now state.old work.old state.new work.new (is_err result) }
{
    let marks = mark_clause(index, state, g);
    for &code in index.literals_of(h) {
        let v = state.value_of_code(code);
        if mark_of(&marks, v) == v {
            decide::decide(index, state, work, v)?;
        }
    }
    Ok(())
}

// Rules 7 and 8 for clause g and those gathered from place `from` to `to`. After a step the look goes on at the same one, which may still meet g: those before
// it don't, or are listed by the step.
pub fn meet_row(
    index: &Index,
    state: &mut Tally,
    work: &mut Notes,
    g: usize,
    from: usize,
    to: usize,
) -> Result<(), DeadEnd>
    requires { Comparing index.now state.old work.old g from to }
    ensures { RowOf index.now state.old work.old g from to state.new work.new (is_err result) }
{
    let mut at = from;
    while gather::wide(state.count_of(g)) {
        let Some((i, met)) = first_met(index, state, work, g, at, to) else {
            return Ok(());
        };
        at = i;
        match met {
            Met::Common(_) => {
                let h = work.gathered_at(i) as usize;
                clear_common(index, state, work, g, h)?
            }
            Met::Crossed(low, high) => tie::tie(index, state, work, low, high)?,
        }
    }
    Ok(())
}
