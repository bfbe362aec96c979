// Reading a strip: its commands one by one, the numbers that they change, and the table that they write.
#![tactic(auto)]

ghost use Rattle.std.specs.Prelude.{◌≡◌, List, ◌≤◌, ℤ, length};
ghost use Rattle.literal.specs.Literal.{max_variables};
ghost use Rattle.theory.specs.Mentions.{mentions_all};
ghost use Rattle.theory.specs.Strip.{obeyed, entered, declared, opened, closed, ended, obey, ending, read_strip};
ghost use Rattle.theory.specs.Calls.{read_call};
ghost use Rattle.mentions.specs.Noted.{Noted};
ghost use Rattle.strip.specs.Decoding.{decoding_of, called};

use literal::{ClauseNumber, Literal, Variable};
use receipt::{Fault, Read, Refusal};
use theory::{Mark, Obeyed, Progress, Turn};

pub const MAX_STRIP: usize = 16384;

const NOTHING_READ: Progress = Progress {
    turn: Turn::Start,
    variables: 0,
    clauses: 0,
    literals: 0,
};

// What a command does -------------------------------------------------------------------------------------------------

fn obeyed(progress: Progress, stored: Option<i16>) -> Result<Obeyed, Fault>
    ensures { result ≡ obeyed progress stored }
{
    Ok(Obeyed { progress, stored })
}

// An entry: its value, then the limit. An unknown one is of the group that is open.
fn entered(progress: Progress, literal: Literal) -> Result<Obeyed, Fault>
    requires { progress.variables ≤ max_variables }
    ensures { result ≡ entered progress literal }
{
    let p = literal.variable().0;
    if p == 0 || progress.variables < p {
        return Err(Fault::UnknownVariable(ClauseNumber(progress.clauses)));
    }
    if Literal::MAX_LITERALS <= progress.literals as usize {
        return Err(Fault::TooManyLiterals);
    }
    let further = Progress {
        turn: Turn::Inside,
        literals: progress.literals + 1,
        ..progress
    };
    obeyed(further, Some(literal.entry()))
}

// The end mark: every placement must have been named.
fn ended(progress: Progress, mentioned: &[bool; Literal::VARIABLES]) -> Result<Obeyed, Fault>
    requires { progress.variables ≤ max_variables }
    ensures { (t : List ℤ) → Noted mentioned.now t → result ≡ ended progress (mentions_all progress.variables t) }
{
    if !mentions::all_noted(mentioned, progress.variables as usize) {
        return Err(Fault::UnmentionedVariable);
    }
    let after = Progress {
        turn: Turn::After,
        ..progress
    };
    obeyed(after, None)
}

// The number of placements.
fn declared(progress: Progress, n: u16) -> Result<Obeyed, Fault>
    ensures { result ≡ declared progress n }
{
    if Literal::MAX_VARIABLES < n as usize {
        return Err(Fault::TooManyVariables);
    }
    let outside = Progress {
        turn: Turn::Outside,
        variables: n,
        ..progress
    };
    obeyed(outside, None)
}

fn opened(progress: Progress) -> Result<Obeyed, Fault>
    ensures { result ≡ opened progress }
{
    if Literal::MAX_CLAUSES <= progress.clauses as usize {
        return Err(Fault::TooManyClauses);
    }
    let inside = Progress {
        turn: Turn::Inside,
        clauses: progress.clauses + 1,
        ..progress
    };
    obeyed(inside, None)
}

fn closed(progress: Progress) -> Result<Obeyed, Fault>
    ensures { result ≡ closed progress }
{
    let outside = Progress {
        turn: Turn::Outside,
        ..progress
    };
    obeyed(outside, Some(0))
}

// What a command with its operand does. A chapter does nothing.
#[tactic(auto, unfolding(theory::specs::Strip::obey))]
fn obey(
    progress: Progress,
    mentioned: &[bool; Literal::VARIABLES],
    operand: u16,
    mark: Mark,
) -> Result<Obeyed, Fault>
    requires { progress.variables ≤ max_variables }
    ensures { (t : List ℤ) → Noted mentioned.now t → result ≡ obey progress (mentions_all progress.variables t) operand mark }
{
    match mark {
        Mark::Placements => declared(progress, operand),
        Mark::Chapter => obeyed(progress, None),
        Mark::Opens => opened(progress),
        Mark::Taken => entered(progress, Literal::new(Variable(operand), true)),
        Mark::LeftOut => entered(progress, Literal::new(Variable(operand), false)),
        Mark::Closes => closed(progress),
        Mark::Ends => ended(progress, mentioned),
    }
}

// The whole strip -----------------------------------------------------------------------------------------------------

// The table that was read, in the first cells; those past the used length are free.
#[derive(Clone, Copy)]
pub struct Decoded {
    pub read: Read,
    pub cells: [i16; Literal::MAX_TABLE],
}

// The end of a strip of so many bytes: without 5A it is cut.
fn ending(length: usize, progress: Progress, used: usize) -> Result<Read, Refusal>
    ensures { result ≡ ending length progress used }
{
    if progress.turn != Turn::After {
        return Err(Refusal::new(Fault::CutStrip, length));
    }
    Ok(Read {
        variables: progress.variables as usize,
        used,
    })
}

// Command by command, with room for so many elements.
pub fn decode(strip: &[u8], room: usize) -> Result<Decoded, Refusal>
    ensures { decoding_of result ≡ read_strip strip.now room }
{
    if MAX_STRIP < strip.len() {
        return Err(Refusal::new(Fault::StripTooLong, 0));
    }
    let mut cells = [0i16; Literal::MAX_TABLE];
    let mut mentioned = [false; Literal::VARIABLES];
    let mut used: usize = 0;
    let mut progress = NOTHING_READ;
    let mut at: usize = 0;
    while at < strip.len() {
        let place = at;
        let command = reader::command_from(strip, place, progress.turn)?;
        let done = match obey(progress, &mentioned, command.operand, command.mark) {
            Ok(done) => done,
            Err(fault) => return Err(Refusal::new(fault, place)),
        };
        progress = done.progress;
        at = command.next;
        let Some(element) = done.stored else {
            continue;
        };
        if room <= used {
            return Err(Refusal::new(Fault::TableShort, place));
        }
        cells[used] = element;
        used += 1;
        mentions::note(&mut mentioned, literal::size(element));
    }
    let read = ending(strip.len(), progress, used)?;
    Ok(Decoded { read, cells })
}

// A strip into a table. A refused strip has no element that could be written.
pub fn read(strip: &[u8], table: &mut [i16]) -> Result<Read, Refusal>
    ensures { called result table.new ≡ read_call strip.now table.old }
{
    let decoded = decode(strip, table.len())?;
    fill::copy(table, 0, &decoded.cells, decoded.read.used);
    Ok(decoded.read)
}
