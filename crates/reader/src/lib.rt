// "A reader stands on the strip it was given, at one place; a command gives its mark and operand, or a refusal with its place."
#![tactic(auto)]

ghost use Rattle.std.specs.Prelude.{◌≡◌, ◌+◌, ◌*◌, ◌<◌, length};
ghost use Rattle.theory.specs.Strip.{turn_of, operand_at, command_of, command_at};

use receipt::{Fault, Refusal};
use theory::{Command, Mark, Turn};

// The command at a place ----------------------------------------------------------------------------------------------

// The turn that a command is allowed in.
fn turn_of(mark: Mark) -> Turn
    ensures { result ≡ turn_of mark }
{
    match mark {
        Mark::Placements => Turn::Start,
        Mark::Chapter => Turn::Outside,
        Mark::Opens => Turn::Outside,
        Mark::Taken => Turn::Inside,
        Mark::LeftOut => Turn::Inside,
        Mark::Closes => Turn::Inside,
        Mark::Ends => Turn::Outside,
    }
}

// "operands high byte first"
fn word(high: u8, low: u8) -> u16
    ensures { result ≡ high * 256 + low }
{
    high as u16 * 256 + low as u16
}

fn operand_at(strip: &[u8], at: usize, size: usize) -> u16
    requires { at + size < length strip.now }
    ensures { result ≡ operand_at strip.now at size }
{
    if size == 0 {
        return 0;
    }
    if size == 1 {
        return word(0, strip[at + 1]);
    }
    word(strip[at + 1], strip[at + 2])
}

// A mark at an index of the strip: "22, 21".
fn command_of(strip: &[u8], at: usize, turn: Turn, mark: Mark) -> Result<Command, Refusal>
    requires { at < length strip.now }
    ensures { result ≡ command_of strip.now at turn (Some mark) }
{
    if turn != turn_of(mark) {
        return Err(Refusal::new(Fault::OutOfTurn, at));
    }
    let size = mark::operand_bytes(mark);
    if strip.len() - at <= size {
        return Err(Refusal::new(Fault::CutStrip, at));
    }
    Ok(Command {
        mark,
        operand: operand_at(strip, at, size),
        next: at + 1 + size,
    })
}

// The command at an index of the strip: 20, where its byte is no mark.
#[tactic(auto, unfolding(theory::specs::Strip::command_at))]
fn command_at(strip: &[u8], at: usize, turn: Turn) -> Result<Command, Refusal>
    requires { at < length strip.now }
    ensures { result ≡ command_at strip.now at turn }
{
    match mark::of_byte(strip[at]) {
        Some(mark) => command_of(strip, at, turn, mark),
        None => Err(Refusal::new(Fault::UnknownMark, at)),
    }
}

// The reader ----------------------------------------------------------------------------------------------------------

// The methods are thin: the work is `command_at`'s, on the slice and the place.
#[derive(Clone, Copy)]
pub struct Reader<'a> {
    pub strip: &'a [u8],
    pub at: usize,
}

impl<'a> Reader<'a> {
    // A reader at the first byte.
    pub fn new(strip: &'a [u8]) -> Reader<'a>
        ensures { (result.strip ≡ strip.entry) × (result.at ≡ 0) }
    {
        Reader { strip, at: 0 }
    }

    // The reader at another place.
    pub fn moved(self, next: usize) -> Reader<'a>
        ensures { (result.strip ≡ self.entry.strip) × (result.at ≡ next) }
    {
        Reader {
            strip: self.strip,
            at: next,
        }
    }

    // The command at its place.
    pub fn command(self, turn: Turn) -> Result<Command, Refusal>
        requires { self.at < length self.strip.now }
        ensures { result ≡ command_at self.entry.strip.now self.entry.at turn }
    {
        command_at(self.strip, self.at, turn)
    }
}

// The same for a caller that has the slice and the place, and holds no reader.
pub fn command_from(strip: &[u8], at: usize, turn: Turn) -> Result<Command, Refusal>
    requires { at < length strip.now }
    ensures { result ≡ command_at strip.now at turn }
{
    Reader::new(strip).moved(at).command(turn)
}
