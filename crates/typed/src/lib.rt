// What strip_of writes for a text: the strip that Save makes of the filing typed in it, or one line that says what is wrong, and where.
#![tactic(auto)]

ghost use Rattle.std.specs.Prelude.{◌≡◌, ◌+◌, ◌≤◌, length, take};
ghost use Rattle.general.specs.Appending.{Appended};
ghost use Rattle.typed.specs.Typed.{place_text, output_of, called, output_call, length_of};

use scan::{Scanned, WrongWord};

const MAX_TEXT: usize = 32768;

// One byte past the longest text is enough to tell that a text is too long.
pub const INPUT: usize = MAX_TEXT + 1;

// Enough for the longest strip, and for every message.
pub const OUTPUT: usize = save::MAX_SAVED;

// The length of a message, which stands at the front of the bytes lent.
#[derive(Clone, Copy)]
pub struct Message {
    pub length: usize,
}

// One line: what is wrong, and where.
fn put_place(out: &mut [u8], what: &[u8], place: usize) -> Message
    requires { length what.now + 22 ≤ length out.old }
    ensures { Appended out.old 0 (place_text what.now place) out.new result.length }
{
    let word = text::put_bytes(out, 0, what);
    let number = text::put_number(out, word, place as u64);
    let length = text::put_bytes(out, number, b"\n");
    Message { length }
}

// The length of the strip, or a message.
pub fn strip_of(text: &[u8], out: &mut [u8; OUTPUT]) -> Result<usize, Message>
    ensures output { called result out.new ≡ output_call (output_of text.now) out.old }
    ensures length { length_of result ≤ length out.new }
{
    if MAX_TEXT < text.len() {
        return Err(put_place(out, b"text too long at byte", MAX_TEXT));
    }
    let mut cells = [0i16; MAX_TEXT];
    let Scanned { variables, used } = match scan::filing(text, &mut cells) {
        Ok(scanned) => scanned,
        Err(WrongWord { place }) => {
            return Err(put_place(out, b"no valid number at byte", place));
        }
    };
    match save::save(&cells[..used], variables, out) {
        Ok(length) => Ok(length),
        Err(refusal) => {
            let length = text::put_refusal(out, refusal);
            Err(Message { length })
        }
    }
}
