// Strips, command by command as a reader finds them: the letter, the operand and the place of each, then the end or the refusal, with its number, place, count and
// group.
#![tactic(auto)]

use receipt::{Fault, Refusal};
use theory::{Mark, Turn};

fn letter(mark: Mark) {
    match mark {
        Mark::Placements => show::text(b"P"),
        Mark::Chapter => show::text(b"C"),
        Mark::Opens => show::text(b"G"),
        Mark::Taken => show::text(b"T"),
        Mark::LeftOut => show::text(b"L"),
        Mark::Closes => show::text(b"E"),
        Mark::Ends => show::text(b"Z"),
    }
}

fn found(mark: Mark, operand: u16, place: usize) {
    letter(mark);
    show::number(operand as u64);
    show::text(b" at");
    show::number(place as u64);
    show::text(b"\n");
}

fn refused(why: Refusal) {
    show::text(b"refused ");
    show::receipt(why.receipt());
    show::text(b"\n\n");
}

// The turn that a command leaves.
fn turn_after(turn: Turn, mark: Mark) -> Turn {
    match mark {
        Mark::Placements => Turn::Outside,
        Mark::Chapter => turn,
        Mark::Opens => Turn::Inside,
        Mark::Taken => turn,
        Mark::LeftOut => turn,
        Mark::Closes => Turn::Outside,
        Mark::Ends => Turn::After,
    }
}

fn ended(turn: Turn, length: usize) {
    if turn == Turn::After {
        show::text(b"end\n\n");
    } else {
        refused(Refusal::new(Fault::CutStrip, length));
    }
}

fn walk(strip: &[u8]) {
    let mut turn = Turn::Start;
    let mut at: usize = 0;
    while at < strip.len() {
        match reader::command_from(strip, at, turn) {
            Err(why) => {
                refused(why);
                return;
            }
            Ok(command) => {
                found(command.mark, command.operand, at);
                turn = turn_after(turn, command.mark);
                at = command.next;
            }
        }
    }
    ended(turn, strip.len());
}

fn main() {
    // document 01's strip, whole and damaged: its end cut off, an operand cut, a byte doubled, a byte changed, a byte inserted after the end
    walk(b"\x50\x00\x03\x47\x54\x00\x01\x54\x00\x02\x54\x00\x03\x45\x5A");
    walk(b"\x50\x00\x03\x47\x54\x00\x01\x54\x00\x02\x54\x00\x03\x45");
    walk(b"\x50\x00\x03\x47\x54\x00");
    walk(b"\x50\x00\x03\x47\x47\x54\x00\x01\x54\x00\x02\x54\x00\x03\x45\x5A");
    walk(b"\x50\x00\x03\x47\x55\x00\x01\x54\x00\x02\x54\x00\x03\x45\x5A");
    walk(b"\x50\x00\x03\x47\x54\x00\x01\x54\x00\x02\x54\x00\x03\x45\x5A\x5A");
    // every mark, and operands of two bytes
    walk(b"\x50\x01\x00\x43\x07\x47\x54\x01\x00\x4C\x00\xFF\x45\x47\x45\x43\xFF\x5A");
    walk(b"");
}
