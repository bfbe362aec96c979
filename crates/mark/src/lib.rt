// The marks of a strip, and how long their operands are. The bytes of the marks are known here alone: the reader reads them, and Save writes them.
#![tactic(auto)]

ghost use Rattle.std.specs.Prelude.{◌≡◌};
ghost use Rattle.theory.specs.Strip.{byte_of, mark_of, operand_bytes};

use theory::Mark;

const PLACEMENTS: u8 = 0x50;

const CHAPTER: u8 = 0x43;

const OPENS: u8 = 0x47;

const TAKEN: u8 = 0x54;

const LEFT_OUT: u8 = 0x4C;

const CLOSES: u8 = 0x45;

const ENDS: u8 = 0x5A;

pub fn byte(mark: Mark) -> u8
    ensures { result ≡ byte_of mark }
{
    match mark {
        Mark::Placements => PLACEMENTS,
        Mark::Chapter => CHAPTER,
        Mark::Opens => OPENS,
        Mark::Taken => TAKEN,
        Mark::LeftOut => LEFT_OUT,
        Mark::Closes => CLOSES,
        Mark::Ends => ENDS,
    }
}

// The mark of a byte, where it has one.
#[tactic(auto, unfolding(theory::specs::Strip::mark_of, general::specs::Search::find))]
pub fn of_byte(byte: u8) -> Option<Mark>
    ensures { result ≡ mark_of byte }
{
    match byte {
        PLACEMENTS => Some(Mark::Placements),
        CHAPTER => Some(Mark::Chapter),
        OPENS => Some(Mark::Opens),
        TAKEN => Some(Mark::Taken),
        LEFT_OUT => Some(Mark::LeftOut),
        CLOSES => Some(Mark::Closes),
        ENDS => Some(Mark::Ends),
        _ => None,
    }
}

// The number of bytes of a command's operand.
pub fn operand_bytes(mark: Mark) -> usize
    ensures { result ≡ operand_bytes mark }
{
    match mark {
        Mark::Placements => 2,
        Mark::Chapter => 1,
        Mark::Opens => 0,
        Mark::Taken => 2,
        Mark::LeftOut => 2,
        Mark::Closes => 0,
        Mark::Ends => 0,
    }
}
