// The window call, which crate platewright exports for C: it lends a strip, an allowance, a plan and a receipt.
#![tactic(auto)]

ghost use Rattle.std.specs.Prelude.{◌≡◌, ◌+◌, ◌≤◌, length};
ghost use Rattle.theory.specs.Calls.{over, receipt_length, receipt_bytes, window_call};
ghost use Rattle.theory.specs.Strip.{max_strip};
ghost use Rattle.window.specs.Window.{put4, called};

use literal::Literal;
use receipt::{Fault, Receipt};

// "The receipt becomes 16 bytes, with the group number last"
const RECEIPT_LENGTH: usize = 16;

// A number as four bytes, the high one first.
fn put_number(list: &mut [u8], at: usize, value: u32)
    requires { at + 4 ≤ length list.old }
    ensures { list.new ≡ put4 at value list.old }
{
    list[at] = (value / 16777216) as u8;
    list[at + 1] = (value / 65536 % 256) as u8;
    list[at + 2] = (value / 256 % 256) as u8;
    list[at + 3] = (value % 256) as u8;
}

fn write_receipt(list: &mut [u8], receipt: Receipt)
    requires receipt_length_in_bounds { receipt_length ≤ length list.old }
    requires place_le_max_strip { receipt.place ≤ max_strip }
    ensures { list.new ≡ over receipt_length (receipt_bytes receipt) list.old }
{
    put_number(list, 0, receipt.number);
    put_number(list, 4, receipt.place as u32);
    put_number(list, 8, receipt.count);
    put_number(list, 12, receipt.clause.0 as u32);
}

// The trail is the window's own: nobody sees it.
pub fn window(strip: &[u8], allowance: u32, plan: &mut [u8], receipt: &mut [u8]) -> u32
    ensures { called result plan.new receipt.new ≡ window_call strip.now allowance plan.old receipt.old }
{
    if receipt.len() < RECEIPT_LENGTH {
        return Fault::ReceiptShort.number();
    }
    let mut trail = [0i16; Literal::MAX_VARIABLES];
    let solved = solve::solve(strip, allowance, plan, &mut trail);
    let written = receipt::searching_receipt(solved.answer);
    write_receipt(receipt, written);
    written.number
}
