// Preview: what Settle would say if a group were added (document 02, A7).
#![tactic(auto)]

ghost use Rattle.std.specs.Prelude.{◌≡◌};
ghost use Rattle.settle.specs.Settle.{called};
ghost use Rattle.theory.specs.Calls.{preview_call};

use literal::Literal;
use receipt::{Refusal, Settling};

// What is settled is a copy with the group added. It has as many elements as the longest table, so no group that passes the other checks is short of room.
pub fn preview(
    buffer: &[i16],
    used: usize,
    n: usize,
    group: &[i16],
    list: &mut [i16],
    reasons: &mut [u16],
) -> Result<Settling, Refusal>
    ensures reasons_after { called result list.new reasons.new ≡ preview_call used n group.now buffer.now list.old reasons.old }
    ensures buffer_value { buffer.exit.now ≡ buffer.entry.now }
{
    add::check_added(buffer, used, n, group, Literal::MAX_TABLE)?;
    let mut table = [0i16; Literal::MAX_TABLE];
    fill::copy(&mut table, 0, buffer, used);
    add::store(&mut table, used, group);
    settle::settle_accepted(&table[..used + group.len() + 1], n, list, reasons)
}
