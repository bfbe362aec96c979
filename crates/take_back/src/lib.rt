// Taking back: the last group of the used part of a buffer goes (document 02, A7).
#![tactic(auto)]

ghost use Rattle.std.specs.Prelude.{◌≡◌, false, ◌<◌, length};
ghost use Rattle.theory.specs.Calls.{take_back_call};
ghost use Rattle.theory.specs.Heads.{last_start};
ghost use Rattle.theory.specs.Table.{ends_open};
ghost use Rattle.take_back.specs.TakeBack.{called};

use receipt::{Fault, Refusal};

// Where the last group of a table begins: after the 0 before it, or with the table.
fn last_start(table: &[i16]) -> usize
    requires table_nonzero { 0 < length table.now }
    requires table_value { ends_open false table.now ≡ false }
    ensures { result ≡ last_start table.now }
{
    for i in (0..table.len() - 1).rev() {
        if literal::size(table[i]) == 0 {
            return i + 1;
        }
    }
    0
}

// Every refusal is known before the first element is cleared, so a refused call changes nothing.
#[tactic(auto, unfolding(theory::specs::Calls::take_back_call))]
pub fn take_back(buffer: &mut [i16], used: usize, n: usize) -> Result<usize, Refusal>
    ensures { called result buffer.new ≡ take_back_call used n buffer.old }
{
    table::at_most(used, buffer.len(), Fault::UsedLengthWrong)?;
    table::check_table(&buffer[..used], n)?;
    if used == 0 {
        return Err(Refusal::new(Fault::NoClause, 0));
    }
    let start = last_start(&buffer[..used]);
    fill::clear(buffer, start, used - start, 0);
    Ok(start)
}
