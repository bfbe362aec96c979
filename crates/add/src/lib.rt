// Add: one group more at the end of the used part of a buffer.
#![tactic(auto)]

ghost use Rattle.std.specs.Prelude.{◌≡◌, ◌+◌, ◌^◌, ◌<◌, length};
ghost use Rattle.theory.specs.Calls.{unknown_in, added, check_group, check_added, add_call};
ghost use Rattle.add.specs.Add.{known, called};

use literal::{ClauseNumber, Literal};
use receipt::{Fault, Refusal};
use table::Pass;

// Whether an element of the list, by its size, is an entry of a placement from 1 to n. A zero isn't.
fn known(n: usize, size: u16) -> bool
    ensures { result ≡ known n size }
{
    0 < size && size as usize <= n
}

// The first element of the list that isn't known; the list's own first element is at place `at`, and `clause` is the number that it would have as a group.
fn unknown_in(at: usize, clause: ClauseNumber, n: usize, group: &[i16]) -> Result<(), Refusal>
    requires { at + length group.now < 2 ^ 64 }
    ensures { result ≡ unknown_in at clause.0 n group.now }
{
    for (i, &entry) in group.iter().enumerate() {
        if !known(n, literal::size(entry)) {
            return table::refused(Fault::UnknownVariable(clause), at + i);
        }
    }
    Ok(())
}

// "Add: 12, then 1 to 5 on the used part, 2 and 3 with the group added .., 5 on the list": all but the room.
#[tactic(auto, unfolding(theory::specs::Calls::check_group))]
fn check_group(buffer: &[i16], used: usize, n: usize, group: &[i16]) -> Result<(), Refusal>
    ensures { result ≡ check_group used n group.now buffer.now }
{
    table::at_most(used, buffer.len(), Fault::UsedLengthWrong)?;
    let pass = Pass::begin(n).after(&buffer[..used]);
    pass.verdict()?;
    let clauses = pass.clauses as usize + 1;
    table::at_most(clauses, Literal::MAX_CLAUSES, Fault::TooManyClauses)?;
    // No sum wraps: a slice of 16-bit numbers has fewer than 2^62 elements.
    let literals = pass.literals as usize + group.len();
    table::at_most(literals, Literal::MAX_LITERALS, Fault::TooManyLiterals)?;
    unknown_in(used, pass.clause_next(), n, group)
}

// All of Add's checks, 23 last, for a table that has room for `room` elements.
pub fn check_added(
    buffer: &[i16],
    used: usize,
    n: usize,
    group: &[i16],
    room: usize,
) -> Result<(), Refusal>
    ensures { result ≡ check_added used n group.now buffer.now room }
{
    check_group(buffer, used, n, group)?;
    table::at_most(used + group.len() + 1, room, Fault::TableShort)
}

// "The list and a closing 0 are stored at u".
pub fn store(buffer: &mut [i16], used: usize, group: &[i16])
    requires { used + length group.now < length buffer.old }
    ensures { buffer.new ≡ added used group.now buffer.old }
{
    let count = group.len();
    fill::copy(buffer, used, group, count);
    buffer[used + count] = 0;
}

// Every refusal is known before the first store, so a refused call changes nothing.
pub fn add(buffer: &mut [i16], used: usize, n: usize, group: &[i16]) -> Result<usize, Refusal>
    ensures { called result buffer.new ≡ add_call used n group.now buffer.old }
{
    let room = buffer.len();
    check_added(buffer, used, n, group, room)?;
    store(buffer, used, group);
    Ok(used + group.len() + 1)
}
