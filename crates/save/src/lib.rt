// Save: a strip of a table, "placements, each group in table order, no chapter marks, the end".
// Each function but the last two appends to the bytes that stand before `at`, and answers where what it appended ends.
#![tactic(auto)]

ghost use Rattle.std.specs.Prelude.{◌≡◌, false, [], ◌∷◌, ◌++◌, ◌+◌, ◌≤◌, ◌<◌, length};
ghost use Rattle.general.specs.Appending.{Appended};
ghost use Rattle.literal.specs.Literal.{max_clauses, max_literals};
ghost use Rattle.theory.specs.Strip.{byte_of};
ghost use Rattle.theory.specs.Table.{ends_open};
ghost use Rattle.theory.specs.Encoding.{operand_of, entry_bytes, saved_strip, saved_length};
ghost use Rattle.theory.specs.Calls.{save_call};
ghost use Rattle.save.specs.Save.{opening_bytes, element_bytes, elements_bytes, called};

use literal::Literal;
use receipt::{Fault, Refusal};
use table::Pass;
use theory::Mark;

// The bytes that a saved strip takes: for the placements and the end, for each group and for each entry.
const FRAME: usize = 4;

const GROUP: usize = 2;

const ENTRY: usize = 3;

// The longest saved strip, of a table at the limits.
pub const MAX_SAVED: usize = FRAME + GROUP * Literal::MAX_CLAUSES + ENTRY * Literal::MAX_LITERALS;

fn put_byte(strip: &mut [u8], at: usize, byte: u8) -> usize
    requires { at < length strip.old }
    ensures { Appended strip.old at (byte ∷ []) strip.new result }
{
    strip[at] = byte;
    at + 1
}

fn put_mark(strip: &mut [u8], at: usize, mark: Mark) -> usize
    requires { at < length strip.old }
    ensures { Appended strip.old at (byte_of mark ∷ []) strip.new result }
{
    put_byte(strip, at, mark::byte(mark))
}

// A command with an operand of two bytes, "high byte first".
fn put_command(strip: &mut [u8], at: usize, mark: Mark, operand: u16) -> usize
    requires { at + 3 ≤ length strip.old }
    ensures { Appended strip.old at (byte_of mark ∷ operand_of 2 operand) strip.new result }
{
    let high = put_mark(strip, at, mark);
    let low = put_byte(strip, high, (operand / 256) as u8);
    put_byte(strip, low, (operand % 256) as u8)
}

fn put_entry(strip: &mut [u8], at: usize, literal: Literal) -> usize
    requires { at + 3 ≤ length strip.old }
    ensures { Appended strip.old at (entry_bytes (literal ∷ [])) strip.new result }
{
    match literal {
        Literal::Pos(p) => put_command(strip, at, Mark::Taken, p),
        Literal::Neg(p) => put_command(strip, at, Mark::LeftOut, p),
    }
}

// Before the first element of a group.
fn put_opening(strip: &mut [u8], at: usize, inside: bool) -> usize
    requires { at + length (opening_bytes inside) ≤ length strip.old }
    ensures { Appended strip.old at (opening_bytes inside) strip.new result }
{
    if inside {
        return at;
    }
    put_mark(strip, at, Mark::Opens)
}

// An element of the table: an entry, or the 0 that closes the group.
fn put_element(strip: &mut [u8], at: usize, inside: bool, literal: Literal) -> usize
    requires { at + length (opening_bytes inside ++ element_bytes literal) ≤ length strip.old }
    ensures { Appended strip.old at (opening_bytes inside ++ element_bytes literal) strip.new result }
{
    let opened = put_opening(strip, at, inside);
    if literal.is_open() {
        return put_entry(strip, opened, literal);
    }
    put_mark(strip, opened, Mark::Closes)
}

fn put_elements(strip: &mut [u8], at: usize, table: &[i16]) -> usize
    requires { at + length (elements_bytes false table.now) ≤ length strip.old }
    ensures { Appended strip.old at (elements_bytes false table.now) strip.new result }
{
    let mut next = at;
    let mut inside = false;
    for &entry in table {
        let literal = Literal::from(entry);
        next = put_element(strip, next, inside, literal);
        inside = literal.is_open();
    }
    next
}

// The whole strip; it answers its length.
fn put_strip(strip: &mut [u8], n: u16, table: &[i16]) -> usize
    requires table_value { ends_open false table.now ≡ false }
    requires table_in_bounds { length (saved_strip n table.now) ≤ length strip.old }
    ensures { Appended strip.old 0 (saved_strip n table.now) strip.new result }
{
    let placements = put_command(strip, 0, Mark::Placements, n);
    let groups = put_elements(strip, placements, table);
    put_mark(strip, groups, Mark::Ends)
}

fn saved_length(clauses: usize, literals: usize) -> usize
    requires clauses_le_max_clauses { clauses ≤ max_clauses }
    requires literals_le_max_literals { literals ≤ max_literals }
    ensures { result ≡ saved_length clauses literals }
{
    FRAME + GROUP * clauses + ENTRY * literals
}

// Every refusal is known before the first store, so a refused call changes nothing.
pub fn save(table: &[i16], n: usize, strip: &mut [u8]) -> Result<usize, Refusal>
    ensures { called result strip.new ≡ save_call n table.now strip.old }
{
    let pass = Pass::begin(n).after(table);
    pass.verdict()?;
    if !mentions::mentions_all(table, n) {
        return Err(Refusal::new(Fault::UnmentionedVariable, 0));
    }
    let length = saved_length(pass.clauses as usize, pass.literals as usize);
    table::at_most(length, strip.len(), Fault::StripShort)?;
    Ok(put_strip(strip, n as u16, table))
}
