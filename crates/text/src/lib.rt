// Numbers, lists of numbers and refusals as text, appended to a lent list of bytes.
// Each function appends to the bytes that stand before `at`, and answers where what it appended ends.
#![tactic(auto)]

ghost use Rattle.std.specs.Prelude.{List, [], ◌∷◌, map, ℕ, ◌+◌, ◌*◌, ◌≤◌, length};
ghost use Rattle.general.specs.Appending.{Appended};
ghost use Rattle.text.specs.Text.{decimal, signed, spaced, clause_words, refused_text};

use receipt::{Fault, Refusal};

pub fn put_bytes(out: &mut [u8], at: usize, bytes: &[u8]) -> usize
    requires { at + length bytes.now ≤ length out.old }
    ensures { Appended out.old at bytes.now out.new result }
{
    let end = at + bytes.len();
    out[at..end].copy_from_slice(bytes);
    end
}

fn put_digits(out: &mut [u8], at: usize, value: u64) -> usize
    requires { at + 20 ≤ length out.old }
    ensures appended { Appended out.old at (decimal value) out.new result }
    ensures upper_bound { result ≤ at + 20 }
{
    let mut text = [0u8; 20];
    let k = io::decimal(value, &mut text);
    put_bytes(out, at, &text[..k])
}

// A number, after a space.
pub fn put_number(out: &mut [u8], at: usize, value: u64) -> usize
    requires { at + 21 ≤ length out.old }
    ensures appended { Appended out.old at (spaced (decimal value ∷ [])) out.new result }
    ensures upper_bound { result ≤ at + 21 }
{
    let next = put_bytes(out, at, b" ");
    put_digits(out, next, value)
}

// A number that is printed as a word.
pub trait Word: Copy {
    ghost word: { Self → List ℕ };
    // The bytes that one takes at most, with the space before it.
    ghost most: { ℕ };
    // Those that are asked for to print one.
    ghost room: { ℕ };

    // After a space.
    fn put(self, out: &mut [u8], at: usize) -> usize
        requires { at + room ≤ length out.old }
        ensures appended { Appended out.old at (spaced (word self ∷ [])) out.new result }
        ensures upper_bound { result ≤ at + most };
}

// At most three digits.
impl Word for u8 {
    ghost word = { decimal };

    ghost most = { 4 };

    ghost room = { 21 };

    fn put(self, out: &mut [u8], at: usize) -> usize {
        put_number(out, at, u64::from(self))
    }
}

// An entry with its sign: at most five digits.
impl Word for i16 {
    ghost word = { signed };

    ghost most = { 7 };

    ghost room = { 22 };

    fn put(self, out: &mut [u8], at: usize) -> usize {
        let size = u64::from(literal::size(self));
        if self < 0 {
            let next = put_bytes(out, at, b" -");
            return put_digits(out, next, size);
        }
        put_number(out, at, size)
    }
}

// Each number of a list after a space.
pub fn put_words<T: Word>(out: &mut [u8], at: usize, numbers: &[T]) -> usize
    requires { at + T.most * length numbers.now + T.room ≤ length out.old }
    ensures appended { Appended out.old at (spaced (map T.word numbers.now)) out.new result }
    ensures upper_bound { result ≤ at + T.most * length numbers.now }
{
    let mut next = at;
    for &number in numbers {
        next = number.put(out, next);
    }
    next
}

// The group that a refusal names, after a space: "The layout program's refused line for 5 ends with the group number."
fn put_clause(out: &mut [u8], at: usize, fault: Fault) -> usize
    requires { at + 21 ≤ length out.old }
    ensures appended { Appended out.old at (spaced (clause_words fault)) out.new result }
    ensures upper_bound { result ≤ at + 21 }
{
    match fault {
        Fault::UnknownVariable(clause) => put_number(out, at, u64::from(clause.0)),
        _ => at,
    }
}

// The line of a refusal, at the front.
pub fn put_refusal(out: &mut [u8], refusal: Refusal) -> usize
    requires { 71 ≤ length out.old }
    ensures { Appended out.old 0 (refused_text refusal) out.new result }
{
    let Refusal { fault, place } = refusal;
    let number = u64::from(fault.number());
    let word = put_bytes(out, 0, b"refused");
    let first = put_number(out, word, number);
    let second = put_number(out, first, place as u64);
    let third = put_clause(out, second, fault);
    put_bytes(out, third, b"\n")
}
