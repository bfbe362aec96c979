// A filing typed in decimal: the number of placements, then the table's numbers, each a word between blanks.
#![tactic(auto)]

ghost use Rattle.std.specs.Prelude.{◌≡◌, ◌+◌, ◌≤◌, ◌<◌, pos, neg_ℤ, length, drop, IfOk};
ghost use Rattle.scan.specs.Scan.{is_blank, is_digit, natural, most_negative, integer_of, leading, word_of, word_at, table_at, filing_of};
ghost use Rattle.scan.specs.Answers.{blank_is, scanned_of};

// The sizes of the largest and of the smallest number of 16 bits.
const MOST: u32 = 32767;

const MOST_NEGATIVE: u32 = 32768;

// Words ---------------------------------------------------------------------------------------------------------------

// A word's number, and the index after the word.
#[derive(Clone, Copy)]
struct Word {
    number: i16,
    end: usize,
}

// The place of a word that is no number, or of one that is missing.
#[derive(Clone, Copy)]
pub struct WrongWord {
    pub place: usize,
}

// Space, tab, line feed, vertical tab, form feed, carriage return.
fn is_blank(byte: u8) -> bool
    ensures { result ≡ is_blank byte }
{
    matches!(byte, b' ' | b'\t'..=b'\r')
}

fn is_digit(byte: u8) -> bool
    ensures { result ≡ is_digit byte }
{
    matches!(byte, b'0'..=b'9')
}

// The value of one or more digits, if it is within the limit.
fn value_of(word: &[u8], limit: u32) -> Option<u32>
    requires { limit ≤ most_negative }
    ensures { result ≡ natural limit word.now }
{
    if word.is_empty() {
        return None;
    }
    let mut value = 0;
    for &byte in word {
        if !is_digit(byte) {
            return None;
        }
        value = value * 10 + u32::from(byte - b'0');
        if limit < value {
            return None;
        }
    }
    Some(value)
}

// The opposite of a value, -32768 too.
fn negated(value: u32) -> i16
    requires { value ≤ most_negative }
    ensures { result ≡ neg_ℤ (pos value) }
{
    (-(value as i32)) as i16
}

// The word that stands from one index to another.
fn word_of(word: &[u8], start: usize, end: usize) -> Result<Word, WrongWord>
    ensures { result ≡ word_of start end (integer_of word.now) }
{
    let wrong = WrongWord { place: start };
    let number = match word.strip_prefix(b"-") {
        Some(digits) => negated(value_of(digits, MOST_NEGATIVE).ok_or(wrong)?),
        None => value_of(word, MOST).ok_or(wrong)? as i16,
    };
    Ok(Word { number, end })
}

// From `at` on passes over blanks, or over what is none, and answers the index where that ends.
fn skip(text: &[u8], at: usize, blanks: bool) -> usize
    ensures { result ≡ at + leading (blank_is blanks) (drop at text.now) }
{
    let rest = text.get(at..).unwrap_or(&[]);
    at + rest
        .iter()
        .take_while(|&&byte| is_blank(byte) == blanks)
        .count()
}

// The first word from an index on, if there is one.
fn word_at(text: &[u8], at: usize) -> Result<Option<Word>, WrongWord>
    ensures { result ≡ word_at text.now at }
{
    let start = skip(text, at, true);
    let end = skip(text, start, false);
    if start == end {
        return Ok(None);
    }
    Ok(Some(word_of(&text[start..end], start, end)?))
}

// The filing ----------------------------------------------------------------------------------------------------------

// The number of placements, and the length of the table.
#[derive(Clone, Copy)]
pub struct Scanned {
    pub variables: usize,
    pub used: usize,
}

// The table's numbers, from an index on.
fn table(
    text: &[u8],
    from: usize,
    variables: usize,
    cells: &mut [i16],
) -> Result<Scanned, WrongWord>
    requires { length text.now ≤ length cells.old }
    ensures cells_after { scanned_of result cells.new ≡ table_at text.now variables from }
    ensures result_in_bounds { IfOk result (λ s. s.used ≤ length cells.new) }
{
    let mut at = from;
    let mut used = 0;
    while let Some(word) = word_at(text, at)? {
        cells[used] = word.number;
        used += 1;
        at = word.end;
    }
    Ok(Scanned { variables, used })
}

// A text as a filing, with its table in the first cells. A number takes a byte, so there are cells enough.
pub fn filing(text: &[u8], cells: &mut [i16]) -> Result<Scanned, WrongWord>
    requires { length text.now ≤ length cells.old }
    ensures filing { scanned_of result cells.new ≡ filing_of text.now }
    ensures cells { IfOk result (λ s. s.used ≤ length cells.new) }
{
    let Some(first) = word_at(text, 0)? else {
        return Err(WrongWord { place: text.len() });
    };
    let Ok(variables) = usize::try_from(first.number) else {
        return Err(WrongWord {
            place: skip(text, 0, true),
        });
    };
    table(text, first.end, variables, cells)
}
