// What the layout program prints for a strip, as bytes.
// Each function but the last appends to the bytes that stand before `at`, and answers where what it appended ends.
#![tactic(auto)]

ghost use Rattle.std.specs.Prelude.{◌≡◌, [], ◌+◌, ◌*◌, ◌≤◌, length};
ghost use Rattle.general.specs.Appending.{Appended};
ghost use Rattle.io.specs.Counts.{IsPrefixLen};
ghost use Rattle.theory.specs.Calls.{over};
ghost use Rattle.text.specs.Text.{line};
ghost use Rattle.report.specs.Report.{outcome_words, count_text, lists_text, ended_text, search_text, report_of};

use literal::Literal;
use receipt::{Outcome, Refusal, Searched};

// "allows 1,000,000 splits"
const ALLOWANCE: u32 = 1_000_000;

// One byte past the longest strip is enough to tell that a strip is too long.
pub const INPUT: usize = strip::MAX_STRIP + 1;

// Enough for every report: an element of the plan takes at most a space and three digits, one of the trail a space, a sign and five digits.
pub const PRINTED: usize = 4096;

fn put_outcome(out: &mut [u8], at: usize, outcome: Outcome) -> usize
    requires { at + 10 ≤ length out.old }
    ensures appended { Appended out.old at (line (outcome_words outcome) []) out.new result }
    ensures upper_bound { result ≤ at + 10 }
{
    match outcome {
        Outcome::LaidOut => text::put_bytes(out, at, b"laid out\n"),
        Outcome::NoLayout => text::put_bytes(out, at, b"no layout\n"),
        Outcome::Stopped => text::put_bytes(out, at, b"stopped\n"),
    }
}

fn put_count(out: &mut [u8], at: usize, count: u32) -> usize
    requires { at + 27 ≤ length out.old }
    ensures appended { Appended out.old at (count_text count) out.new result }
    ensures upper_bound { result ≤ at + 27 }
{
    let word = text::put_bytes(out, at, b"count");
    let number = text::put_number(out, word, u64::from(count));
    text::put_bytes(out, number, b"\n")
}

// The choice and the path, of a layout.
fn put_lists(out: &mut [u8], at: usize, plan: &[u8], trail: &[i16]) -> usize
    requires { at + 4 * length plan.now + 7 * length trail.now + 50 ≤ length out.old }
    ensures { Appended out.old at (lists_text plan.now trail.now) out.new result }
{
    let first = text::put_bytes(out, at, b"plan");
    let choice = text::put_words(out, first, plan);
    let second = text::put_bytes(out, choice, b"\ntrail");
    let path = text::put_words(out, second, trail);
    text::put_bytes(out, path, b"\n")
}

fn put_ended(out: &mut [u8], outcome: Outcome, count: u32, plan: &[u8], trail: &[i16]) -> usize
    requires { 4 * length plan.now + 7 * length trail.now + 100 ≤ length out.old }
    ensures { Appended out.old 0 (ended_text outcome count plan.now trail.now) out.new result }
{
    let word = put_outcome(out, 0, outcome);
    let splits = put_count(out, word, count);
    match outcome {
        Outcome::LaidOut => put_lists(out, splits, plan, trail),
        Outcome::NoLayout | Outcome::Stopped => splits,
    }
}

fn put_search(out: &mut [u8], found: Result<Searched, Refusal>, plan: &[u8], trail: &[i16]) -> usize
    requires { 4 * length plan.now + 7 * length trail.now + 100 ≤ length out.old }
    ensures { Appended out.old 0 (search_text found plan.now trail.now) out.new result }
{
    match found {
        Ok(searched) => put_ended(out, searched.outcome, searched.count, plan, trail),
        Err(refusal) => text::put_refusal(out, refusal),
    }
}

pub fn report(strip: &[u8], out: &mut [u8; PRINTED]) -> usize
    ensures text { out.new ≡ over result (report_of strip.now) out.old }
    ensures count { IsPrefixLen result out.new }
    ensures length { result ≡ length (report_of strip.now) }
{
    let mut plan = [0u8; Literal::MAX_VARIABLES];
    let mut trail = [0i16; Literal::MAX_VARIABLES];
    let solved = solve::solve(strip, ALLOWANCE, &mut plan, &mut trail);
    let n = solved.variables;
    put_search(out, solved.answer, &plan[..n], &trail[..n])
}
