// Every operation, for C (include/platewright.h): each function calls its operation, and flattens the answer.
#![tactic(auto)]

ghost use Rattle.std.specs.Prelude.{map, ◌≡◌, ◌≤◌, min, length};
ghost use Rattle.std.proofs.lemmas.List.Edits.{sets};
ghost use Rattle.index.specs.Index.{heads_at};
ghost use Rattle.receipt.specs.Answers.{checked_receipt};
ghost use Rattle.table.specs.Pass.{begin, after, verdict};
ghost use Rattle.theory.specs.Calls.{settle_call, search_call, list_call, index_call, save_call, read_call, add_call, take_back_call, preview_call, window_call};
ghost use Rattle.theory.specs.Table.{check};
ghost use Rattle.window.specs.Window.{called};
ghost use Rattle.platewright.specs.Answer.{flat, plain, counted, settled, searched, listed, saved, read_in, added, taken_back};
ghost use Rattle.platewright.specs.Heads.{start_of, entries_of, paired, indexed};
ghost use Rattle.platewright.specs.Pass.{lent_pass, pass_of};

use literal::ClauseNumber;
use receipt::Receipt;
use table::Unknown;

// What every call answers: number, place, count and clause (group) of the receipt; n, the used length, the rows written and whether there is a layout more
// where the operation answers them, else 0 and false.
#[repr(C)]
#[derive(Clone, Copy)]
pub struct Answer {
    pub number: u32,
    pub count: u32,
    pub place: usize,
    pub n: usize,
    pub used: usize,
    pub rows: usize,
    pub clause: u32,
    pub more: bool,
}

fn flat(r: Receipt, n: usize, used: usize, rows: usize, more: bool) -> Answer
    ensures { result ≡ flat r n used rows more }
{
    Answer {
        number: r.number,
        count: r.count,
        place: r.place,
        n,
        used,
        rows,
        clause: r.clause.0 as u32,
        more,
    }
}

fn plain(r: Receipt) -> Answer
    ensures { result ≡ plain r }
{
    flat(r, 0, 0, 0, false)
}

fn counted(r: Receipt, used: usize) -> Answer
    ensures { result ≡ counted r used }
{
    flat(r, 0, used, 0, false)
}

#[unsafe(no_mangle)]
pub extern "C" fn platewright_check(table: &[i16], n: usize) -> Answer
    ensures { result ≡ plain (checked_receipt (check n table.now)) }
{
    plain(receipt::checked_receipt(table::check_table(table, n)))
}

#[unsafe(no_mangle)]
pub extern "C" fn platewright_settle(
    table: &[i16],
    n: usize,
    list: &mut [i16],
    reasons: &mut [u16],
) -> Answer
    ensures { (result, (list.new, reasons.new)) ≡ settled (settle_call n table.now list.old reasons.old) }
{
    plain(receipt::settling_receipt(settle::settle(table, n, list, reasons)))
}

#[unsafe(no_mangle)]
pub extern "C" fn platewright_search(
    table: &[i16],
    n: usize,
    allowance: u32,
    plan: &mut [u8],
    trail: &mut [i16],
) -> Answer
    ensures { (result, (plan.new, trail.new)) ≡ searched (search_call n table.now allowance plan.old trail.old) }
{
    let answer = search::search(table, n, allowance, plan, trail);
    plain(receipt::searching_receipt(answer))
}

#[unsafe(no_mangle)]
pub extern "C" fn platewright_list(
    table: &[i16],
    n: usize,
    k: usize,
    allowance: u32,
    rows: &mut [u8],
) -> Answer
    ensures { (result, rows.new) ≡ listed (list_call n table.now k allowance rows.old) }
{
    let answer = list::list(table, n, k, allowance, rows);
    flat(
        receipt::listing_receipt(answer),
        0,
        0,
        receipt::rows_written(answer),
        receipt::says_more(answer),
    )
}

#[unsafe(no_mangle)]
pub extern "C" fn platewright_save(table: &[i16], n: usize, strip: &mut [u8]) -> Answer
    ensures { (result, strip.new) ≡ saved (save_call n table.now strip.old) }
{
    plain(receipt::saving_receipt(save::save(table, n, strip)))
}

#[unsafe(no_mangle)]
pub extern "C" fn platewright_read(strip: &[u8], table: &mut [i16]) -> Answer
    ensures { (result, table.new) ≡ read_in (read_call strip.now table.old) }
{
    let answer = strip::read(strip, table);
    flat(
        receipt::reading_receipt(answer),
        receipt::read_variables(answer),
        receipt::read_length(answer),
        0,
        false,
    )
}

#[unsafe(no_mangle)]
pub extern "C" fn platewright_add(
    buffer: &mut [i16],
    used: usize,
    n: usize,
    group: &[i16],
) -> Answer
    ensures { (result, buffer.new) ≡ added (add_call used n group.now buffer.old) }
{
    let answer = add::add(buffer, used, n, group);
    counted(
        receipt::adding_receipt(answer),
        receipt::used_length(answer),
    )
}

#[unsafe(no_mangle)]
pub extern "C" fn platewright_take_back(buffer: &mut [i16], used: usize, n: usize) -> Answer
    ensures { (result, buffer.new) ≡ taken_back (take_back_call used n buffer.old) }
{
    let answer = take_back::take_back(buffer, used, n);
    counted(
        receipt::taking_back_receipt(answer),
        receipt::used_length(answer),
    )
}

#[unsafe(no_mangle)]
pub extern "C" fn platewright_preview(
    buffer: &[i16],
    used: usize,
    n: usize,
    group: &[i16],
    list: &mut [i16],
    reasons: &mut [u16],
) -> Answer
    ensures reasons_after { (result, (list.new, reasons.new)) ≡ settled (preview_call used n group.now buffer.now list.old reasons.old) }
    ensures buffer_value { buffer.exit.now ≡ buffer.entry.now }
{
    let answer = preview::preview(buffer, used, n, group, list, reasons);
    plain(receipt::settling_receipt(answer))
}

// The table check in parts -------------------------------------------------------------------------------------------

// A table::Pass as C keeps it between two parts: the first unknown variable is told by a bool, its place and its clause.
#[repr(C)]
#[derive(Clone, Copy)]
pub struct Pass {
    pub variables: usize,
    pub place: usize,
    pub clause: u16,
    pub clauses: u16,
    pub literals: u16,
    pub unclosed: bool,
    pub unknown: bool,
}

fn lent(p: table::Pass) -> Pass
    ensures { result ≡ lent_pass p }
{
    let unknown = p.unknown.unwrap_or(Unknown {
        place: 0,
        clause: ClauseNumber(0),
    });
    Pass {
        variables: p.variables,
        place: unknown.place,
        clause: unknown.clause.0,
        clauses: p.clauses,
        literals: p.literals,
        unclosed: p.unclosed,
        unknown: p.unknown.is_some(),
    }
}

fn given(p: Pass) -> table::Pass
    ensures { result ≡ pass_of p }
{
    let unknown = Unknown {
        place: p.place,
        clause: ClauseNumber(p.clause),
    };
    table::Pass {
        variables: p.variables,
        clauses: p.clauses,
        literals: p.literals,
        unclosed: p.unclosed,
        unknown: p.unknown.then_some(unknown),
    }
}

#[unsafe(no_mangle)]
pub extern "C" fn platewright_check_begin(n: usize) -> Pass
    ensures { result ≡ lent_pass (begin n) }
{
    lent(table::Pass::begin(n))
}

#[unsafe(no_mangle)]
pub extern "C" fn platewright_check_part(pass: Pass, part: &[i16]) -> Pass
    ensures { result ≡ lent_pass (after (pass_of pass) part.now) }
{
    lent(given(pass).after(part))
}

#[unsafe(no_mangle)]
pub extern "C" fn platewright_check_end(pass: Pass) -> Answer
    ensures { result ≡ plain (checked_receipt (verdict (pass_of pass))) }
{
    plain(receipt::checked_receipt(given(pass).verdict()))
}

#[unsafe(no_mangle)]
pub extern "C" fn platewright_window(
    strip: &[u8],
    allowance: u32,
    plan: &mut [u8],
    receipt: &mut [u8],
) -> u32
    ensures { called result plan.new receipt.new ≡ window_call strip.now allowance plan.old receipt.old }
{
    window::window(strip, allowance, plan, receipt)
}

// Index --------------------------------------------------------------------------------------------------------------

// So many heads from the first group on, the start of each in one list and its number of entries in another.
fn store_heads(table: &[i16], count: usize, starts: &mut [usize], entries: &mut [usize])
    requires count_in_bounds { count ≤ length starts.old }
    requires count_in_bounds_2 { count ≤ length entries.old }
    ensures starts { starts.new ≡ sets starts.old 0 (map start_of (heads_at count table.now 0)) }
    ensures entries { entries.new ≡ sets entries.old 0 (map entries_of (heads_at count table.now 0)) }
{
    let mut at = 0;
    // By index in both lists: of a zip of two lists that are written the proof doesn't learn what it leaves in them.
    for k in 0..count {
        let next = index::next_head(table, at);
        starts[k] = next.head.start;
        entries[k] = next.head.entries;
        at = next.next;
    }
}

// Head number i of the lent list is what stands at i in both lists.
#[unsafe(no_mangle)]
pub extern "C" fn platewright_index(
    table: &[i16],
    n: usize,
    starts: &mut [usize],
    entries: &mut [usize],
) -> Answer
    ensures { (result, (starts.new, entries.new)) ≡ indexed (index_call n table.now (paired starts.old entries.old)) starts.old entries.old }
{
    match index::due_of(table, n, starts.len().min(entries.len())) {
        Ok(count) => {
            store_heads(table, count, starts, entries);
            plain(receipt::indexing_receipt(Ok(())))
        }
        Err(refusal) => plain(refusal.receipt()),
    }
}
