// How Rattle code calls each operation, on one small set: exactly one of placements 1, 2 and 3, and exactly one of 3 and 4.
// Every line ends with the receipt: number, place, count and group. None of the operations has a condition on what is lent to it.
#![tactic(auto)]

use literal::Literal;
use receipt::{Head, Receipt};
use table::Pass;

const N: usize = 4;

fn told(name: &[u8], receipt: Receipt) {
    show::text(name);
    show::receipt(receipt);
    show::text(b"\n");
}

// Check: whole, and in two parts, the second of which goes on where the first ended.
fn check_it(table: &[i16]) {
    let whole = table::check_table(table, N);
    told(b"check ", receipt::checked_receipt(whole));
    let parts = Pass::begin(N).after(&[1i16, 2, 3]).after(&[0i16, 3, 4, 0]);
    told(
        b"check in parts ",
        receipt::checked_receipt(parts.verdict()),
    );
}

fn search_it(table: &[i16]) {
    let mut plan = [0u8; N];
    let mut trail = [0i16; N];
    let answer = search::search(table, N, 1000000, &mut plan, &mut trail);
    show::text(b"plan");
    show::numbers(&plan);
    show::text(b" trail");
    show::entries(&trail);
    told(b" search ", receipt::searching_receipt(answer));
}

// Two rows of the three; `more` says that there is one more.
fn list_it(table: &[i16]) {
    let mut rows = [0u8; 2 * N];
    let answer = list::list(table, N, 2, 1000000, &mut rows);
    show::text(b"rows");
    show::numbers(&rows);
    if receipt::says_more(answer) {
        show::text(b" and more");
    }
    told(b" list ", receipt::listing_receipt(answer));
}

fn settle_it(table: &[i16]) {
    let mut list = [0i16; N];
    let mut reasons = [0u16; N];
    let answer = settle::settle(table, N, &mut list, &mut reasons);
    show::text(b"state");
    show::entries(&list);
    show::text(b" reasons");
    show::numbers(&reasons);
    told(b" settle ", receipt::settling_receipt(answer));
}

// Index of an array by value.
fn index_it(table: &[i16]) {
    let heads = [Head {
        start: 0,
        entries: 0,
    }; Literal::MAX_CLAUSES];
    let filled = index::index_array(table, N, heads, Literal::MAX_CLAUSES);
    let second = filled.heads[1];
    show::text(b"second group");
    show::number(second.start as u64);
    show::number(second.entries as u64);
    told(b" index ", receipt::indexing_receipt(filled.answer));
}

// A group is looked at before it is added, and taken back after.
fn edit_it(buffer: &mut [i16], used: usize) {
    let mut list = [0i16; N];
    let mut reasons = [0u16; N];
    let group = [-1i16, 4];
    let previewed = preview::preview(buffer, used, N, &group, &mut list, &mut reasons);
    told(b"preview ", receipt::settling_receipt(previewed));
    let added = add::add(buffer, used, N, &group);
    let longer = receipt::used_length(added);
    told(b"add ", receipt::adding_receipt(added));
    let taken = take_back::take_back(buffer, longer, N);
    told(b"take back ", receipt::taking_back_receipt(taken));
}

fn save_and_read(table: &[i16]) {
    let mut strip = [0u8; save::MAX_SAVED];
    let saved = save::save(table, N, &mut strip);
    told(b"save ", receipt::saving_receipt(saved));
    let mut back = [0i16; Literal::MAX_TABLE];
    let read = strip::read(&[0x50u8, 0, 1, 0x47, 0x54, 0, 1, 0x45, 0x5A], &mut back);
    show::text(b"placements");
    show::number(receipt::read_variables(read) as u64);
    show::text(b" used");
    show::number(receipt::read_length(read) as u64);
    told(b" read ", receipt::reading_receipt(read));
}

fn main() {
    let mut buffer = [1i16, 2, 3, 0, 3, 4, 0, 0, 0, 0];
    let table = [1i16, 2, 3, 0, 3, 4, 0];
    check_it(&table);
    search_it(&table);
    list_it(&table);
    settle_it(&table);
    index_it(&table);
    edit_it(&mut buffer, table.len());
    save_and_read(&table);
}
