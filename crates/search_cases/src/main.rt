// Searches document 01's filings, and calls that are refused. Each line is the answer's number, place, count and group, and the first seven elements of plan
// and trail, all 9 before the call.
#![tactic(auto)]

use receipt::Receipt;

fn shown(receipt: Receipt, plan: &[u8], trail: &[i16]) {
    show::receipt(receipt);
    show::text(b" |");
    show::numbers(plan);
    if 0 < trail.len() {
        show::text(b" |");
        show::entries(trail);
    }
    show::text(b"\n");
}

fn try_one(table: &[i16], n: usize, allowance: u32) {
    let mut plan = [9u8; 7];
    let mut trail = [9i16; 7];
    let answer = search::search(table, n, allowance, &mut plan, &mut trail);
    shown(receipt::searching_receipt(answer), &plan, &trail);
}

fn filings() {
    let none = [0i16; 0];
    try_one(&none, 0, 100);
    try_one(&none, 2, 100);
    try_one(&[0i16], 1, 100);
    try_one(&[1i16, 0], 1, 100);
    try_one(&[1i16, 1, 0], 1, 100);
    try_one(&[1i16, -1, 0], 1, 100);
    try_one(&[1i16, 2, 0], 2, 100);
    try_one(&[-1i16, 2, 3, 0], 3, 100);
    try_one(&[1i16, 2, 3, 0, 1, 2, -3, 0], 3, 100);
    try_one(&[1i16, 2, 3, 0, -1, -2, 4, 0], 4, 100);
    try_one(&[1i16, 2, 3, 4, 0], 4, 100);
    try_one(&[1i16, 2, 3, 0, 1, 2, 4, 0, 1, 3, 4, 0], 4, 100);
    try_one(&[1i16, 2, 3, 0, 1, 2, 4, 0, 1, 3, 4, 0, 2, 3, 4, 0], 4, 100);
    try_one(&[1i16, 2, 3, 0, 4, 5, 6, 0], 6, 100);
}

fn stops() {
    try_one(&[1i16, 2, 3, 0, 1, 2, 4, 0, 1, 3, 4, 0, 2, 3, 4, 0], 4, 0);
    try_one(&[1i16, 2, 3, 4, 0], 4, 2);
    try_one(&[1i16, 2, 3, 4, 0], 4, 1);
    try_one(&[1i16, 2, 3, 4, 0], 4, 0);
    try_one(&[1i16, 2, 0], 2, 0);
}

fn refusals() {
    try_one(&[1i16, -3, 0], 2, 100);
    try_one(&[1i16, 2], 2, 100);
    try_one(&[1i16], 257, 100);
    try_one(&[1i16, 0], 8, 100);
}

// An unknown placement in the first group, in a middle one, in the last, in two, after groups with nothing in them, in an open group, and where the plan is
// short too.
fn unknowns() {
    try_one(&[3i16, 0, 1, 0, 2, 0], 2, 100);
    try_one(&[1i16, 0, 2, -3, 0, 1, 0], 2, 100);
    try_one(&[1i16, 0, 2, 0, 1, 3, 0], 2, 100);
    try_one(&[1i16, 0, -3, 0, 4, 0], 2, 100);
    try_one(&[0i16, 0, 9, 0], 1, 100);
    try_one(&[1i16, 0, 9], 1, 100);
    try_one(&[1i16, 0, 9, 0], 8, 100);
}

fn short_trail() {
    let mut plan = [9u8; 7];
    let mut trail = [9i16; 0];
    let answer = search::search(&[1i16, 0], 1, 100, &mut plan, &mut trail);
    shown(receipt::searching_receipt(answer), &plan, &trail);
}

fn main() {
    filings();
    stops();
    refusals();
    unknowns();
    short_trail();
}
