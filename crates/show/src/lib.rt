// What the programs with stored output print: receipts and lists, as plain numbers.
#![tactic(auto)]

use receipt::Receipt;

pub fn text(bytes: &[u8]) {
    io::write_all(1, bytes);
}

// A number, after a space.
pub fn number(value: u64) {
    text(b" ");
    io::print_decimal(1, value);
}

// Number, place, count and group.
pub fn receipt(receipt: Receipt) {
    io::print_decimal(1, u64::from(receipt.number));
    number(receipt.place as u64);
    number(u64::from(receipt.count));
    number(u64::from(receipt.clause.0));
}

fn entry(e: i16) {
    text(b" ");
    if e < 0 {
        text(b"-");
    }
    io::print_decimal(1, u64::from(literal::size(e)));
}

pub fn entries(list: &[i16]) {
    for &e in list {
        entry(e);
    }
}

// Numbers of any size up to 64 bits.
pub fn numbers<T: Copy + Into<u64>>(list: &[T]) {
    for &x in list {
        number(x.into());
    }
}
