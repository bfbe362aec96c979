// What strip_of writes for texts of each kind, a line for each: `strip` and its bytes as numbers, or the message.
#![tactic(auto)]

fn write(text: &[u8]) {
    let mut out = [0u8; typed::OUTPUT];
    match typed::strip_of(text, &mut out) {
        Ok(length) => {
            show::text(b"strip");
            show::numbers(&out[..length]);
            show::text(b"\n");
        }
        Err(message) => show::text(&out[..message.length]),
    }
}

fn filings() {
    write(b"0");
    write(b"3 1 2 3 0\n");
    write(b"2 1 -2 0");
    write(b"\t2\r\n1\x0b-2\x0c0 \n");
    write(b"0 -0");
    write(b"01 -001 000");
    write(b"3 1 -3 0 0 2 0");
    write(b"2 -1 -2 0");
}

// No number of placements, and words that are no numbers.
fn wrong() {
    write(b"");
    write(b"  \n");
    write(b"-1");
    write(b" -1 1 0");
    write(b"+1");
    write(b"32768");
    write(b"1 1.5 0");
    write(b"1 1:0 0");
    write(b"1 -");
    write(b"1 --1 0");
    write(b"1 32768 0");
    write(b"1 -32769 0");
    write(b"1 1 x");
    write(b"1\x001 0");
}

fn refused() {
    write(b"257");
    write(b"2 1 2");
    write(b"1 32767 0");
    write(b"1 -32768 0");
    write(b"2 1 0 2 -3 0");
    write(b"2 3 0 1 0");
    write(b"2 1 0 3 0 2 0");
    write(b"1 0 0 9 0");
    write(b"1 0 9");
}

// A placement that no group names.
fn unnamed() {
    write(b"2");
    write(b"1 -0");
    write(b"5 1 -5 0 0 2 0");
    write(b"2 1 1 0");
    write(b"256 256 0");
}

// 32,768 bytes, and one more.
fn lengths() {
    let mut all = [b' '; 32768];
    all[32767] = b'0';
    write(&all);
    all[32767] = b'x';
    write(&all);
    write(&[b'0'; 32768]);
    write(&[b'0'; 32769]);
}

fn main() {
    filings();
    wrong();
    refused();
    unnamed();
    lengths();
}
