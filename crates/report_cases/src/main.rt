// What is printed for filings of document 01, for strips at the limits and for strips that are refused, one report after the other.
// In a strip P gives the placements, C is a chapter, G opens a group, T is taken, L left out, E closes the group, Z ends the strip.
#![tactic(auto)]

ghost use Rattle.std.specs.Prelude.{◌<◌, length};

fn show(strip: &[u8]) {
    let mut out = [0u8; report::PRINTED];
    let printed = report::report(strip, &mut out);
    io::write_all(1, &out[..printed]);
}

fn filings() {
    show(b"P\x00\x03GT\x00\x01T\x00\x02T\x00\x03EZ");
    show(b"P\x00\x00Z");
    show(b"P\x00\x02C\x01GT\x00\x01L\x00\x02EC\x02Z");
    show(b"P\x00\x01GT\x00\x01EGEZ");
    show(
        b"P\x00\x04GT\x00\x01T\x00\x02T\x00\x03EGT\x00\x01T\x00\x02T\x00\x04EGT\x00\x01T\x00\x03T\x00\x04EZ",
    );
    show(
        b"P\x00\x04GT\x00\x01T\x00\x02T\x00\x03EGT\x00\x01T\x00\x02T\x00\x04EGT\x00\x01T\x00\x03T\x00\x04EGT\x00\x02T\x00\x03T\x00\x04EZ",
    );
    show(b"P\x00\x06GT\x00\x01T\x00\x02T\x00\x03EGT\x00\x04T\x00\x05T\x00\x06EZ");
}

fn refusals() {
    show(b"P\x01\x01Z");
    show(b"P\x00\x02GT\x00\x03EZ");
    show(b"P\x00\x02GT\x00\x01L\x00\x00EZ");
    show(b"P\x00\x01A");
    show(b"");
    show(b"P\x00");
    show(b"P\x00\x01GT\x00\x01E");
    show(b"P\x00\x01GT\x00");
    show(b"GEZ");
    show(b"P\x00\x01P\x00\x01Z");
    show(b"P\x00\x01GZ");
    show(b"P\x00\x00Z\x00");
    show(b"P\x00\x00ZZ");
}

// An unknown placement in a later group: after chapters, after groups with nothing in them, and a 0; then another refusal there.
fn unknowns() {
    show(b"P\x00\x02C\x01GT\x00\x01EC\x02GT\x00\x02L\x00\x03EGEZ");
    show(b"P\x00\x01GEGEGT\x00\x09EZ");
    show(b"P\x00\x01GECGGL\x00\x00EZ");
    show(b"P\x00\x01GEGZ");
}

// A placement that no group names, with nothing after the end, and with a byte there.
fn unnamed() {
    show(b"P\x00\x01Z");
    show(b"P\x00\x01Z\x00");
    show(b"P\x00\x01ZZ");
    show(b"P\x00\x01GEZ");
    show(b"P\x00\x02GT\x00\x01EZ");
    show(b"P\x00\x02GT\x00\x01L\x00\x01EZ");
}

// The rest of the strip repeats a part.
fn repeat(strip: &mut [u8], from: usize, part: &[u8])
    requires { 0 < length part.now }
{
    let mut k = 0;
    for i in from..strip.len() {
        strip[i] = part[k];
        k = if k + 1 < part.len() { k + 1 } else { 0 };
    }
}

// A group leaves out placement 1, the next one placement 2, and so on up to 253.
fn number(strip: &mut [u8])
    requires { 1267 < length strip.old }
{
    for i in 0..253 {
        strip[5 * i + 6] = (i + 1) as u8;
    }
}

// 256 placements, each in a group; then the first group leaves out placement 2 as well.
fn placements() {
    let mut all = [0u8; 1280];
    all[0] = b'P';
    all[1] = 1;
    repeat(&mut all, 3, b"GL\x00\x00E");
    number(&mut all);
    repeat(&mut all, 1268, b"GT\x00\xfeT\x00\xffT\x01\x00EZ");
    show(&all);
    all[6] = 2;
    show(&all);
}

// 512 groups, with chapters between them, one more, and an unknown placement in the 512th.
fn groups() {
    let mut all = [0u8; 2052];
    all[0] = b'P';
    repeat(&mut all, 3, b"GEC\x01");
    all[2051] = b'Z';
    show(&all);
    all[2051] = b'G';
    show(&all);
    all[2048] = b'T';
    all[2049] = 0;
    show(&all);
}

// 2,048 entries, and one more.
fn entries() {
    let mut all = [0u8; 6152];
    all[0] = b'P';
    all[2] = 1;
    all[3] = b'G';
    repeat(&mut all, 4, b"T\x00\x01");
    all[6148] = b'E';
    all[6149] = b'C';
    all[6151] = b'Z';
    show(&all);
    all[6148] = b'T';
    all[6149] = 0;
    show(&all);
}

// 16,384 bytes, and one more.
fn lengths() {
    let mut all = [0u8; 16384];
    all[0] = b'P';
    repeat(&mut all, 3, b"C\x01");
    all[16383] = b'Z';
    show(&all);
    show(&[b'P'; 16385]);
}

fn main() {
    filings();
    refusals();
    unknowns();
    unnamed();
    placements();
    groups();
    entries();
    lengths();
}
