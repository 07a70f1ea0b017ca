// UTF-8 cases: a line for each with the bytes in hex, 1 or 0 for `is_utf8`, and 1 or 0 for `is_plain`. Then all strings of up to three bytes
// and borders of four, a line for each first byte: `length`, the strings' length, the first byte, how many are UTF-8, how many are plain, and
// the CRC-32C of the answers in the order of the strings, each a byte: 1 for UTF-8, and 2 for plain.
#![tactic(auto)]

use std::io;

fn print_case(rt: &HostRuntime, bytes: &[u8]) -> io::Result<()> {
    print!(rt; "x")?;
    for byte in bytes {
        print!(rt; "{byte:02x}")?;
    }
    let text = u8::from(utf8::is_utf8(bytes));
    let plain = u8::from(utf8::is_plain(bytes));
    println!(rt; " {text} {plain}")
}

// What to try. A row of RFC 3629, section 4, has the first sequence and the last, a byte just below and just above its range at each
// later place, and the last sequence cut short.
const CASES: [&[u8]; 124] = [
    // The empty text.
    b"",
    // UTF8-1 = %x00-7F.
    b"\x00",
    b"\x7F",
    // UTF8-2 = %xC2-DF UTF8-tail.
    b"\xC2\x80",
    b"\xDF\xBF",
    b"\xDF\x7F",
    b"\xC2\xC0",
    b"\xDF",
    // UTF8-3 = %xE0 %xA0-BF UTF8-tail.
    b"\xE0\xA0\x80",
    b"\xE0\xBF\xBF",
    b"\xE0\x9F\xBF",
    b"\xE0\xC0\x80",
    b"\xE0\xBF\x7F",
    b"\xE0\xA0\xC0",
    b"\xE0",
    b"\xE0\xBF",
    // UTF8-3 = %xE1-EC 2( UTF8-tail ).
    b"\xE1\x80\x80",
    b"\xEC\xBF\xBF",
    b"\xEC\x7F\xBF",
    b"\xE1\xC0\x80",
    b"\xEC\xBF\x7F",
    b"\xE1\x80\xC0",
    b"\xEC",
    b"\xEC\xBF",
    // UTF8-3 = %xED %x80-9F UTF8-tail.
    b"\xED\x80\x80",
    b"\xED\x9F\xBF",
    b"\xED\x7F\xBF",
    b"\xED\xA0\x80",
    b"\xED\x9F\x7F",
    b"\xED\x80\xC0",
    b"\xED",
    b"\xED\x9F",
    // UTF8-3 = %xEE-EF 2( UTF8-tail ).
    b"\xEE\x80\x80",
    b"\xEF\xBF\xBF",
    b"\xEF\x7F\xBF",
    b"\xEE\xC0\x80",
    b"\xEF\xBF\x7F",
    b"\xEE\x80\xC0",
    b"\xEF",
    b"\xEF\xBF",
    // UTF8-4 = %xF0 %x90-BF 2( UTF8-tail ).
    b"\xF0\x90\x80\x80",
    b"\xF0\xBF\xBF\xBF",
    b"\xF0\x8F\xBF\xBF",
    b"\xF0\xC0\x80\x80",
    b"\xF0\xBF\x7F\xBF",
    b"\xF0\x90\xC0\x80",
    b"\xF0\xBF\xBF\x7F",
    b"\xF0\x90\x80\xC0",
    b"\xF0",
    b"\xF0\xBF",
    b"\xF0\xBF\xBF",
    // UTF8-4 = %xF1-F3 3( UTF8-tail ).
    b"\xF1\x80\x80\x80",
    b"\xF3\xBF\xBF\xBF",
    b"\xF3\x7F\xBF\xBF",
    b"\xF1\xC0\x80\x80",
    b"\xF3\xBF\x7F\xBF",
    b"\xF1\x80\xC0\x80",
    b"\xF3\xBF\xBF\x7F",
    b"\xF1\x80\x80\xC0",
    b"\xF3",
    b"\xF3\xBF",
    b"\xF3\xBF\xBF",
    // UTF8-4 = %xF4 %x80-8F 2( UTF8-tail ).
    b"\xF4\x80\x80\x80",
    b"\xF4\x8F\xBF\xBF",
    b"\xF4\x7F\xBF\xBF",
    b"\xF4\x90\x80\x80",
    b"\xF4\x8F\x7F\xBF",
    b"\xF4\x80\xC0\x80",
    b"\xF4\x8F\xBF\x7F",
    b"\xF4\x80\x80\xC0",
    b"\xF4",
    b"\xF4\x8F",
    b"\xF4\x8F\xBF",
    // Leads that no row has.
    b"\x80",
    b"\xBF",
    b"\xC0\x80",
    b"\xC1\xBF",
    b"\xF5\x80\x80\x80",
    b"\xF8\x88\x80\x80\x80",
    b"\xFC\x84\x80\x80\x80\x80",
    b"\xFE",
    b"\xFF",
    // Surrogates, the numbers around them, overlong forms of `/`, the byte order mark.
    b"\xED\xBF\xBF",
    b"\xED\xA0\x80\xED\xB0\x80",
    b"\xC0\xAF",
    b"\xE0\x80\xAF",
    b"\xF0\x80\x80\xAF",
    b"\xEF\xBB\xBF",
    b"\xEF\xBF\xBE",
    // Characters that a label may or may not hold.
    b"\x1F",
    b"\x20",
    b"\x2E",
    b"\x2F",
    b"\x30",
    b"\x7E",
    b"\x7F",
    b"\xC2\x80",
    b"\xC2\x9F",
    b"\xC2\xA0",
    b"\xC3\x80",
    // Texts: eight bytes and more, a fault at the front, in the middle, at the end, and what stands behind a fault.
    b"\x2D",
    b"..",
    b"volume",
    b"12345678",
    b"123456789",
    b"1234567\xFF",
    b"\xFF2345678",
    b"12345678\x80",
    b"1234567\xC3\xA4",
    b"123456789012345\xE2\x82",
    b"Gr\xC3\xBC\xC3\x9Fe",
    b"\xE6\x97\xA5\xE6\x9C\xAC\xE8\xAA\x9E",
    b"a\xF0\x9F\x98\x80b",
    b"\xE2\x82\xAC\xE2\x82",
    b"\xE2\x82ab",
    b"a/b",
    b"12345678/",
    b"12345678\x1F",
    b"\xE6\x97\xA5/\xE6\x9C\xAC",
    b"\xC3\xA9\xC2\x85",
    b"/\xFF",
    b"\xFF/",
    b"\xC2/",
    b"\x00a\xFF",
];

// Each border of a range that a row has, from inside and from outside.
const BORDERS: [u8; 12] = [
    0x00, 0x7F, 0x80, 0x8F, 0x90, 0x9F, 0xA0, 0xBF, 0xC0, 0xED, 0xF4, 0xFF,
];

// What was answered so far: how many strings are UTF-8 and how many are plain, and the register of the checksum over the answers.
#[derive(Clone, Copy)]
struct Tally {
    texts: u32,
    plain: u32,
    register: u32,
}

impl Tally {
    const NONE: Tally = Tally {
        texts: 0,
        plain: 0,
        register: 0xFFFF_FFFF,
    };

    // The answers for one more string are counted.
    fn with(self, bytes: &[u8]) -> Tally {
        let text = utf8::is_utf8(bytes);
        let plain = utf8::is_plain(bytes);
        let answer = u8::from(text) + 2 * u8::from(plain);
        Tally {
            texts: self.texts.saturating_add(u32::from(text)),
            plain: self.plain.saturating_add(u32::from(plain)),
            register: crc::software_extend(self.register, &[answer]),
        }
    }

    fn print(self, rt: &HostRuntime, length: u8, first: u8) -> io::Result<()> {
        let word = !self.register;
        println!(rt;
            "length {length} x{first:02x} {} {} {word:08x}",
            self.texts, self.plain
        )
    }
}

// All strings of two bytes that begin with this one; and of three that begin with these two.
fn all_pairs(a: u8) -> Tally {
    (0..=255).fold(Tally::NONE, |t, b| t.with(&[a, b]))
}

fn all_triples(t: Tally, a: u8, b: u8) -> Tally {
    (0..=255).fold(t, |t, c| t.with(&[a, b, c]))
}

// The strings of four bytes that begin with these, the others being borders.
fn border_fours(t: Tally, a: u8, b: u8, c: u8) -> Tally {
    BORDERS.iter().fold(t, |t, d| t.with(&[a, b, c, *d]))
}

fn border_triples(t: Tally, a: u8, b: u8) -> Tally {
    BORDERS.iter().fold(t, |t, c| border_fours(t, a, b, *c))
}

fn print_all(rt: &HostRuntime, a: u8) -> io::Result<()> {
    let triples = (0..=255).fold(Tally::NONE, |t, b| all_triples(t, a, b));
    let fours = BORDERS
        .iter()
        .fold(Tally::NONE, |t, b| border_triples(t, a, *b));
    Tally::NONE.with(&[a]).print(rt, 1, a)?;
    all_pairs(a).print(rt, 2, a)?;
    triples.print(rt, 3, a)?;
    fours.print(rt, 4, a)
}

fn run(rt: &HostRuntime) -> io::Result<()> {
    for case in &CASES {
        print_case(rt, case)?;
    }
    for a in 0..=255 {
        print_all(rt, a)?;
    }
    Ok(())
}

fn main(rt: HostRuntime) {
    if let Err(e) = run(&rt) {
        let what = b"utf8_cases: writing standard output";
        let _ = stream::fail(&mut rt.stderr(), what, e);
    }
}
