// UTF-8 (RFC 3629, section 4), and the characters of a label.
#![tactic(auto)]

ghost use Rattle.std.specs.Prelude.{◌≡◌, ◌↔◌, IsTrue, ℕ, take, Some};
ghost use Rattle.utf8.specs.Rfc3629.{Utf8, number};
ghost use Rattle.utf8.specs.Plain.{HasCharacter, MayStand};
ghost use Rattle.utf8.specs.Inside.{◌from◌to◌, tail, utf8_1, utf8_2, utf8_3_e0, utf8_3_e1_ec, utf8_3_ed, utf8_3_ee_ef, utf8_4_f0, utf8_4_f1_f3, utf8_4_f4, char_len, utf8, allowed, plain};

// The form %xlo-hi: a byte from `lo` to `hi`.
// Kept: bytes are lent, here and in the alternatives: a later one is then read only where those before it fit, which is quicker.
fn is_from(b: &u8, lo: u8, hi: u8) -> bool
    ensures { result ≡ (b.now from lo to hi) }
{
    (lo..=hi).contains(b)
}

// UTF8-tail   = %x80-BF
fn is_tail(b: &u8) -> bool
    ensures { result ≡ tail b.now }
{
    is_from(b, 0x80, 0xBF)
}

// UTF8-1      = %x00-7F
fn utf8_1(a: &u8) -> bool
    ensures { result ≡ utf8_1 a.now }
{
    is_from(a, 0x00, 0x7F)
}

// UTF8-2      = %xC2-DF UTF8-tail
fn utf8_2(a: &u8, b: &u8) -> bool
    ensures { result ≡ utf8_2 a.now b.now }
{
    is_from(a, 0xC2, 0xDF) && is_tail(b)
}

// UTF8-3      = %xE0 %xA0-BF UTF8-tail /
fn utf8_3_e0(a: &u8, b: &u8, c: &u8) -> bool
    ensures { result ≡ utf8_3_e0 a.now b.now c.now }
{
    *a == 0xE0 && is_from(b, 0xA0, 0xBF) && is_tail(c)
}

//               %xE1-EC 2( UTF8-tail ) /
fn utf8_3_e1_ec(a: &u8, b: &u8, c: &u8) -> bool
    ensures { result ≡ utf8_3_e1_ec a.now b.now c.now }
{
    is_from(a, 0xE1, 0xEC) && is_tail(b) && is_tail(c)
}

//               %xED %x80-9F UTF8-tail /
fn utf8_3_ed(a: &u8, b: &u8, c: &u8) -> bool
    ensures { result ≡ utf8_3_ed a.now b.now c.now }
{
    *a == 0xED && is_from(b, 0x80, 0x9F) && is_tail(c)
}

//               %xEE-EF 2( UTF8-tail )
fn utf8_3_ee_ef(a: &u8, b: &u8, c: &u8) -> bool
    ensures { result ≡ utf8_3_ee_ef a.now b.now c.now }
{
    is_from(a, 0xEE, 0xEF) && is_tail(b) && is_tail(c)
}

// UTF8-4      = %xF0 %x90-BF 2( UTF8-tail ) /
fn utf8_4_f0(a: &u8, b: &u8, c: &u8, d: &u8) -> bool
    ensures { result ≡ utf8_4_f0 a.now b.now c.now d.now }
{
    *a == 0xF0 && is_from(b, 0x90, 0xBF) && is_tail(c) && is_tail(d)
}

//               %xF1-F3 3( UTF8-tail ) /
fn utf8_4_f1_f3(a: &u8, b: &u8, c: &u8, d: &u8) -> bool
    ensures { result ≡ utf8_4_f1_f3 a.now b.now c.now d.now }
{
    is_from(a, 0xF1, 0xF3) && is_tail(b) && is_tail(c) && is_tail(d)
}

//               %xF4 %x80-8F 2( UTF8-tail )
fn utf8_4_f4(a: &u8, b: &u8, c: &u8, d: &u8) -> bool
    ensures { result ≡ utf8_4_f4 a.now b.now c.now d.now }
{
    *a == 0xF4 && is_from(b, 0x80, 0x8F) && is_tail(c) && is_tail(d)
}

// UTF8-char   = UTF8-1 / UTF8-2 / UTF8-3 / UTF8-4
// How many bytes the character at the front has, a case for each printed alternative; none where none starts there.
// Kept: inlined by a hint: without it the loops below call it, which takes up to three times as long.
#[inline(always)]
fn char_len(s: &[u8]) -> Option<usize>
    ensures { result ≡ char_len s.now }
{
    match s {
        [a, ..] if utf8_1(a) => Some(1),
        [a, b, ..] if utf8_2(a, b) => Some(2),
        [a, b, c, ..] if utf8_3_e0(a, b, c) => Some(3),
        [a, b, c, ..] if utf8_3_e1_ec(a, b, c) => Some(3),
        [a, b, c, ..] if utf8_3_ed(a, b, c) => Some(3),
        [a, b, c, ..] if utf8_3_ee_ef(a, b, c) => Some(3),
        [a, b, c, d, ..] if utf8_4_f0(a, b, c, d) => Some(4),
        [a, b, c, d, ..] if utf8_4_f1_f3(a, b, c, d) => Some(4),
        [a, b, c, d, ..] if utf8_4_f4(a, b, c, d) => Some(4),
        _ => None,
    }
}

// What stands behind a front of characters of one byte. Most names are such text, and eight bytes a step pass it quickly.
fn behind_ascii(bytes: &[u8]) -> &[u8]
    ensures { utf8 bytes.now ≡ utf8 result.now }
{
    let mut rest = bytes;
    while let Some((eight, after)) = rest.split_first_chunk::<8>() {
        if !eight.is_ascii() {
            return rest;
        }
        rest = after;
    }
    rest
}

// UTF8-octets = *( UTF8-char )
// Whether the bytes are UTF-8: a sequence of the nine alternatives that RFC 3629 prints.
// Kept: not the library's `str::from_utf8`: the customer's second request has the rows that RFC 3629 prints ticked one by one in this code.
pub fn is_utf8(bytes: &[u8]) -> bool
    ensures grammar { IsTrue result ↔ Utf8 bytes.now }
    ensures test { result ≡ utf8 bytes.now }
{
    let mut rest = behind_ascii(bytes);
    while let Some(n) = char_len(rest) {
        rest = &rest[n..];
    }
    rest.is_empty()
}

// Whether the character at the front is allowed: its first two bytes tell. U+0080..U+009F are C2 80 to C2 9F.
fn is_front_allowed(s: &[u8]) -> bool
    ensures { (n : ℕ) → char_len s.now ≡ Some n → result ≡ allowed (number (take n s.now)) }
{
    let a = octets::byte_at(s, 0);
    let b = octets::byte_at(s, 1);
    (0x20 <= a) & (a != 0x2F) & (a != 0x7F) & !((a == 0xC2) & (b <= 0x9F))
}

// Whether each character, as far as the bytes are UTF-8, is one that a label may hold.
pub fn is_plain(bytes: &[u8]) -> bool
    ensures characters { IsTrue result ↔ ((p : ℕ) → HasCharacter p bytes.now → MayStand p) }
    ensures test { result ≡ plain bytes.now }
{
    let mut rest = bytes;
    while let Some(n) = char_len(rest) {
        if !is_front_allowed(rest) {
            return false;
        }
        rest = &rest[n..];
    }
    true
}
