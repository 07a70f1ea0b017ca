// Fields and lines of the programs, as bytes in a lent buffer. Document 01, "The program readback".
// Each function lays its text into the buffer from `at` on and returns the place behind it; what the buffer has no room for is left out.
// Kept: `out` and `at` travel together (no heap): a line is written behind those that wait in the buffer, and a promise speaks of the whole
// buffer, before and after. A struct that holds the lent buffer needs a second clause in each function: that it is the same buffer still.
#![tactic(auto)]

ghost use Rattle.std.specs.Prelude.{◌≡◌, ℕ, List, flat_map, [], ◌∷◌, ◌++◌, ◌+◌, ◌%◌, ◌≤◌, ◌<◌, length, drop};
ghost use Rattle.octets.specs.Bytes.{Laid};
ghost use Rattle.report.specs.Text.{decimal, number_field, number_fields, hex_digit, hex_byte, hex_entry, hex_start, hex_field, entries_field};
ghost use Rattle.report.specs.Line.{head_line, answer, label_field, root_fields, page_fields, body_line, cut_line, end_line};

use itoa::Buffer;

pub fn put_byte(out: &mut [u8], at: usize, byte: u8) -> usize
    ensures { Laid out.old at (byte ∷ []) out.new result }
{
    octets::put(out, at, &[byte])
}

// A number's decimal digits.
#[tactic(auto, using(crate::proofs::Digits::decimal_same))]
pub fn decimal(out: &mut [u8], at: usize, n: u64) -> usize
    ensures { Laid out.old at (decimal n) out.new result }
{
    octets::put(out, at, Buffer::new().format(n).as_bytes())
}

// A space and a number.
#[tactic(auto, using(crate::proofs::Pieces::pieces), unfolding(crate::specs::Text::number_field))]
pub fn number_field(out: &mut [u8], at: usize, n: u64) -> usize
    ensures { Laid out.old at (number_field n) out.new result }
{
    let behind = put_byte(out, at, b' ');
    decimal(out, behind, n)
}

// Kept: with the library's `hex`, `put` below would be `let mut digits = [0u8; 2]; let _ = hex::encode_to_slice([self], &mut digits);`
// and `octets::put(out, at, &digits)`, which lets go of a refusal that can't come.
#[tactic(auto, unfolding(crate::specs::Text::hex_digit))]
fn hex_digit(n: u8) -> u8
    requires { n < 16 }
    ensures { result ≡ hex_digit n }
{
    if n < 10 { 48 + n } else { 87 + n }
}

// A value that stands as a text among others of its type, in a field of several.
trait Field: Copy {
    ghost text: { Self → List ℕ };

    fn put(self, out: &mut [u8], at: usize) -> usize
        ensures { Laid out.old at (text self) out.new result };
}

// A number, behind a space.
impl Field for u64 {
    ghost text = { number_field };

    fn put(self, out: &mut [u8], at: usize) -> usize {
        number_field(out, at, self)
    }
}

// A byte: two digits in hexadecimal.
impl Field for u8 {
    ghost text = { hex_byte };

    #[tactic(auto, using(crate::proofs::Pieces::pieces), unfolding(crate::specs::Text::hex_byte))]
    fn put(self, out: &mut [u8], at: usize) -> usize {
        let half = put_byte(out, at, hex_digit(self / 16));
        put_byte(out, half, hex_digit(self % 16))
    }
}

// An entry of a scratch: the high byte first.
impl Field for u16 {
    ghost text = { hex_entry };

    #[tactic(auto, using(crate::proofs::Pieces::pieces), unfolding(crate::specs::Text::hex_entry))]
    fn put(self, out: &mut [u8], at: usize) -> usize {
        let [high, low] = self.to_be_bytes();
        let half = high.put(out, at);
        low.put(out, half)
    }
}

// The texts of values, one behind the other.
fn put_each<T: Field>(out: &mut [u8], at: usize, values: &[T]) -> usize
    ensures { Laid out.old at (flat_map T.text values.now) out.new result }
{
    let mut behind = at;
    for &value in values {
        behind = value.put(out, behind);
    }
    behind
}

// Each number behind a space.
#[tactic(auto, unfolding(crate::specs::Text::number_fields))]
pub fn number_fields(out: &mut [u8], at: usize, numbers: &[u64]) -> usize
    ensures { Laid out.old at (number_fields numbers.now) out.new result }
{
    put_each(out, at, numbers)
}

// A space, `x` and the texts of values.
fn hexed<T: Field>(out: &mut [u8], at: usize, values: &[T]) -> usize
    ensures { Laid out.old at (hex_start ++ flat_map T.text values.now) out.new result }
{
    let behind = octets::put(out, at, b" x");
    put_each(out, behind, values)
}

// A space, `x` and the bytes in hexadecimal.
#[tactic(auto, unfolding(crate::specs::Text::hex_field))]
pub fn hex_field(out: &mut [u8], at: usize, bytes: &[u8]) -> usize
    ensures { Laid out.old at (hex_field bytes.now) out.new result }
{
    hexed(out, at, bytes)
}

// A space, `x` and four digits for each entry of a scratch.
#[tactic(auto, unfolding(crate::specs::Text::entries_field))]
pub fn entries_field(out: &mut [u8], at: usize, entries: &[u16]) -> usize
    ensures { Laid out.old at (entries_field entries.now) out.new result }
{
    hexed(out, at, entries)
}

pub fn head_line(out: &mut [u8], at: usize) -> usize
    ensures { Laid out.old at head_line out.new result }
{
    octets::put(out, at, b"readback 1\n")
}

#[tactic(auto, using(crate::proofs::Pieces::pieces), unfolding(crate::specs::Line::answer))]
fn answer(out: &mut [u8], at: usize, number: u64, class: u16, reason: u16) -> usize
    ensures { Laid out.old at (answer number class reason) out.new result }
{
    let behind = decimal(out, at, number);
    let classed = number_field(out, behind, u64::from(class));
    number_field(out, classed, u64::from(reason))
}

// A space and a root's label, `-` for an empty one.
pub fn label_field(out: &mut [u8], at: usize, label: &[u8]) -> usize
    ensures { Laid out.old at (label_field label.now) out.new result }
{
    if label.is_empty() {
        return octets::put(out, at, b" -");
    }
    let behind = put_byte(out, at, b' ');
    octets::put(out, behind, label)
}

#[tactic(auto, using(crate::proofs::Pieces::pieces), unfolding(crate::specs::Line::root_fields))]
fn root_fields(out: &mut [u8], at: usize, generation: u64, label: &[u8]) -> usize
    ensures { Laid out.old at (root_fields generation label.now) out.new result }
{
    let behind = number_field(out, at, generation);
    label_field(out, behind, label)
}

#[tactic(auto, using(crate::proofs::Pieces::pieces), unfolding(crate::specs::Line::page_fields))]
fn page_fields(out: &mut [u8], at: usize, level: u8, total: u64, count: u64) -> usize
    ensures { Laid out.old at (page_fields level total count) out.new result }
{
    let behind = number_field(out, at, u64::from(level));
    let totalled = number_field(out, behind, total);
    number_field(out, totalled, count)
}

// The line of a refusal: its class and reason alone.
#[tactic(auto, using(crate::proofs::Pieces::pieces), unfolding(crate::specs::Line::body_line))]
pub fn refused_line(out: &mut [u8], at: usize, number: u64, class: u16, reason: u16) -> usize
    ensures { Laid out.old at (body_line number class reason []) out.new result }
{
    let answered = answer(out, at, number, class, reason);
    put_byte(out, answered, b'\n')
}

// The line of a root: its generation and label only beside class 0.
// Kept: class and reason are the two numbers that a line prints, and the promise is of every two, here, in `answer`, `refused_line` and `page_line`; body, whose
// refusals are `refused_line`'s, needs 0 and 0 alone.
#[tactic(auto, using(crate::proofs::Pieces::pieces), unfolding(crate::specs::Line::body_line))]
pub fn root_line(
    out: &mut [u8],
    at: usize,
    number: u64,
    class: u16,
    reason: u16,
    generation: u64,
    label: &[u8],
) -> usize
    ensures { Laid out.old at (body_line number class reason (root_fields generation label.now)) out.new result }
{
    if class != 0 {
        return refused_line(out, at, number, class, reason);
    }
    let answered = answer(out, at, number, class, reason);
    let told = root_fields(out, answered, generation, label);
    put_byte(out, told, b'\n')
}

// The line of a page: its level, total and count only beside class 0.
#[tactic(auto, using(crate::proofs::Pieces::pieces), unfolding(crate::specs::Line::body_line))]
pub fn page_line(
    out: &mut [u8],
    at: usize,
    number: u64,
    class: u16,
    reason: u16,
    level: u8,
    total: u64,
    count: u64,
) -> usize
    ensures { Laid out.old at (body_line number class reason (page_fields level total count)) out.new result }
{
    if class != 0 {
        return refused_line(out, at, number, class, reason);
    }
    let answered = answer(out, at, number, class, reason);
    let told = page_fields(out, answered, level, total, count);
    put_byte(out, told, b'\n')
}

#[tactic(auto, using(crate::proofs::Pieces::pieces), unfolding(crate::specs::Line::cut_line))]
pub fn cut_line(out: &mut [u8], at: usize, number: u64) -> usize
    ensures { Laid out.old at (cut_line number) out.new result }
{
    let behind = decimal(out, at, number);
    octets::put(out, behind, b" cut\n")
}

pub fn end_line(out: &mut [u8], at: usize, count: u64) -> usize
    ensures { Laid out.old at (end_line count) out.new result }
{
    let behind = octets::put(out, at, b"end");
    let counted = number_field(out, behind, count);
    put_byte(out, counted, b'\n')
}
