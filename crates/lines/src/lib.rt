// The line of a call of probe, from the call's bytes on, laid into a lent buffer.
// Each function that is lent `out` lays its text into the buffer from `at` on and returns the place behind it; what the buffer has no room for is left out.
// Kept: `out` and `at` travel together, as in report, which lays the texts: of a struct that holds the lent buffer each function would need a second clause, that it is the same buffer still.
#![tactic(auto)]

ghost use Rattle.std.specs.Prelude.{◌≡◌, [], ◌∷◌, ◌++◌, replicate};
ghost use Rattle.error.specs.Answer.{class_of, reason_of};
ghost use Rattle.octets.specs.Bytes.{Laid};
ghost use Rattle.group.specs.Group.{expand_group};
ghost use Rattle.root.specs.Label.{label_new};
ghost use Rattle.root.specs.Root.{root_decode};
ghost use Rattle.report.specs.Text.{number_fields, hex_field};
ghost use Rattle.lines.specs.Line.{string_of, behind_string, strings_in, label_told, named_told, root_told, lent, floor_told, handed_told, call_told, call_line};
ghost use Rattle.calls.specs.Told.{at_most};

use calls::{Fields, Numbers, lookups};
use error::Error;
use root::{Label, Root};

// The string whose length stands at the front.
pub fn string(rest: &[u8]) -> &[u8]
    ensures { result.now ≡ string_of rest.now }
{
    octets::span(rest, 4, 4 + octets::u32_at(rest, 0) as usize)
}

// What stands behind it.
pub fn behind_string(rest: &[u8]) -> &[u8]
    ensures { result.now ≡ behind_string rest.now }
{
    octets::tail(rest, 4 + octets::u32_at(rest, 0) as usize)
}

fn strings(input: &[u8]) -> &[u8]
    ensures { result.now ≡ strings_in input.now }
{
    octets::tail(input, shape::strings_at(octets::byte_at(input, 0)))
}

fn fields(out: &mut [u8], at: usize, told: Fields) -> usize
    ensures { Laid out.old at (number_fields told) out.new result }
{
    report::number_fields(out, at, told.numbers())
}

// Call 32.
fn expanded(value: &[u8], out: &mut [u8], at: usize) -> usize
    ensures { Laid out.old at (hex_field (expand_group value.now)) out.new result }
{
    let group = group::expand_group(value);
    report::hex_field(out, at, &group)
}

// A label that was made: its length, and all its bytes.
#[tactic(auto, using(report::proofs::Pieces::pieces))]
fn made(label: &Label, out: &mut [u8], at: usize) -> usize
    ensures { Laid out.old at (number_fields (0 ∷ 0 ∷ label.now.len ∷ []) ++ hex_field label.now.bytes) out.new result }
{
    let told = report::number_fields(out, at, &[0, 0, u64::from(label.len)]);
    report::hex_field(out, told, &label.bytes)
}

// The same of a refusal: class, reason, no length and no bytes.
#[tactic(auto, using(report::proofs::Pieces::pieces))]
fn unmade(e: Error, out: &mut [u8], at: usize) -> usize
    ensures { Laid out.old at (number_fields (class_of e ∷ reason_of e ∷ 0 ∷ []) ++ hex_field []) out.new result }
{
    let told = report::number_fields(out, at, &carryfs::refused::<3>(e));
    report::hex_field(out, told, b"")
}

// Call 33.
fn label(given: &[u8], out: &mut [u8], at: usize) -> usize
    ensures { Laid out.old at (label_told (label_new given.now)) out.new result }
{
    match Label::new(given) {
        Ok(label) => made(&label, out, at),
        Err(e) => unmade(e, out, at),
    }
}

// Two texts in hexadecimal.
#[tactic(auto, using(report::proofs::Pieces::pieces))]
fn pair(first: &[u8], second: &[u8], out: &mut [u8], at: usize) -> usize
    ensures { Laid out.old at (hex_field first.now ++ hex_field second.now) out.new result }
{
    let behind = report::hex_field(out, at, first);
    report::hex_field(out, behind, second)
}

// A root's UUID, then its label's bytes; beside a refusal none of either.
#[tactic(auto, unfolding(crate::specs::Line::named_told))]
fn named(d: Result<Root, Error>, out: &mut [u8], at: usize) -> usize
    ensures { Laid out.old at (named_told d) out.new result }
{
    match d {
        Ok(root) => pair(&root.uuid, &carryfs::label_bytes(root.label), out, at),
        Err(_) => pair(b"", b"", out, at),
    }
}

// Call 34.
#[tactic(auto, using(report::proofs::Pieces::pieces), unfolding(crate::specs::Line::root_told))]
fn decoded(n: Numbers, block: &[u8], out: &mut [u8], at: usize) -> usize
    ensures { Laid out.old at (root_told (root_decode block.now n.a n.b)) out.new result }
{
    let d = Root::decode(block, n.a, n.b);
    let words = carryfs::root_words(d);
    let told = report::number_fields(out, at, &words);
    named(d, out, told)
}

#[tactic(auto, using(report::proofs::Pieces::pieces), unfolding(crate::specs::Line::floor_told))]
fn floor_over(
    n: Numbers,
    payload: &[u8],
    key: &[u8],
    scratch: &mut [u16],
    out: &mut [u8],
    at: usize,
) -> usize
    ensures { Laid out.old at (floor_told n payload.now key.now scratch.old) out.new result }
{
    let found = lookups::floor_fields(n, payload, key, scratch);
    let told = fields(out, at, found);
    report::entries_field(out, told, scratch)
}

// Call 39. The scratch has as many entries as the call says, each of them at the fill.
// Kept: an array is lent here and for call 43. One function that lends it to a closure would have to say through the closure's `F.post` what became of the scratch and of the buffer, four references in a definition of its own; that is longer than the four lines.
fn floor(n: Numbers, payload: &[u8], key: &[u8], out: &mut [u8], at: usize) -> usize
    ensures { Laid out.old at (lent n.b (floor_told n payload.now key.now (replicate n.b (at_most 65535 n.c)))) out.new result }
{
    let mut scratch = [calls::within(n.c); 4096];
    let Some(lent) = scratch.get_mut(..n.b as usize) else {
        return at;
    };
    floor_over(n, payload, key, lent, out, at)
}

#[tactic(auto, using(report::proofs::Pieces::pieces), unfolding(crate::specs::Line::handed_told))]
fn handed_over(
    n: Numbers,
    uuid: &[u8],
    page: &[u8],
    key: &[u8],
    scratch: &mut [u16],
    out: &mut [u8],
    at: usize,
) -> usize
    ensures { Laid out.old at (handed_told n uuid.now page.now key.now scratch.old) out.new result }
{
    let handed = lookups::handed_fields(n, uuid, page, key, scratch);
    let told = report::number_fields(out, at, &handed);
    report::entries_field(out, told, scratch)
}

// Call 43. The scratch's entries are 65,535 before the lookup.
fn handed(n: Numbers, uuid: &[u8], page: &[u8], key: &[u8], out: &mut [u8], at: usize) -> usize
    ensures { Laid out.old at (lent n.g (handed_told n uuid.now page.now key.now (replicate n.g 65535))) out.new result }
{
    let mut scratch = [65_535u16; 4096];
    let Some(lent) = scratch.get_mut(..n.g as usize) else {
        return at;
    };
    handed_over(n, uuid, page, key, lent, out, at)
}

// A call's fields, by its number.
// Kept: the number is a byte of probe's protocol (docs/PROBE.md has the table): an enum of calls would be made from it by a match like this one.
#[tactic(auto, unfolding(crate::specs::Line::call_told, crate::specs::Line::answer_told))]
fn told(input: &[u8], out: &mut [u8], at: usize) -> usize
    ensures { Laid out.old at (call_told input.now) out.new result }
{
    let call = octets::byte_at(input, 0);
    let n = calls::numbers_of(input);
    let front = strings(input);
    let a = string(front);
    let rest = behind_string(front);
    let b = string(rest);
    match call {
        32 => expanded(a, out, at),
        33 => label(a, out, at),
        34 => decoded(n, a, out, at),
        39 => floor(n, a, b, out, at),
        41 => fields(out, at, calls::choice::selected(input)),
        43 => handed(n, a, b, string(behind_string(rest)), out, at),
        _ => fields(out, at, calls::fields_of(call, n, a, b)),
    }
}

// The line of a call whose place is given.
#[tactic(auto, using(report::proofs::Pieces::pieces), unfolding(crate::specs::Line::call_line))]
pub fn call_line(out: &mut [u8], at: usize, place: u64, input: &[u8]) -> usize
    ensures { Laid out.old at (call_line place input.now) out.new result }
{
    let placed = report::decimal(out, at, place);
    let answered = told(input, out, placed);
    report::put_byte(out, answered, b'\n')
}
