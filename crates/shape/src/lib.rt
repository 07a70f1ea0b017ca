// The numbers and strings of a call of probe or probe_added, and their limits: where a call on standard input ends.
#![tactic(auto)]

ghost use Rattle.std.specs.Prelude.{◌≡◌, ◌≤◌, length, option_copied, IfSome};
ghost use Rattle.shape.specs.Call.{in_range, read_bytes, read_number, read_string, read_units, read_item, reads};
ghost use Rattle.shape.specs.Calls.{items_in, calls, call_front, numbers_among, strings_at};
ghost use Rattle.shape.specs.Added.{added, added_front, added_strings_at};

// Why no whole call, or no part of it, stands at the front of the input.
#[derive(Clone, Copy, Debug, PartialEq, Eq)]
pub enum Fault {
    // The input ends inside it.
    Short,
    // It is unknown or outside the limits.
    Outside,
}

// A number or a string of a call, and the least and the most that the number or the string's length may be; or a string of whole units,
// the bytes of one and the most of all.
// Kept: the two numbers of a case are no struct: each of the constants below would say `Item::Number(Limits { least: 0, most: 255 })`, and a library's range
// is not `Copy`.
#[derive(Clone, Copy)]
enum Item {
    Number(u64, u64),
    Text(u64, u64),
    Units(u64, u64),
}

// Any number of 64 bits.
const ANY: Item = Item::Number(0, u64::MAX);

// A register, nanoseconds: below 2^32.
const WORD: Item = Item::Number(0, 0xFFFF_FFFF);

// A reason, a scratch's fill.
const SHORT: Item = Item::Number(0, 65_535);

// A level, a page's kind, a label's length.
const BYTE: Item = Item::Number(0, 255);

// Present, has label, a mode.
const FLAG: Item = Item::Number(0, 1);

// A tree kind.
const KIND: Item = Item::Number(1, 4);

// The count of zero bytes in call 4.
const ZEROS: Item = Item::Number(0, 1_000_000);

// The entries of a scratch.
const ENTRIES: Item = Item::Number(0, 4_096);

// A byte string.
const STRING: Item = Item::Text(0, 80_000);

// A UUID.
const UUID: Item = Item::Text(16, 16);

// A label's bytes in call 41.
const LABEL: Item = Item::Text(255, 255);

// Call 41: for each of two roots present, has label, label length and 14 numbers more; then UUID and label of each.
const ROOTS: [Item; 38] = [
    FLAG, FLAG, BYTE, ANY, ANY, ANY, ANY, ANY, ANY, ANY, ANY, ANY, ANY, ANY, ANY, ANY, ANY, FLAG,
    FLAG, BYTE, ANY, ANY, ANY, ANY, ANY, ANY, ANY, ANY, ANY, ANY, ANY, ANY, ANY, ANY, UUID, LABEL,
    UUID, LABEL,
];

// The length of an image: 640 blocks.
const IMAGE: Item = Item::Number(0, 2_621_440);

// Pages of an image, each of them behind its block's number.
const PAGES: Item = Item::Units(4_104, 80_000);

// Call 60: the count, the kind; of the root whether it has a label, the label's length and 14 numbers more; the image's length; then UUID and label, key, pages.
const SEARCH: [Item; 23] = [
    ANY, KIND, FLAG, BYTE, ANY, ANY, ANY, ANY, ANY, ANY, ANY, ANY, ANY, ANY, ANY, ANY, ANY, ANY,
    IMAGE, UUID, LABEL, STRING, PAGES,
];

// What a call takes, by the table of docs/PROBE.md; None where it has no row.
// Kept: the number is a byte of probe's protocol: an enum of calls would be made from it by a match like this one.
#[tactic(auto, unfolding(crate::specs::Calls::items_in, crate::specs::Calls::calls))]
fn items_in(call: u8) -> Option<&'static [Item]>
    ensures all { option_copied result ≡ items_in call calls }
    ensures few { IfSome result (λ items. length items.now ≤ 38) }
{
    match call {
        1 => Some(&[WORD, STRING]),
        2 | 6 | 7 => Some(&[STRING]),
        3 | 34 => Some(&[ANY, ANY, STRING]),
        4 => Some(&[WORD, ZEROS]),
        5 => Some(&[ANY, ANY, UUID, STRING]),
        8..=10 => Some(&[ANY, SHORT, STRING]),
        11 => Some(&[STRING, STRING]),
        12..=15 => Some(&[ANY, ANY]),
        16 => Some(&[ANY]),
        17 => Some(&[ANY, ANY, ANY, FLAG]),
        18 => Some(&[ANY, ANY, KIND, ANY, FLAG]),
        19 => Some(&[ANY, ANY, FLAG]),
        20 => Some(&[ANY, WORD, FLAG]),
        21 => Some(&[ANY, FLAG]),
        22 | 24 => Some(&[FLAG, STRING]),
        23 => Some(&[ANY, FLAG, STRING]),
        25 => Some(&[ANY, FLAG, STRING, STRING]),
        26 => Some(&[FLAG, STRING, STRING]),
        27 | 28 => Some(&[KIND, ANY, ANY, FLAG, STRING, STRING]),
        29 => Some(&[KIND, ANY, ANY, STRING, STRING]),
        30 | 40 => Some(&[ANY, STRING]),
        31..=33 | 38 => Some(&[STRING]),
        35 => Some(&[ANY, ANY, ANY, ANY, STRING, STRING]),
        36 => Some(&[ANY, ANY, KIND, ANY, BYTE, ANY, UUID, STRING]),
        37 => Some(&[ANY, ANY, KIND, ANY, BYTE, UUID, STRING]),
        39 => Some(&[ANY, ENTRIES, SHORT, STRING, STRING]),
        41 => Some(&ROOTS),
        42 => Some(&[KIND, BYTE, ANY, ANY, FLAG, ANY, ANY, STRING]),
        43 => Some(&[
            ANY, ANY, KIND, ANY, BYTE, ANY, ENTRIES, UUID, STRING, STRING,
        ]),
        44 => Some(&[ANY, ANY, ANY, ANY, UUID, STRING]),
        _ => None,
    }
}

// What a call of probe_added takes, by the table of docs/PROBE-ADDED.md; None where it has no row.
#[tactic(auto, unfolding(crate::specs::Calls::items_in, crate::specs::Added::added))]
fn added_items(call: u8) -> Option<&'static [Item]>
    ensures all { option_copied result ≡ items_in call added }
    ensures few { IfSome result (λ items. length items.now ≤ 38) }
{
    match call {
        60 => Some(&SEARCH),
        _ => None,
    }
}

// Whether a number, or a string's length, is within its limits.
fn is_allowed(least: u64, most: u64, value: u64) -> bool
    ensures { result ≡ in_range least most value }
{
    (least..=most).contains(&value)
}

// The place behind so many bytes from a place of the input on.
// Kept: `input` and `at`, not the rest as a slice: the answer is where a part ends in the input, as the definitions have it, and a string is
// counted from its length's place. Of a rest each function would answer a rest, and `read_call` `input.len() - rest.len()`.
#[tactic(auto, unfolding(crate::specs::Call::read_bytes))]
fn read_bytes(input: &[u8], at: usize, length: usize) -> Result<usize, Fault>
    ensures { result ≡ read_bytes input.now at «length» }
{
    let end = at.checked_add(length).ok_or(Fault::Short)?;
    if input.len() < end {
        return Err(Fault::Short);
    }
    Ok(end)
}

// A number: eight bytes.
#[tactic(auto, unfolding(crate::specs::Call::read_number))]
fn read_number(least: u64, most: u64, input: &[u8], at: usize) -> Result<usize, Fault>
    ensures { result ≡ read_number least most input.now at }
{
    let end = read_bytes(input, at, 8)?;
    if !is_allowed(least, most, octets::u64_at(input, at)) {
        return Err(Fault::Outside);
    }
    Ok(end)
}

// A string's length, and as many bytes.
#[tactic(auto, unfolding(crate::specs::Call::read_string))]
fn read_string(least: u64, most: u64, input: &[u8], at: usize) -> Result<usize, Fault>
    ensures { result ≡ read_string least most input.now at }
{
    let start = read_bytes(input, at, 4)?;
    let length = octets::u32_at(input, at);
    if !is_allowed(least, most, u64::from(length)) {
        return Err(Fault::Outside);
    }
    read_bytes(input, start, length as usize)
}

// A string of whole units.
#[tactic(auto, unfolding(crate::specs::Call::read_units))]
fn read_units(unit: u64, most: u64, input: &[u8], at: usize) -> Result<usize, Fault>
    ensures { result ≡ read_units unit most input.now at }
{
    let end = read_string(0, most, input, at)?;
    if !u64::from(octets::u32_at(input, at)).is_multiple_of(unit) {
        return Err(Fault::Outside);
    }
    Ok(end)
}

// A number or a string.
fn read_item(item: Item, input: &[u8], at: usize) -> Result<usize, Fault>
    ensures { result ≡ read_item item input.now at }
{
    match item {
        Item::Number(least, most) => read_number(least, most, input, at),
        Item::Text(least, most) => read_string(least, most, input, at),
        Item::Units(unit, most) => read_units(unit, most, input, at),
    }
}

// Numbers and strings, one after the other.
#[tactic(auto, using(crate::proofs::Reading::items_on, crate::proofs::Reading::items_off, crate::proofs::Reading::items_end))]
fn reads(items: &[Item], input: &[u8], start: usize) -> Result<usize, Fault>
    ensures { result ≡ reads items.now input.now start }
{
    let mut at = start;
    for &item in items {
        at = read_item(item, input, at)?;
    }
    Ok(at)
}

// The call at the front of the input.
#[tactic(auto, using(crate::proofs::Reading::no_call, crate::proofs::Reading::known_call, crate::proofs::Reading::unknown_call))]
pub fn read_call(input: &[u8]) -> Result<usize, Fault>
    ensures { result ≡ call_front input.now }
{
    let Some(&call) = input.first() else {
        return Err(Fault::Short);
    };
    let items = items_in(call).ok_or(Fault::Outside)?;
    reads(items, input, 1)
}

// The same of probe_added.
#[tactic(auto, using(crate::proofs::Reading::no_call, crate::proofs::Reading::known_call, crate::proofs::Reading::unknown_call))]
pub fn read_added(input: &[u8]) -> Result<usize, Fault>
    ensures { result ≡ added_front input.now }
{
    let Some(&call) = input.first() else {
        return Err(Fault::Short);
    };
    let items = added_items(call).ok_or(Fault::Outside)?;
    reads(items, input, 1)
}

// How many of the items are numbers.
fn numbers_among(items: &[Item]) -> usize
    ensures all { result ≡ numbers_among items.now }
    ensures few { result ≤ length items.now }
{
    items
        .iter()
        .filter(|item| matches!(item, Item::Number(..)))
        .count()
}

// Where a call's strings start: behind its numbers.
#[tactic(auto, unfolding(crate::specs::Calls::strings_at))]
pub fn strings_at(call: u8) -> usize
    ensures { result ≡ strings_at call }
{
    1 + 8 * items_in(call).map_or(0, numbers_among)
}

// The same of probe_added.
#[tactic(auto, unfolding(crate::specs::Added::added_strings_at))]
pub fn added_strings_at(call: u8) -> usize
    ensures { result ≡ added_strings_at call }
{
    1 + 8 * added_items(call).map_or(0, numbers_among)
}
