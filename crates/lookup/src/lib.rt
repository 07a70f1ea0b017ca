// Records in a part: the record at its start, and the floor lookup, the last record whose key is not above a sought one. Document 01, section 7.
#![tactic(auto)]

ghost use Rattle.std.specs.Prelude.{◌≡◌, true, ℕ, ◌+◌, ◌-◌, ◌<◌, ◌≤◌, length, get_or, drop, None, is_some};
ghost use Rattle.octets.specs.Number.{u16_at};
ghost use Rattle.lookup.specs.Record.{split_record, is_record, look_at, lengths_words};
ghost use Rattle.lookup.specs.Inside.{record_end};
ghost use Rattle.lookup.specs.Floor.{written, unbroken, over, above_at, bisect, before, walk_floor, floor_at, scratch_of, floor_answer, next_record, place_words, floor_words, step_words};

// The lengths of a record's key and value.
#[derive(Clone, Copy)]
pub struct Lengths {
    pub key_len: usize,
    pub value_len: usize,
}

// The record that a lookup finds: the how manieth it is, and where it starts.
#[derive(Clone, Copy)]
pub struct Floor {
    pub index: usize,
    pub offset: usize,
}

// The record at the start of a part; none where it is broken.
#[tactic(auto, unfolding(crate::specs::Record::split_record))]
pub fn split_record(part: &[u8]) -> Option<Lengths>
    ensures answer { result ≡ split_record part.now }
    ensures words { lengths_words result ≡ lengths_words (split_record part.now) }
{
    if part.len() < 4 {
        return None;
    }
    let key_len = usize::from(octets::u16_at(part, 0));
    let value_len = usize::from(octets::u16_at(part, 2));
    if part.len() < 4 + key_len + value_len {
        return None;
    }
    Some(Lengths { key_len, value_len })
}

// How many bytes the record at the start of a part takes, where its key is not above a sought one; a broken one counts as above it.
#[tactic(auto, using(crate::proofs::RecordLaws::split_fits), unfolding(crate::specs::Record::look_at))]
fn look_at(part: &[u8], key: &[u8]) -> Option<usize>
    ensures { result ≡ look_at part.now key.now }
{
    let Lengths { key_len, value_len } = split_record(part)?;
    let end = 4 + key_len;
    if octets::is_above(&part[4..end], key) {
        return None;
    }
    Some(end + value_len)
}

// Where the record at a place ends; none where it is broken.
// Kept: with split_record of the rest in its place a lookup takes 1.19 of the time, and misses the goal for lookups (docs/SPEED.md).
#[tactic(auto, using(crate::proofs::RecordLaws::end_short, crate::proofs::RecordLaws::end_broken, crate::proofs::RecordLaws::end_at))]
fn record_end(part: &[u8], at: usize) -> Option<usize>
    requires { (at ≤ length part.now) × (length part.now ≤ 65535) }
    ensures { result ≡ record_end part.now at }
{
    let start = at + 4;
    if part.len() < start {
        return None;
    }
    let end = start
        + usize::from(octets::u16_at(part, at))
        + usize::from(octets::u16_at(part, at + 2));
    if part.len() < end {
        return None;
    }
    Some(end)
}

// Writes the records' offsets into their entries, a record's before it is split; none where one is broken.
fn fill_offsets(part: &[u8], offsets: &mut [u16]) -> Option<()>
    requires { length part.now ≤ 65535 }
    ensures { (is_some result ≡ unbroken part.now (length offsets.old) 0) × (offsets.new ≡ over (written part.now (length offsets.old) 0) offsets.old) }
{
    let mut position = 0;
    for slot in offsets.iter_mut() {
        *slot = position as u16;
        position = record_end(part, position)?;
    }
    Some(())
}

// The walk from the front, which stops at a record above the key and at a broken one.
// Kept: a place that goes on by each record's own length: as an iterator it is `map_while(..).last()` whose closure writes to `position` outside it.
fn walk_floor(part: &[u8], count: usize, key: &[u8]) -> Option<Floor>
    ensures { result ≡ walk_floor part.now key.now count 0 0 None }
{
    let mut position = 0;
    let mut found = None;
    for index in 0..count {
        let Some(size) = look_at(&part[position..], key) else {
            return found;
        };
        found = Some(Floor {
            index,
            offset: position,
        });
        position += size;
    }
    found
}

// Whether the key of the whole record at a place is above a sought one.
#[tactic(auto, using(crate::proofs::RecordLaws::above_at_is))]
fn above_at(part: &[u8], at: usize, key: &[u8]) -> bool
    requires { (is_record (split_record (drop at part.now)) ≡ true) × (at + 4 + u16_at part.now at ≤ length part.now) }
    ensures { result ≡ above_at part.now key.now at }
{
    let start = at + 4;
    let end = start + usize::from(octets::u16_at(part, at));
    octets::is_above(&part[start..end], key)
}

// The record before the first one above the key, by bisection over the offsets of whole records.
// Kept: halving by hand: document 01 fixes its steps, which decide where keys are in no order; the library's promises nothing there.
fn bisect_records(part: &[u8], key: &[u8], offsets: &[u16]) -> Option<Floor>
    requires { (k : ℕ) → k < length offsets.now → is_record (split_record (drop (get_or offsets.now k 0) part.now)) ≡ true }
    ensures { result ≡ before offsets.now (bisect part.now key.now offsets.now (length offsets.now) 0 (length offsets.now)) }
{
    let mut low = 0;
    let mut high = offsets.len();
    while low < high {
        let middle = (low + high) / 2;
        let at = usize::from(offsets[middle]);
        if above_at(part, at, key) {
            high = middle;
        } else {
            low = middle + 1;
        }
    }
    let index = low.checked_sub(1)?;
    let offset = usize::from(offsets[index]);
    Some(Floor { index, offset })
}

// The floor lookup. The scratch is written where it has an entry for each record and the part has at most 65,535 bytes.
// Kept, here and in `floor_answer`: part and count, as callers give them today: a struct would ask another thing of them. Page's view has them in one.
pub fn floor_at(part: &[u8], count: usize, key: &[u8], scratch: &mut [u16]) -> Option<Floor>
    ensures answer { (result ≡ floor_at part.now count key.now (length scratch.old)) × (scratch.new ≡ scratch_of part.now count scratch.old) }
    ensures words { place_words result ≡ place_words (floor_at part.now count key.now (length scratch.old)) }
{
    if 65535 < part.len() {
        return None;
    }
    if scratch.len() < count {
        return walk_floor(part, count, key);
    }
    let offsets = &mut scratch[..count];
    fill_offsets(part, offsets)?;
    bisect_records(part, key, offsets)
}

// The record that a lookup finds: its index, how many records there are from it on, and where these start and end in the part.
// Kept: places, here and in `Step`, not parts: the C interface hands them on. Its end is the part's: that it is said here was promised.
#[derive(Clone, Copy)]
pub struct Answer {
    pub index: usize,
    pub remaining: usize,
    pub from: usize,
    pub end: usize,
}

#[tactic(auto, using(crate::proofs::FloorLaws::floor_index))]
pub fn floor_answer(part: &[u8], count: usize, key: &[u8], scratch: &mut [u16]) -> Option<Answer>
    ensures answer { (result ≡ floor_answer part.now count key.now (length scratch.old)) × (scratch.new ≡ scratch_of part.now count scratch.old) }
    ensures words { floor_words result ≡ floor_words (floor_answer part.now count key.now (length scratch.old)) }
{
    let Floor { index, offset } = floor_at(part, count, key, scratch)?;
    Some(Answer {
        index,
        remaining: count - index,
        from: offset,
        end: part.len(),
    })
}

// The record at the front of a part: where its key starts and ends, where its value ends, and how many records are left after it.
#[derive(Clone, Copy)]
pub struct Step {
    pub key_start: usize,
    pub key_end: usize,
    pub value_end: usize,
    pub remaining: usize,
}

// The first of so many records that are left.
#[tactic(auto, using(crate::proofs::RecordLaws::split_fits), unfolding(crate::specs::Floor::next_record))]
pub fn next_record(part: &[u8], remaining: usize) -> Option<Step>
    ensures answer { result ≡ next_record part.now remaining }
    ensures words { step_words remaining result ≡ step_words remaining (next_record part.now remaining) }
{
    if remaining == 0 {
        return None;
    }
    let Lengths { key_len, value_len } = split_record(part)?;
    let key_end = 4 + key_len;
    Some(Step {
        key_start: 4,
        key_end,
        value_end: key_end + value_len,
        remaining: remaining - 1,
    })
}
