// Checksum groups: 32 bitmap bytes, then up to 256 words. Document 01, section 6.
#![tactic(auto)]

ghost use Rattle.std.specs.Prelude.{◌≡◌, true, ◌+◌, ◌*◌, ◌≤◌, ◌<◌, length};
ghost use Rattle.error.specs.Answer.{check_words};
ghost use Rattle.octets.specs.Below.{every};
ghost use Rattle.octets.specs.Bytes.{IsPart};
ghost use Rattle.group.specs.Group.{checksum_slot, compact_bytes, expand_group, validate_checksum_group, stored_slots, right_size, is_compact, hole_zero, holes_zero};
ghost use Rattle.group.specs.Slots.{slot_words};
ghost use Rattle.group.specs.Inside.{Sized, IsLastNonzero, slot_zero, slots_zero};

use error::{Error, Validation, reason};

// Bytes of the full form.
pub const CHECKSUM_GROUP_BYTES: usize = 1056;

const MAX_CHECKSUM_GROUP: u64 = 9223372036854775807 / (256 * 65536);

// The word in a slot, nothing of a hole.
#[tactic(auto, unfolding(crate::specs::Group::checksum_slot, error::specs::Demand::outcome))]
pub fn checksum_slot(group: &[u8], slot: usize) -> Result<Option<u32>, Error>
    ensures answer { result ≡ checksum_slot group.now slot }
    ensures words { slot_words result ≡ slot_words (checksum_slot group.now slot) }
{
    if slot >= 256 || group.len() < 32 {
        return Err(Error::Corrupt(reason::CHECKSUM_GROUP_SLOT));
    }
    if group[slot / 8] & (1 << (slot % 8)) == 0 {
        return Ok(None);
    }
    let word = octets::read_u32_le(group, 32 + 4 * slot, reason::CHECKSUM_GROUP_SLOT)?;
    Ok(Some(word))
}

// The last byte of a bitmap that isn't 0.
fn last_nonzero(bitmap: &[u8]) -> Option<usize>
    ensures { IsLastNonzero bitmap.now result }
{
    bitmap.iter().rposition(|&byte| byte != 0)
}

// How many slots the stored form of a group holds: through the last present one.
fn stored_slots(group: &[u8]) -> usize
    requires { 32 ≤ length group.now }
    ensures { (result ≡ stored_slots group.now) × (result ≤ 256) }
{
    let Some(index) = last_nonzero(&group[..32]) else {
        return 0;
    };
    8 * index + 8 - group[index].leading_zeros() as usize
}

// The stored form of a group: its bitmap and the slots through the last present one. Of another length than 1,056 nothing.
#[tactic(auto, unfolding(crate::specs::Group::compact_bytes))]
pub fn compact_group(group: &[u8]) -> &[u8]
    ensures { IsPart group.entry 0 (compact_bytes group.now) result }
{
    if group.len() != CHECKSUM_GROUP_BYTES {
        return &group[..0];
    }
    let n = 32 + 4 * stored_slots(group);
    &group[..n]
}

// The full form: the bytes lent, at most the first 1,056, and zeros after them.
pub fn expand_group(value: &[u8]) -> [u8; CHECKSUM_GROUP_BYTES]
    ensures { result ≡ expand_group value.now }
{
    octets::padded::<CHECKSUM_GROUP_BYTES>(value)
}

#[tactic(auto, unfolding(crate::specs::Group::right_size))]
fn right_size(n: usize) -> bool
    ensures { result ≡ right_size n }
{
    (36..=CHECKSUM_GROUP_BYTES).contains(&n) && (n - 32) % 4 == 0
}

// Whether the last stored slot's bit is set and no bit above it is: one encoding per group, and never an empty one.
fn is_compact(value: &[u8]) -> bool
    requires { Sized (length value.now) }
    ensures { result ≡ is_compact value.now }
{
    let last = (value.len() - 32) / 4 - 1;
    let byte = last / 8;
    value[byte] >> (last % 8) == 1 && octets::all_zero(&value[byte + 1..32])
}

// Whether slot j of a bitmap byte is present or holds zero, by the byte and its words; no branch but in the read.
#[tactic(auto, using(crate::proofs::Holes::slot_joined))]
fn slot_zero(bits: u8, words: &[u8], j: usize) -> bool
    requires { j < 8 }
    ensures { result ≡ slot_zero bits words.now j }
{
    (bits & (1 << j) != 0) | (octets::u32_at(words, 4 * j) == 0)
}

// The same of its first slots.
// Kept: a slot's number is its bit in the byte and its place among the words. Tried as a fold over `0..count`, which wants a `requires` on its closure: not proved; `all` would leave early, and valid holes are all zero.
#[tactic(auto, using(crate::proofs::Holes::slots_none, crate::proofs::Holes::slots_next))]
fn slots_zero(bits: u8, words: &[u8], count: usize) -> bool
    requires { count ≤ 8 }
    ensures { result ≡ slots_zero bits words.now count }
{
    let mut zero = true;
    for j in 0..count {
        zero &= slot_zero(bits, words, j);
    }
    zero
}

// The same of all eight. Their words are lent as 32 bytes: the reads need not ask where the group ends.
#[tactic(auto, using(crate::proofs::Holes::full_byte))]
fn eight_zero(bits: u8, words: &[u8; 32]) -> bool
    ensures { result ≡ slots_zero bits words.now 8 }
{
    bits == 255 || slots_zero(bits, words, 8)
}

// Whether each hole among the first slots holds zero: whole bitmap bytes first, then the slots of the last one.
// By `enumerate`: with `group.iter().zip(eights).all(..)`, which proves too, a full group takes 1.7 of the time.
fn first_holes_zero(group: &[u8], count: usize) -> bool
    requires { (32 + 4 * count ≤ length group.now) × (count ≤ 256) }
    ensures { result ≡ every (hole_zero group.now) count }
{
    let (eights, rest) = group[32..32 + 4 * count].as_chunks::<32>();
    for (k, words) in eights.iter().enumerate() {
        if !eight_zero(group[k], words) {
            return false;
        }
    }
    slots_zero(group[count / 8], rest, count % 8)
}

// Whether each hole of a compact value holds zero.
#[tactic(auto, using(crate::proofs::Compact::holes_of))]
fn holes_zero(value: &[u8]) -> bool
    requires { Sized (length value.now) × (is_compact value.now ≡ true) }
    ensures { result ≡ holes_zero value.now }
{
    first_holes_zero(value, (value.len() - 32) / 4)
}

// Check a packed checksum group; a key under 17 bytes is refused first.
#[tactic(auto, unfolding(crate::specs::Group::validate_checksum_group, error::specs::Demand::outcome))]
pub fn validate_checksum_group(key: &[u8], value: &[u8], mode: Validation) -> Result<(), Error>
    ensures answer { result ≡ validate_checksum_group key.now value.now mode }
    ensures words { check_words result ≡ check_words (validate_checksum_group key.now value.now mode) }
{
    if key.len() < 17 {
        return Err(error::violation(mode, reason::INVALID_CATALOG_KEY));
    }
    if octets::big_at(key, 9) > MAX_CHECKSUM_GROUP || !right_size(value.len()) {
        return Err(error::violation(mode, reason::INVALID_CHECKSUM_GROUP));
    }
    if !is_compact(value) {
        return Err(error::violation(mode, reason::CHECKSUM_GROUP_IS_NOT_COMPACT));
    }
    if !holes_zero(value) {
        return Err(error::violation(mode, reason::HOLE_CHECKSUM_IS_NONZERO));
    }
    Ok(())
}
