// The walk over a page's records.
// Kept: `rest` with `left` or `payload_length`: `rest` is the block from byte 80 to its end, not the payload: a record's two lengths are read even where they lie behind the payload's end. Document 01, section 5.
#![tactic(auto)]

ghost use Rattle.std.specs.Prelude.{◌≡◌, false, ◌||◌, eqb, [], ◌≤◌, length};
ghost use Rattle.error.specs.Answer.{number_words};
ghost use Rattle.std.specs.List.{fold};
ghost use Rattle.walk.specs.Records.{is_leaf, own_rules, is_one_of, walk, validate_records};
ghost use Rattle.walk.specs.Inside.{form_of, join_of, turn_of, stored_blocks, blocks_of, Whole, Kept};

use error::{Error, Validation, reason};
use lookup::Lengths;
use volume::TreeKind;

// What the records of a page are checked by.
// Kept: `page_kind` is the byte that is stored: a caller may lend a page of kind 7, say, and as in the Rust it is walked as an internal one; an enum of leaf and internal couldn't hold it.
#[derive(Clone, Copy)]
pub struct RecordValidation {
    pub kind: TreeKind,
    pub page_kind: u8,
    pub page_generation: u64,
    pub blocks: u64,
    pub mode: Validation,
}

// A record that passed: the lengths of its key and value, and the blocks that it counts in a leaf, or its child's block.
#[derive(Clone, Copy)]
struct Turn {
    key_len: usize,
    value_len: usize,
    number: u64,
}

// The form of the record at the front.
#[tactic(auto, unfolding(crate::specs::Inside::form_of, error::specs::Demand::outcome))]
fn record_form(
    rest: &[u8],
    left: usize,
    previous: &[u8],
    mode: Validation,
) -> Result<Lengths, Error>
    requires { left ≤ length rest.now }
    ensures { result ≡ form_of rest.now left previous.now mode }
{
    if rest.len() < 2 {
        return Err(Error::Corrupt(reason::RECORD_KEY_LENGTH));
    }
    if rest.len() < 4 {
        return Err(Error::Corrupt(reason::RECORD_VALUE_LENGTH));
    }
    let key_len = usize::from(octets::u16_at(rest, 0));
    let value_len = usize::from(octets::u16_at(rest, 2));
    if !(1..=1024).contains(&key_len) {
        return Err(error::violation(mode, reason::INVALID_RECORD_KEY_LENGTH));
    }
    let end = 4 + key_len;
    if record::MAX_RECORD_BYTES < end + value_len {
        return Err(error::violation(mode, reason::RECORD_IS_TOO_LARGE));
    }
    if left < end + value_len {
        return Err(error::violation(mode, reason::RECORD_EXCEEDS_PAYLOAD));
    }
    if !octets::is_above(&rest[4..end], previous) {
        return Err(error::violation(mode, reason::RECORD_KEYS_ARE_NOT_INCREASING));
    }
    Ok(Lengths { key_len, value_len })
}

// A record's own rules: the blocks that a leaf's record counts, or the block of an internal record's child.
fn own_number(key: &[u8], value: &[u8], context: RecordValidation) -> Result<u64, Error>
    ensures { result ≡ own_rules context key.now value.now }
{
    let RecordValidation {
        kind,
        page_kind,
        page_generation,
        blocks,
        mode,
    } = context;
    if page_kind == 1 {
        return record::validate_leaf_record(kind, key, value, blocks, page_generation, mode);
    }
    let child = record::validate_internal_record(kind, key, value, blocks, page_generation, mode)?;
    Ok(child.block)
}

// The record at the front, by its form and its own rules.
#[tactic(auto, using(crate::proofs::Turns::sized_inside, crate::proofs::Turns::turn_form))]
fn check_record(
    rest: &[u8],
    left: usize,
    previous: &[u8],
    context: RecordValidation,
) -> Result<Turn, Error>
    requires { left ≤ length rest.now }
    ensures { result ≡ turn_of context.mode (own_rules context) rest.now left previous.now }
{
    let Lengths { key_len, value_len } = record_form(rest, left, previous, context.mode)?;
    let end = 4 + key_len;
    let size = end + value_len;
    let number = own_number(&rest[4..end], &rest[end..size], context)?;
    Ok(Turn {
        key_len,
        value_len,
        number,
    })
}

// Whether a block is one of those seen. No early way out: of a valid page's children it is none.
fn seen_before(seen: &[u64], block: u64) -> bool
    ensures { result ≡ fold (λ hit stored. hit || eqb stored block) false seen.now }
{
    seen.iter()
        .fold(false, |hit, &stored| hit | (stored == block))
}

// The same of the first n records themselves: only a payload above the page's has more children than the array holds.
// Kept: a place that goes on by each record's own length: as an iterator it is `scan`, whose closure holds these same four lines.
fn stored_before(rest: &[u8], n: usize, block: u64) -> bool
    requires { Whole rest.now n }
    ensures { result ≡ is_one_of block (stored_blocks rest.now n) }
{
    let mut hit = false;
    let mut position = 0;
    for i in 0..n {
        let value = position + 4 + usize::from(octets::u16_at(rest, position));
        let end = value + usize::from(octets::u16_at(rest, position + 2));
        hit |= octets::u64_at(rest, value) == block;
        position = end;
    }
    hit
}

fn is_shared(seen: &[u64], rest: &[u8], n: usize, block: u64) -> bool
    requires { Kept seen.now rest.now n }
    ensures { result ≡ is_one_of block (stored_blocks rest.now n) }
{
    if n <= 192 {
        return seen_before(&seen[..n], block);
    }
    stored_before(rest, n, block)
}

// A record's number beside those of the n records before it, which stand at the front of `all`: a leaf's count is added to the total, a child's
// block is none of theirs.
#[tactic(auto, unfolding(crate::specs::Inside::join_of, error::specs::Demand::outcome))]
fn join(
    total: u64,
    seen: &[u64],
    all: &[u8],
    n: usize,
    number: u64,
    context: RecordValidation,
) -> Result<u64, Error>
    requires { is_leaf context ≡ false → Kept seen.now all.now n }
    ensures { result ≡ join_of (is_leaf context) total (blocks_of (is_leaf context) all.now n) number context.mode }
{
    let mode = context.mode;
    if context.page_kind == 1 {
        let overflow = error::violation(mode, reason::LEAF_DATA_BLOCK_TOTAL_OVERFLOW);
        return total.checked_add(number).ok_or(overflow);
    }
    if is_shared(seen, all, n, number) {
        return Err(error::violation(mode, reason::INTERNAL_CHILDREN_SHARE_A_BLOCK));
    }
    Ok(total)
}

// The walk over the records, and a leaf's total. The children's blocks so far stand in `seen`: of a page's payload, whose children take 28
// bytes or more, it has room for all.
// Kept: an array and a count beside it: fixed memory, nothing allocates. The loop's index is that count, and a record's place in the array.
fn walk(
    rest: &[u8],
    payload_length: usize,
    count: usize,
    context: RecordValidation,
) -> Result<u64, Error>
    requires { payload_length ≤ length rest.now }
    ensures { result ≡ walk (is_leaf context) context.mode (own_rules context) count rest.now payload_length [] 0 [] }
{
    let mut total: u64 = 0;
    let mut seen = [0u64; 192];
    let mut position = 0;
    let mut previous: &[u8] = &[];
    for i in 0..count {
        let here = &rest[position..];
        let Turn {
            key_len,
            value_len,
            number,
        } = check_record(here, payload_length - position, previous, context)?;
        total = join(total, &seen, rest, i, number, context)?;
        seen[i % 192] = number;
        let key_start = position + 4;
        let key_end = key_start + key_len;
        position = key_end + value_len;
        previous = &rest[key_start..key_end];
    }
    if position != payload_length {
        return Err(error::violation(context.mode, reason::PAYLOAD_HAS_UNCONSUMED_BYTES));
    }
    Ok(total)
}

// The records of a payload, and a leaf's total; an internal page's is 0.
#[tactic(auto, using(crate::proofs::Whole::is_walk), unfolding(crate::specs::Records::validate_records, crate::specs::Records::records, error::specs::Demand::outcome))]
pub fn validate_records(
    rest: &[u8],
    payload_length: usize,
    count: usize,
    context: RecordValidation,
) -> Result<u64, Error>
    ensures answer { result ≡ validate_records rest.now payload_length count context }
    ensures words { number_words result ≡ number_words (validate_records rest.now payload_length count context) }
{
    let mode = context.mode;
    if payload_length / 4 < count {
        return Err(error::violation(mode, reason::RECORD_COUNT_EXCEEDS_PAYLOAD));
    }
    if rest.len() < payload_length {
        return Err(error::violation(mode, reason::PAYLOAD_RANGE));
    }
    walk(rest, payload_length, count, context)
}
