// What a caller of the views sees, in numbers: for callers that can't hold a view. Document 01, sections 4, 5 and 7.
#![tactic(auto)]

ghost use Rattle.std.specs.Prelude.{◌≡◌, length};
ghost use Rattle.lookup.specs.Floor.{scratch_of, next_record};
ghost use Rattle.page.specs.Page.{decode_page};
ghost use Rattle.hand.specs.Hand.{step_numbers, lookup_first, first_words, scratch_in, hand_out, handed_words};

use error::Error;
use page::view::{PageView, Records};
use volume::{TreeKind, TreeRef};

// A record that is handed out: its key's and value's lengths and checksums, and how many records are left after it.
#[derive(Clone, Copy)]
pub struct Given {
    pub key_len: usize,
    pub key_sum: u32,
    pub value_len: usize,
    pub value_sum: u32,
    pub left: usize,
}

// A floor record's index, how many records there are from it on, and the one that `next` gives first of them, if any.
#[derive(Clone, Copy)]
pub struct First {
    pub index: usize,
    pub remaining: usize,
    pub given: Option<Given>,
}

// The record that `next` gives first of some records.
fn first_given(mut records: Records<'_>) -> Option<Given>
    ensures { result ≡ step_numbers records.entry.payload.now (next_record records.entry.payload.now records.entry.remaining) }
{
    let (key, value) = records.next()?;
    Some(Given {
        key_len: key.len(),
        key_sum: crc::crc32c(key),
        value_len: value.len(),
        value_sum: crc::crc32c(value),
        left: records.remaining,
    })
}

// The record that a lookup on a view hands out first.
#[tactic(auto, unfolding(crate::specs::Hand::lookup_first))]
pub fn lookup_first(view: PageView<'_>, key: &[u8], offsets: &mut [u16]) -> Option<First>
    ensures first { result ≡ lookup_first view.entry.payload.now view.entry.count key.now (length offsets.old) }
    ensures words { first_words result ≡ first_words (lookup_first view.entry.payload.now view.entry.count key.now (length offsets.old)) }
    ensures scratch { offsets.new ≡ scratch_of view.entry.payload.now view.entry.count offsets.old }
{
    let (index, records) = view.floor_record(key, offsets)?;
    Some(First {
        index,
        remaining: records.remaining,
        given: first_given(records),
    })
}

// What a page's view states, and what a lookup on it hands out first, if anything.
#[derive(Clone, Copy)]
pub struct Handed {
    pub level: u8,
    pub data_blocks: u64,
    // Kept: the count that the page states, no length.
    pub count: usize,
    pub first: Option<First>,
}

// Validate the page that the reference names, look the key up on its view, and take the first record.
// Kept: the parameters of `decode_page`, as callers give them today, and the lookup's: a struct would ask another thing of them.
pub fn hand_out(
    page: &[u8],
    reference: TreeRef,
    uuid: &[u8; 16],
    kind: TreeKind,
    parent_generation: u64,
    expected_level: Option<u8>,
    blocks: u64,
    key: &[u8],
    offsets: &mut [u16],
) -> Result<Handed, Error>
    ensures handed { result ≡ hand_out reference uuid.now kind parent_generation expected_level blocks page.now key.now (length offsets.old) }
    ensures words { handed_words result ≡ handed_words (hand_out reference uuid.now kind parent_generation expected_level blocks page.now key.now (length offsets.old)) }
    ensures scratch { offsets.new ≡ scratch_in (decode_page reference uuid.now kind parent_generation expected_level blocks page.now) page.now offsets.old }
{
    let view = page::decode_page(
        page,
        reference,
        uuid,
        kind,
        parent_generation,
        expected_level,
        blocks,
    )?;
    let first = lookup_first(view, key, offsets);
    Ok(Handed {
        level: view.level,
        data_blocks: view.data_blocks,
        count: view.count,
        first,
    })
}
