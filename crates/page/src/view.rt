// A view of a page: what was read of its header, and the part of the caller's bytes that holds its records.
ghost use Rattle.std.specs.Prelude.{◌≡◌, ◌*◌, ◌<◌, eqb, length, take};
ghost use Rattle.std.specs.Iterator.{at_most};
ghost use Rattle.lookup.specs.Floor.{floor_answer, floor_words, scratch_of, next_record};
ghost use Rattle.lookup.specs.Record.{lengths_words};
ghost use Rattle.page.specs.View.{IsView, Found, found_words, Stepped, first_lengths, next_words};

use crate::Page;

// What was read of a page, and its payload in place.
// Kept, here and in `Records`: a count beside the bytes: it is the one that the page states, and no length of theirs: records are of any size.
#[derive(Clone, Copy)]
pub struct PageView<'a> {
    pub level: u8,
    pub data_blocks: u64,
    pub count: usize,
    pub payload: &'a [u8],
}

impl<'a> PageView<'a> {
    // Sizes, magic, revision and offsets of a page.
    pub const BYTES: usize = 4096;

    pub const PAYLOAD_OFFSET: usize = 80;

    pub const PAYLOAD_BYTES: usize = Self::BYTES - Self::PAYLOAD_OFFSET;

    pub const MAGIC: [u8; 8] = *b"CFSXPAGE";

    pub const REVISION: u16 = 1;

    pub const REVISION_OFFSET: usize = 8;

    pub const FLAGS_OFFSET: usize = 10;

    pub const PAGE_KIND_OFFSET: usize = 12;

    pub const TREE_KIND_OFFSET: usize = 13;

    pub const LEVEL_OFFSET: usize = 14;

    pub const ZERO_OFFSET: usize = 15;

    pub const SELF_BLOCK_OFFSET: usize = 16;

    pub const GENERATION_OFFSET: usize = 24;

    pub const COUNT_OFFSET: usize = 32;

    pub const PAYLOAD_LENGTH_OFFSET: usize = 34;

    pub const ZEROS_OFFSET: usize = 36;

    pub const UUID_OFFSET: usize = 40;

    pub const TOTAL_OFFSET: usize = 56;

    pub const CHECKSUM_OFFSET: usize = 64;

    pub const MORE_ZEROS_OFFSET: usize = 68;

    // How many records the page has.
    pub fn len(self) -> usize
        ensures { result ≡ self.entry.count }
    {
        self.count
    }

    // Whether it has none.
    pub fn is_empty(self) -> bool
        ensures { result ≡ eqb self.entry.count 0 }
    {
        self.count == 0
    }

    // The bytes of its records.
    pub fn payload(self) -> &'a [u8]
        ensures { result ≡ self.entry.payload }
    {
        self.payload
    }

    // The page's records, in the order of their keys.
    pub fn records(self) -> Records<'a>
        ensures payload { result.payload ≡ self.entry.payload }
        ensures remaining { result.remaining ≡ self.entry.count }
    {
        Records {
            payload: self.payload,
            remaining: self.count,
        }
    }

    // The last record whose key is not above the sought one: its index, and the records from it on.
    #[tactic(auto, unfolding(crate::specs::View::found_words, lookup::specs::Floor::floor_words))]
    pub fn floor_record(self, key: &[u8], offsets: &mut [u16]) -> Option<(usize, Records<'a>)>
        ensures found { Found self.entry.payload (floor_answer self.entry.payload.now self.entry.count key.now (length offsets.old)) result }
        ensures words { found_words result ≡ take 3 (floor_words (floor_answer self.entry.payload.now self.entry.count key.now (length offsets.old))) }
        ensures scratch { offsets.new ≡ scratch_of self.entry.payload.now self.entry.count offsets.old }
    {
        let a = lookup::floor_answer(self.payload, self.count, key, offsets)?;
        let records = Records {
            payload: octets::span(self.payload, a.from, a.end),
            remaining: a.remaining,
        };
        Some((a.index, records))
    }
}

// The view of an answer: its numbers, and the part of the page that holds its records.
pub fn view_of<'a>(page: &'a [u8], answer: Page) -> PageView<'a>
    ensures { IsView page.entry answer result }
{
    PageView {
        level: answer.level,
        data_blocks: answer.data_blocks,
        count: answer.count,
        payload: octets::span(page, answer.start, answer.end),
    }
}

// Records that are left: so many, at the front of a part.
#[derive(Clone, Copy)]
pub struct Records<'a> {
    pub payload: &'a [u8],
    pub remaining: usize,
}

// The records one after the other, each as its key and its value; none follows a broken one.
impl<'a> Iterator for Records<'a> {
    type Item = (&'a [u8], &'a [u8]);

    ghost next_gives = { λ s r t. Stepped s (next_record s.payload.now s.remaining) r t × (next_words r ≡ lengths_words (first_lengths s.payload.now s.remaining)) };

    ghost remaining = { λ s. at_most s.remaining };

    #[tactic(auto, using(crate::proofs::Words::next_some, crate::proofs::Words::next_none), unfolding(lookup::specs::Floor::next_record))]
    fn next(&mut self) -> Option<(&'a [u8], &'a [u8])> {
        let s = lookup::next_record(self.payload, self.remaining)?;
        let key = octets::span(self.payload, s.key_start, s.key_end);
        let value = octets::span(self.payload, s.key_end, s.value_end);
        self.payload = octets::tail(self.payload, s.value_end);
        self.remaining = s.remaining;
        Some((key, value))
    }

    // As many as are left, or fewer where one is broken.
    fn size_hint(&self) -> (usize, Option<usize>) {
        (self.remaining, Some(self.remaining))
    }
}

impl ExactSizeIterator for Records<'_> {
    fn len(&self) -> usize {
        self.remaining
    }
}
