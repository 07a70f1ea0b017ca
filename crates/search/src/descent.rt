// The descent: a page is asked for, read, and searched or left.
ghost use Rattle.std.specs.Prelude.{◌≡◌, ◌<◌, ◌≤◌, length};
ghost use Rattle.octets.specs.Order.{order, is_greater};
ghost use Rattle.lookup.specs.Floor.{floor_answer};
ghost use Rattle.search.specs.Search.{read_page, place_of, found_at, with_key, floor_of, keys_in_bounds, below_upper, upper_after, onward, searched, descend};
ghost use Rattle.search.specs.Inside.{sought_of, under_of, turn_of, visit_of, visited, lower_of, upper_of, Stands, Opens};

use crate::Found;
use error::{Class, Error};
use lookup::Answer;
use page::Page;
use page::view::PageView;
use volume::{TreeKind, TreeRef};

// A page has at most as many records as its payload has fours of bytes.
pub(crate) const MOST_RECORDS: usize = PageView::PAYLOAD_BYTES / 4;

// What is asked of one page: its reference, its parent's generation, its level, and as bounds of its keys the record that leads to it and the next one.
#[derive(Clone, Copy)]
pub(crate) struct Way {
    pub reference: TreeRef,
    pub parent_generation: u64,
    pub expected_level: Option<u8>,
    pub lower: Option<Found>,
    pub upper: Option<Found>,
}

// What an accepted page gives: the search's answer, or the page below.
#[derive(Clone, Copy)]
enum Visit {
    Ends(Result<Option<Found>, Error>),
    Goes(Way),
}

// The records of an accepted page: their bytes, where these start in the image, and the offset of each in them.
#[derive(Clone, Copy)]
struct Records<'a> {
    payload: &'a [u8],
    base: usize,
    offsets: &'a [u16],
}

impl Records<'_> {
    // Where record k stands in the image.
    #[tactic(auto, using(crate::proofs::Places::place_is))]
    fn place(self, image: &[u8], k: usize) -> Found
        requires { Stands image.now self.payload.now self.base self.offsets.now × (k < length self.offsets.now) }
        ensures { result ≡ place_of self.entry.payload.now self.entry.base k }
    {
        let at = usize::from(self.offsets[k]);
        let rest = octets::tail(self.payload, at);
        let key_start = self.base + at + 4;
        let key_end = key_start + usize::from(octets::u16_at(rest, 0));
        Found {
            key_start,
            key_end,
            value_end: key_end + usize::from(octets::u16_at(rest, 2)),
        }
    }
}

// Whether a key is below the lower bound; without one none is.
#[tactic(auto, using(crate::proofs::Bounds::empty_below))]
fn is_below_lower(image: &[u8], bound: Option<Found>, key: &[u8]) -> bool
    ensures { result ≡ is_greater (order (lower_of image.now bound) key.now) }
{
    match bound {
        Some(through) => octets::is_above(through.key(image), key),
        None => false,
    }
}

// Whether a key is below the upper bound; without one each is.
fn is_below_upper(image: &[u8], bound: Option<Found>, key: &[u8]) -> bool
    ensures { result ≡ below_upper (upper_of image.now bound) key.now }
{
    match bound {
        Some(next) => octets::is_above(next.key(image), key),
        None => true,
    }
}

// What is the same on every page of a search.
#[derive(Clone, Copy)]
pub(crate) struct Asked<'a> {
    pub image: &'a [u8],
    pub uuid: &'a [u8; 16],
    pub kind: TreeKind,
    pub blocks: u64,
    pub key: &'a [u8],
}

impl Asked<'_> {
    // Whether the keys of a page are in its bounds: they increase, so the first and the last decide.
    #[tactic(auto, using(crate::proofs::Bounds::out_below))]
    fn in_bounds(self, way: Way, records: Records) -> bool
        requires { Stands self.image.now records.payload.now records.base records.offsets.now }
        ensures { result ≡ keys_in_bounds records.entry.payload.now (length records.entry.offsets.now) (lower_of self.entry.image.now way.lower) (upper_of self.entry.image.now way.upper) }
    {
        let count = records.offsets.len();
        if count == 0 {
            return true;
        }
        let first = records.place(self.image, 0);
        if is_below_lower(self.image, way.lower, first.key(self.image)) {
            return false;
        }
        let last = records.place(self.image, count - 1);
        is_below_upper(self.image, way.upper, last.key(self.image))
    }

    // In a leaf: the floor record, if it is the one with the very key.
    #[tactic(auto, using(crate::proofs::Turns::leaf_none, crate::proofs::Turns::floor_inside, crate::proofs::Turns::leaf_other, crate::proofs::Turns::leaf_found))]
    fn in_leaf(self, records: Records, floor: Option<Answer>) -> Option<Found>
        requires { Stands self.image.now records.payload.now records.base records.offsets.now × (floor ≡ floor_answer records.payload.now (length records.offsets.now) self.key.now 1004) }
        ensures { result ≡ found_at records.entry.payload.now records.entry.base (with_key records.entry.payload.now self.entry.key.now (length records.entry.offsets.now)) }
    {
        let found = records.place(self.image, floor?.index);
        if !octets::same_bytes(found.key(self.image), self.key) {
            return None;
        }
        Some(found)
    }

    // The bound above the children of record k: the next record, or the inherited bound where there is no next one.
    #[tactic(auto, using(crate::proofs::Turns::upper_kept, crate::proofs::Turns::upper_next))]
    fn upper_after(self, way: Way, records: Records, k: usize) -> Option<Found>
        requires { Stands self.image.now records.payload.now records.base records.offsets.now × (k < length records.offsets.now) }
        ensures { upper_of self.entry.image.now result ≡ upper_after records.entry.payload.now (length records.entry.offsets.now) (upper_of self.entry.image.now way.upper) k }
    {
        let next = k + 1;
        if records.offsets.len() <= next {
            return way.upper;
        }
        Some(records.place(self.image, next))
    }

    // In an internal page: the page below its floor record; a key below the first is answered none.
    #[tactic(auto, using(crate::proofs::Turns::onward_none, crate::proofs::Turns::floor_inside))]
    fn onward(
        self,
        way: Way,
        page: &[u8],
        level: u8,
        records: Records,
        floor: Option<Answer>,
    ) -> Visit
        requires { Stands self.image.now records.payload.now records.base records.offsets.now × (floor ≡ floor_answer records.payload.now (length records.offsets.now) self.key.now 1004) × (1 ≤ level) }
        ensures { turn_of self.entry.image.now result ≡ onward page.now records.entry.payload.now level (length records.entry.offsets.now) (upper_of self.entry.image.now way.upper) (floor_of records.entry.payload.now self.entry.key.now (length records.entry.offsets.now)) }
    {
        let Some(floor) = floor else {
            return Visit::Ends(Ok(None));
        };
        let through = records.place(self.image, floor.index);
        Visit::Goes(Way {
            reference: volume::ref_at(through.value(self.image), 0),
            parent_generation: octets::u64_at(page, PageView::GENERATION_OFFSET),
            expected_level: Some(level - 1),
            lower: Some(through),
            upper: self.upper_after(way, records, floor.index),
        })
    }

    // A page that was accepted, and starts at a place of the image.
    // Kept: the lookup before the bounds: it tells where each record starts too, so that bounds cost no walk of their own. What it finds is looked at only once they hold.
    fn open_page(
        self,
        way: Way,
        page: &[u8],
        start: usize,
        answer: Page,
        scratch: &mut [u16; MOST_RECORDS],
    ) -> Visit
        requires { Opens (sought_of self) (under_of self.image.now way) page.now start answer }
        ensures { turn_of self.entry.image.now result ≡ searched (sought_of self.entry) (under_of self.entry.image.now way) answer }
    {
        let payload = octets::span(page, answer.start, answer.end);
        let floor = lookup::floor_answer(payload, answer.count, self.key, scratch);
        let base = start + answer.start;
        let offsets = &scratch[..answer.count];
        let records = Records {
            payload,
            base,
            offsets,
        };
        if !self.in_bounds(way, records) {
            return Visit::Ends(Err(Error::Added(Class::OutOfBounds)));
        }
        if answer.level == 0 {
            return Visit::Ends(Ok(self.in_leaf(records, floor)));
        }
        self.onward(way, page, answer.level, records, floor)
    }

    // The page that is asked for.
    fn visit(self, way: Way, scratch: &mut [u16; MOST_RECORDS]) -> Result<Visit, Error>
        ensures { visit_of self.entry.image.now result ≡ visited (sought_of self.entry) (under_of self.entry.image.now way) (read_page (sought_of self.entry) (under_of self.entry.image.now way)) }
    {
        let block = way.reference.block;
        if (self.image.len() / PageView::BYTES) as u64 <= block {
            return Err(Error::Added(Class::BeyondImage));
        }
        let start = block as usize * PageView::BYTES;
        let page = &self.image[start..start + PageView::BYTES];
        let answer = page::page_answer(
            page,
            way.reference,
            self.uuid,
            self.kind,
            way.parent_generation,
            way.expected_level,
            self.blocks,
        )?;
        Ok(self.open_page(way, page, start, answer, scratch))
    }

    // The descent, over at most eight pages; its answer, and how many pages it accepted.
    // Its last line isn't reached: a page is one level below the one before, and levels are 7 to 0.
    pub(crate) fn descend(
        self,
        top: Way,
        scratch: &mut [u16; MOST_RECORDS],
    ) -> (Result<Option<Found>, Error>, u64)
        ensures { result ≡ descend (sought_of self.entry) 8 (under_of self.entry.image.now top) 0 }
    {
        let mut way = top;
        for pages in 0..8 {
            match self.visit(way, scratch) {
                Err(error) => return (Err(error), pages),
                Ok(Visit::Ends(answer)) => return (answer, pages + 1),
                Ok(Visit::Goes(below)) => way = below,
            }
        }
        (Ok(None), 8)
    }
}
