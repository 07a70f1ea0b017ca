// From the root down to the record: a lent image of a volume, a root, one of its four trees and a key give the exact record or none. Document 02, Ticket 1.
#![tactic(auto)]

mod descent;
pub mod words;

ghost use Rattle.std.specs.Prelude.{◌≡◌, ◌-◌};
ghost use Rattle.octets.specs.Bytes.{IsPart};
ghost use Rattle.search.specs.Search.{tree_of, search};
ghost use Rattle.search.specs.Words.{search_words};

use crate::descent::{Asked, MOST_RECORDS, Way};
use error::Error;
use root::Root;
use volume::{TreeKind, TreeRef};

// The state of a searcher: how many pages his searches accepted so far.
#[derive(Clone, Copy)]
pub struct Searches {
    pub count: u64,
}

// Where a found record stands in the image: its key from its start to its end, and behind it its value.
#[derive(Clone, Copy)]
pub struct Found {
    pub key_start: usize,
    pub key_end: usize,
    pub value_end: usize,
}

// What a search answers: the record, none or a refusal; and the state after it.
#[derive(Clone, Copy)]
pub struct Searched {
    pub answer: Result<Option<Found>, Error>,
    pub state: Searches,
}

impl Found {
    // The record's key, in the image in which it was found.
    pub fn key(self, image: &[u8]) -> &[u8]
        ensures { IsPart image.entry self.key_start (self.key_end - self.key_start) result }
    {
        octets::span(image, self.key_start, self.key_end)
    }

    // Its value.
    pub fn value(self, image: &[u8]) -> &[u8]
        ensures { IsPart image.entry self.key_end (self.value_end - self.key_end) result }
    {
        octets::span(image, self.key_end, self.value_end)
    }
}

// The reference that a root has for a tree.
pub fn tree_of(root: Root, kind: TreeKind) -> TreeRef
    ensures { result ≡ tree_of root kind }
{
    match kind {
        TreeKind::Catalog => root.catalog,
        TreeKind::Allocation => root.allocation,
        TreeKind::Cleanup => root.cleanup,
        TreeKind::Workspace => root.workspace,
    }
}

// The record with that key in a tree of the image, or none.
#[tactic(auto, using(crate::proofs::Descents::search_is))]
pub fn search(image: &[u8], root: Root, kind: TreeKind, key: &[u8], state: Searches) -> Searched
    ensures answer { result ≡ search image.now root kind key.now state }
    ensures words { search_words result ≡ search_words (search image.now root kind key.now state) }
{
    let asked = Asked {
        image,
        uuid: &root.uuid,
        kind,
        blocks: root.blocks,
        key,
    };
    let top = Way {
        reference: tree_of(root, kind),
        parent_generation: root.generation,
        expected_level: None,
        lower: None,
        upper: None,
    };
    let (answer, pages) = asked.descend(top, &mut [0; MOST_RECORDS]);
    Searched {
        answer,
        state: Searches {
            count: state.count.saturating_add(pages),
        },
    }
}
