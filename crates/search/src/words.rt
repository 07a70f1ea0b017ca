// A search in numbers, for callers that can hold no more: the C interface, and the program probe_added.
ghost use Rattle.std.specs.Prelude.{◌≡◌};
ghost use Rattle.search.specs.Words.{search_words};
ghost use Rattle.search.specs.Given.{root_given};

use crate::Searched;
use root::Root;
use volume::TreeRef;

// A search: class, reason, whether a record was found, where its key starts in the image and its length, the same of its value, the pages accepted so far.
#[tactic(auto, unfolding(crate::specs::Words::search_words))]
pub fn search_words(found: Searched) -> [u64; 8]
    ensures { result ≡ search_words found }
{
    let count = found.state.count;
    match found.answer {
        Ok(Some(f)) => [
            0,
            0,
            1,
            f.key_start as u64,
            f.key_end.saturating_sub(f.key_start) as u64,
            f.key_end as u64,
            f.value_end.saturating_sub(f.key_end) as u64,
            count,
        ],
        Ok(None) => [0, 0, 0, 0, 0, 0, 0, count],
        Err(e) => [
            u64::from(error::class_of(e)),
            u64::from(error::reason_of(e)),
            0,
            0,
            0,
            0,
            0,
            count,
        ],
    }
}

// The root that these words and this text tell, but for its label: a search looks at none.
#[tactic(auto, unfolding(crate::specs::Given::root_given))]
pub fn root_given(words: &[u64; 18], text: &[u8; 271]) -> Root
    ensures { result ≡ root_given words.now text.now }
{
    Root {
        label: None,
        uuid: octets::padded::<16>(text),
        generation: words[4],
        blocks: words[5],
        catalog: TreeRef {
            block: words[6],
            generation: words[7],
        },
        allocation: TreeRef {
            block: words[8],
            generation: words[9],
        },
        cleanup: TreeRef {
            block: words[10],
            generation: words[11],
        },
        next_object: words[12],
        free_blocks: words[13],
        next_job: words[14],
        workspace: TreeRef {
            block: words[15],
            generation: words[16],
        },
        workspace_cursor: words[17],
    }
}
