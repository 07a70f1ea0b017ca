// The answers of the reader as words of 64 bits, for callers that can hold no more than numbers: the C interface, and the program probe.
#![tactic(auto)]

ghost use Rattle.std.specs.Prelude.{◌≡◌, ◌++◌};
ghost use Rattle.error.specs.Answer.{check_words, number_words};
ghost use Rattle.group.specs.Slots.{slot_words};
ghost use Rattle.lookup.specs.Floor.{floor_words, step_words};
ghost use Rattle.page.specs.Page.{page_words};
ghost use Rattle.root.specs.Words.{label_len, label_bytes, root_words, root_text, choice_words, supported_words};
ghost use Rattle.carryfs.specs.Words.{refused_words, slot_root};

use error::Error;
use lookup::{Answer, Step};
use page::Page;
use root::{Label, Root, Selected};

// A refusal in so many words: class and reason, as far as there is room for them, and zeros behind.
pub fn refused<const N: usize>(e: Error) -> [u64; N]
    ensures { result ≡ refused_words N e }
{
    let mut words = [0; N];
    let front = [
        u64::from(error::class_of(e)),
        u64::from(error::reason_of(e)),
    ];
    let room = N.min(2);
    words[..room].copy_from_slice(&front[..room]);
    words
}

// A slot of a checksum group: class, reason, whether there is a word, the word.
#[tactic(auto, unfolding(group::specs::Slots::slot_words))]
pub fn slot_words(slot: Result<Option<u32>, Error>) -> [u64; 4]
    ensures { result ≡ slot_words slot }
{
    match slot {
        Ok(Some(word)) => [0, 0, 1, u64::from(word)],
        Ok(None) => [0; 4],
        Err(e) => refused(e),
    }
}

// A check: class and reason.
#[tactic(auto, unfolding(error::specs::Answer::check_words))]
pub fn check_words(check: Result<(), Error>) -> [u64; 2]
    ensures { result ≡ check_words check }
{
    [
        u64::from(error::check_class(check)),
        u64::from(error::check_reason(check)),
    ]
}

// A check that gives a number: class, reason, the number.
#[tactic(auto, unfolding(error::specs::Answer::number_words))]
pub fn number_words(sum: Result<u64, Error>) -> [u64; 3]
    ensures { result ≡ number_words sum }
{
    match sum {
        Ok(word) => [0, 0, word],
        Err(e) => refused(e),
    }
}

// The record at the front of a part with so many records left: whether there is one, its key's start and end, its value's end, how many are left.
#[tactic(auto, unfolding(lookup::specs::Floor::step_words))]
pub fn step_words(left: usize, step: Option<Step>) -> [u64; 5]
    ensures { result ≡ step_words left step }
{
    match step {
        Some(s) => [
            1,
            s.key_start as u64,
            s.key_end as u64,
            s.value_end as u64,
            s.remaining as u64,
        ],
        None => [0, 0, 0, 0, left as u64],
    }
}

// A floor lookup: whether there is a record, its index, how many there are from it on, where they start.
#[tactic(auto, unfolding(lookup::specs::Floor::floor_words))]
pub fn floor_words(answer: Option<Answer>) -> [u64; 4]
    ensures { result ≡ floor_words answer }
{
    match answer {
        Some(a) => [1, a.index as u64, a.remaining as u64, a.from as u64],
        None => [0; 4],
    }
}

fn label_len(label: Option<Label>) -> u8
    ensures { result ≡ label_len label }
{
    label.map_or(0, |l| l.len)
}

// A label's bytes, zeros for none.
// Kept: tried as `label.map_or([0; 255], |l| l.bytes)`: of a closure that gives an array nothing is known (its post is `Unit`), so it would need a clause of its own, which is longer than the match.
pub fn label_bytes(label: Option<Label>) -> [u8; 255]
    ensures { result ≡ label_bytes label }
{
    match label {
        Some(l) => l.bytes,
        None => [0; 255],
    }
}

// A root's answer as numbers, in the order in which the root holds them.
#[tactic(auto, unfolding(root::specs::Words::root_words))]
pub fn root_words(decoded: Result<Root, Error>) -> [u64; 18]
    ensures { result ≡ root_words decoded }
{
    match decoded {
        Ok(root) => [
            0,
            0,
            u64::from(root.label.is_some()),
            u64::from(label_len(root.label)),
            root.generation,
            root.blocks,
            root.catalog.block,
            root.catalog.generation,
            root.allocation.block,
            root.allocation.generation,
            root.cleanup.block,
            root.cleanup.generation,
            root.next_object,
            root.free_blocks,
            root.next_job,
            root.workspace.block,
            root.workspace.generation,
            root.workspace_cursor,
        ],
        Err(e) => refused(e),
    }
}

// A UUID, then a label's bytes.
fn joined(uuid: &[u8; 16], label: &[u8; 255]) -> [u8; 271]
    ensures { result ≡ uuid.now ++ label.now }
{
    let mut text = [0; 271];
    let behind = octets::put(&mut text, 0, uuid);
    octets::put(&mut text, behind, label);
    text
}

// A root's UUID, then its label's bytes; beside a refusal zeros.
#[tactic(auto, unfolding(root::specs::Words::root_text))]
pub fn root_text(decoded: Result<Root, Error>) -> [u8; 271]
    ensures { result ≡ root_text decoded }
{
    match decoded {
        Ok(root) => joined(&root.uuid, &label_bytes(root.label)),
        Err(_) => [0; 271],
    }
}

// The root in a slot's block, as the choice between two takes it.
pub fn slot_root(bytes: &[u8], slot: u64, blocks: u64) -> Result<Option<Root>, Error>
    ensures answer { result ≡ slot_root bytes.now slot blocks }
    ensures words { supported_words result ≡ supported_words (slot_root bytes.now slot blocks) }
{
    root::supported_root(Root::decode(bytes, slot, blocks))
}

// The choice between two roots: class, reason, 1 or 2, the chosen one's generation.
#[tactic(auto, unfolding(root::specs::Words::choice_words))]
pub fn choice_words(chosen: Result<Selected, Error>) -> [u64; 4]
    ensures { result ≡ choice_words chosen }
{
    match chosen {
        Ok(s) => [0, 0, u64::from(s.which), s.root.generation],
        Err(e) => refused(e),
    }
}

// A page: class, reason, level, total, count, where its payload starts, its length.
#[tactic(auto, unfolding(page::specs::Page::page_words))]
pub fn page_words(page: Result<Page, Error>) -> [u64; 7]
    ensures { result ≡ page_words page }
{
    match page {
        Ok(p) => [
            0,
            0,
            u64::from(p.level),
            p.data_blocks,
            p.count as u64,
            p.start as u64,
            p.end.saturating_sub(p.start) as u64,
        ],
        Err(e) => refused(e),
    }
}
