// Volume labels, roots, and the choice between two roots. Document 01, section 3.
#![tactic(auto)]

ghost use Rattle.std.specs.Prelude.{◌≡◌, ◌+◌, ◌≤◌, length};
ghost use Rattle.error.specs.Answer.{check_words};
ghost use Rattle.root.specs.Words.{label_words, root_words, root_text, supported_words, choice_words};
ghost use Rattle.octets.specs.Bytes.{part};
ghost use Rattle.octets.specs.Number.{u16_at};
ghost use Rattle.root.specs.Label.{is_label, label_of, label_new};
ghost use Rattle.root.specs.Root.{label_text, label_in, root_of, check_place, checksum_fits, are_sizes_right, check_envelope, check_text, check_label, check_identity, check_block, root_decode};
ghost use Rattle.root.specs.Fields.{check_general, check_refs, check_workspace, check_trees, check_numbers, validate_root_fields};
ghost use Rattle.root.specs.Select.{select_pair, select_root, supported_root, choose_root};

use error::{Error, Validation, reason, violation};
use volume::{TreeKind, TreeRef};

// A volume label: its bytes, zeros beyond its length.
// Kept: an array and its length, as in the Rust: fixed memory, nothing allocates.
#[derive(Clone, Copy, PartialEq, Eq)]
pub struct Label {
    pub len: u8,
    pub bytes: [u8; 255],
}

// The fields of a root.
#[derive(Clone, Copy, PartialEq, Eq)]
pub struct Root {
    pub label: Option<Label>,
    pub uuid: [u8; 16],
    pub generation: u64,
    pub blocks: u64,
    pub catalog: TreeRef,
    pub allocation: TreeRef,
    pub cleanup: TreeRef,
    pub next_object: u64,
    pub free_blocks: u64,
    pub next_job: u64,
    pub workspace: TreeRef,
    pub workspace_cursor: u64,
}

// The chosen root, and which it is: 1 for the first, 2 for the second.
// Kept: `which` is the C interface's number; an enum would only be turned back into it.
#[derive(Clone, Copy, PartialEq, Eq)]
pub struct Selected {
    pub which: u8,
    pub root: Root,
}

#[tactic(auto, unfolding(crate::specs::Label::is_label))]
fn is_label(text: &[u8]) -> bool
    ensures { result ≡ is_label text.now }
{
    utf8::is_utf8(text)
        && (1..=Label::MAX_BYTES).contains(&text.len())
        && !octets::same_bytes(text, b".")
        && !octets::same_bytes(text, b"..")
        && utf8::is_plain(text)
}

#[tactic(auto, unfolding(crate::specs::Label::label_of))]
fn label_of(text: &[u8]) -> Label
    requires { length text.now ≤ 255 }
    ensures { result ≡ label_of text.now }
{
    let bytes = octets::padded::<255>(text);
    Label {
        len: text.len() as u8,
        bytes,
    }
}

impl Label {
    pub const MAX_BYTES: usize = 255;

    #[tactic(auto, using(crate::proofs::Text::label_short), unfolding(crate::specs::Label::label_new, error::specs::Demand::outcome))]
    pub fn new(label: &[u8]) -> Result<Label, Error>
        ensures answer { result ≡ label_new label.now }
        ensures words { label_words result ≡ label_words (label_new label.now) }
    {
        if !is_label(label) {
            return Err(Error::InvalidInput(reason::INVALID_VOLUME_LABEL));
        }
        Ok(label_of(label))
    }
}

// Kept, here and in `check_identity`: bytes, slot and blocks as `decode` is given them: a struct would be made there and taken apart in two.
#[tactic(auto, unfolding(crate::specs::Root::check_place, error::specs::Demand::outcome))]
fn check_place(bytes: &[u8], slot: u64, blocks: u64) -> Result<(), Error>
    ensures { result ≡ check_place bytes.now slot blocks }
{
    if bytes.len() != Root::BYTES {
        return Err(Error::Corrupt(reason::ROOT_PAGE_LENGTH));
    }
    if blocks < volume::RESERVED_TOTAL_BLOCKS {
        return Err(Error::InvalidGeometry);
    }
    volume::validate_root_slot(slot, blocks, Validation::Input)
}

#[tactic(auto, unfolding(crate::specs::Root::checksum_fits))]
fn checksum_fits(bytes: &[u8]) -> bool
    ensures { result ≡ checksum_fits bytes.now }
{
    let stored = octets::u32_at(bytes, Root::CHECKSUM_OFFSET);
    crc::crc32c_with_zero(bytes, Root::CHECKSUM_OFFSET, Root::BYTES) == stored
}

#[tactic(auto, unfolding(crate::specs::Root::are_sizes_right))]
fn are_sizes_right(bytes: &[u8]) -> bool
    ensures { result ≡ are_sizes_right bytes.now }
{
    let record = octets::u32_at(bytes, Root::RECORD_BYTES_OFFSET);
    let allocation = octets::u32_at(bytes, Root::ALLOCATION_BYTES_OFFSET);
    let unit = octets::u32_at(bytes, Root::UNIT_BYTES_OFFSET);
    record == 4096 && allocation == 4096 && unit == 65536
}

#[tactic(auto, unfolding(crate::specs::Root::check_envelope, error::specs::Demand::outcome))]
fn check_envelope(bytes: &[u8]) -> Result<(), Error>
    ensures { result ≡ check_envelope bytes.now }
{
    if !checksum_fits(bytes) {
        return Err(Error::Corrupt(reason::ROOT_CHECKSUM));
    }
    if !octets::starts_with(bytes, &Root::MAGIC) {
        return Err(Error::Corrupt(reason::ROOT_MAGIC));
    }
    if octets::u32_at(bytes, Root::REVISION_OFFSET) != Root::REVISION {
        return Err(Error::UnsupportedFormat);
    }
    if !are_sizes_right(bytes) {
        return Err(Error::Corrupt(reason::ROOT_ENVELOPE));
    }
    Ok(())
}

#[tactic(auto, unfolding(crate::specs::Root::check_text, error::specs::Demand::outcome))]
fn check_text(text: &[u8]) -> Result<(), Error>
    ensures { result ≡ check_text text.now }
{
    if !utf8::is_utf8(text) {
        return Err(Error::Corrupt(reason::ROOT_LABEL_UTF_8));
    }
    if !is_label(text) {
        return Err(Error::Corrupt(reason::INVALID_ROOT_LABEL));
    }
    Ok(())
}

// The label's length, the zeros behind it, and its text. A label of length 0 is no label, and has no rules to meet.
#[tactic(auto, unfolding(crate::specs::Root::check_label, crate::specs::Root::label_padding, error::specs::Demand::outcome))]
fn check_label(bytes: &[u8]) -> Result<(), Error>
    ensures { result ≡ check_label bytes.now }
{
    let n = usize::from(octets::u16_at(bytes, Root::LABEL_LENGTH_OFFSET));
    if Label::MAX_BYTES < n {
        return Err(Error::Corrupt(reason::ROOT_LABEL_LENGTH));
    }
    let end = Root::LABEL_OFFSET + n;
    if !octets::all_zero(octets::span(bytes, end, Root::CHECKSUM_OFFSET)) {
        return Err(Error::Corrupt(reason::ROOT_LABEL_PADDING));
    }
    if n == 0 {
        return Ok(());
    }
    check_text(label_text(bytes))
}

#[tactic(auto, unfolding(crate::specs::Root::check_identity, error::specs::Demand::outcome))]
fn check_identity(bytes: &[u8], slot: u64, blocks: u64) -> Result<(), Error>
    ensures { result ≡ check_identity bytes.now slot blocks }
{
    if octets::u64_at(bytes, Root::FEATURES_OFFSET) != 0
        || octets::u32_at(bytes, Root::PROFILE_OFFSET) != Root::PROFILE
        || octets::u32_at(bytes, Root::STATE_OFFSET) != 0
    {
        return Err(Error::UnsupportedFormat);
    }
    if octets::u64_at(bytes, Root::SELF_BLOCK_OFFSET) != slot
        || octets::u64_at(bytes, Root::BLOCKS_OFFSET) != blocks
    {
        return Err(Error::Corrupt(reason::ROOT_IDENTITY_OR_GEOMETRY));
    }
    if octets::u64_at(bytes, Root::RESERVE_OFFSET) != Root::MAINTENANCE_RESERVE {
        return Err(Error::Corrupt(reason::ROOT_MAINTENANCE_RESERVE));
    }
    Ok(())
}

// Every check that comes before `validate_root_fields`.
#[tactic(auto, unfolding(crate::specs::Root::check_block, error::specs::Demand::outcome))]
fn check_block(bytes: &[u8], slot: u64, blocks: u64) -> Result<(), Error>
    ensures { result ≡ check_block bytes.now slot blocks }
{
    check_place(bytes, slot, blocks)?;
    check_envelope(bytes)?;
    check_label(bytes)?;
    check_identity(bytes, slot, blocks)
}

#[tactic(auto, unfolding(crate::specs::Root::label_text))]
fn label_text(bytes: &[u8]) -> &[u8]
    ensures { result.now ≡ label_text bytes.now }
{
    let n = usize::from(octets::u16_at(bytes, Root::LABEL_LENGTH_OFFSET));
    octets::span(bytes, Root::LABEL_OFFSET, Root::LABEL_OFFSET + n)
}

// Kept, here and in `root_of`: a fact of two functions; as `&[u8; 4096]` it would be asked for again in `decode`, which is lent a slice.
#[tactic(auto, using(crate::proofs::Text::uuid_part))]
fn uuid_at(bytes: &[u8]) -> [u8; 16]
    requires { length bytes.now ≡ 4096 }
    ensures { result ≡ part bytes.now 24 16 }
{
    octets::padded::<16>(&bytes[Root::UUID_OFFSET..Root::SELF_BLOCK_OFFSET])
}

#[tactic(auto, using(crate::proofs::Text::text_short))]
fn label_in(bytes: &[u8]) -> Option<Label>
    requires { u16_at bytes.now 184 ≤ 255 }
    ensures { result ≡ label_in bytes.now }
{
    if octets::u16_at(bytes, Root::LABEL_LENGTH_OFFSET) == 0 {
        return None;
    }
    Some(label_of(label_text(bytes)))
}

#[tactic(auto, unfolding(crate::specs::Root::root_of))]
fn root_of(bytes: &[u8]) -> Root
    requires { (length bytes.now ≡ 4096) × (u16_at bytes.now 184 ≤ 255) }
    ensures { result ≡ root_of bytes.now }
{
    let label = label_in(bytes);
    let uuid = uuid_at(bytes);
    let catalog = volume::ref_at(bytes, Root::CATALOG_OFFSET);
    let allocation = volume::ref_at(bytes, Root::ALLOCATION_OFFSET);
    let cleanup = volume::ref_at(bytes, Root::CLEANUP_OFFSET);
    let workspace = volume::ref_at(bytes, Root::WORKSPACE_OFFSET);
    Root {
        label,
        uuid,
        generation: octets::u64_at(bytes, Root::GENERATION_OFFSET),
        blocks: octets::u64_at(bytes, Root::BLOCKS_OFFSET),
        catalog,
        allocation,
        cleanup,
        next_object: octets::u64_at(bytes, Root::NEXT_OBJECT_OFFSET),
        free_blocks: octets::u64_at(bytes, Root::FREE_BLOCKS_OFFSET),
        next_job: octets::u64_at(bytes, Root::NEXT_JOB_OFFSET),
        workspace,
        workspace_cursor: octets::u64_at(bytes, Root::WORKSPACE_CURSOR_OFFSET),
    }
}

// Kept, here and below: the root, the blocks and the mode by themselves: of a struct with a lent root each clause would say `self.entry.root.now` for `root.now`.
#[tactic(auto, unfolding(crate::specs::Fields::check_general, error::specs::Demand::outcome))]
fn check_general(root: &Root, slot: u64, blocks: u64, mode: Validation) -> Result<(), Error>
    ensures { result ≡ check_general root.now slot blocks mode }
{
    volume::validate_blocks(blocks, mode)?;
    volume::validate_root_slot(slot, blocks, mode)?;
    volume::validate_uuid(&root.uuid, mode)?;
    if root.generation == 0 || root.blocks != blocks {
        return Err(violation(mode, reason::INVALID_ROOT_GENERATION_OR_GEOMETRY));
    }
    if volume::groups_of(blocks) <= root.workspace_cursor {
        return Err(violation(mode, reason::WORKSPACE_SCAN_CURSOR_EXCEEDS_GEOMETRY));
    }
    Ok(())
}

// The references of the three trees, each by itself.
#[tactic(auto, unfolding(crate::specs::Fields::check_refs, error::specs::Demand::outcome))]
fn check_refs(root: &Root, blocks: u64, mode: Validation) -> Result<(), Error>
    ensures { result ≡ check_refs root.now blocks mode }
{
    volume::validate_tree_ref(root.catalog, blocks, mode)?;
    volume::validate_tree_ref(root.allocation, blocks, mode)?;
    volume::validate_tree_ref(root.cleanup, blocks, mode)
}

#[tactic(auto, unfolding(crate::specs::Fields::check_workspace, error::specs::Demand::outcome))]
fn check_workspace(root: &Root, blocks: u64, mode: Validation) -> Result<(), Error>
    ensures { result ≡ check_workspace root.now blocks mode }
{
    volume::validate_page_ref(root.workspace, TreeKind::Workspace, blocks, mode)?;
    if !volume::is_bank_root(root.workspace.block, blocks)
        || root.generation < root.workspace.generation
    {
        return Err(violation(mode, reason::INVALID_WORKSPACE_ROOT));
    }
    Ok(())
}

// The three trees together.
#[tactic(auto, unfolding(crate::specs::Fields::check_trees, error::specs::Demand::outcome))]
fn check_trees(root: &Root, mode: Validation) -> Result<(), Error>
    ensures { result ≡ check_trees root.now mode }
{
    if root.catalog.block == root.allocation.block
        || root.catalog.block == root.cleanup.block
        || root.allocation.block == root.cleanup.block
    {
        return Err(violation(mode, reason::ROOT_TREE_REFERENCES_SHARE_A_BLOCK));
    }
    if root.generation < root.catalog.generation
        || root.generation < root.allocation.generation
        || root.generation < root.cleanup.generation
    {
        return Err(violation(mode, reason::ROOT_TREE_GENERATION_IS_NEWER_THAN_ROOT));
    }
    Ok(())
}

#[tactic(auto, unfolding(crate::specs::Fields::check_numbers, error::specs::Demand::outcome))]
fn check_numbers(root: &Root, blocks: u64, mode: Validation) -> Result<(), Error>
    ensures { result ≡ check_numbers root.now blocks mode }
{
    if !(2..=volume::MAX_ID).contains(&root.next_object) {
        return Err(violation(mode, reason::INVALID_NEXT_OBJECT_ID));
    }
    if !(1..=volume::MAX_ID).contains(&root.next_job) {
        return Err(violation(mode, reason::INVALID_NEXT_CLEANUP_JOB_ID));
    }
    if blocks.saturating_sub(volume::RESERVED_TOTAL_BLOCKS + 3) < root.free_blocks {
        return Err(violation(mode, reason::FREE_BLOCK_COUNT_EXCEEDS_GEOMETRY));
    }
    Ok(())
}

#[tactic(auto, unfolding(crate::specs::Fields::validate_root_fields, error::specs::Demand::outcome))]
pub fn validate_root_fields(
    root: &Root,
    slot: u64,
    blocks: u64,
    mode: Validation,
) -> Result<(), Error>
    ensures answer { result ≡ validate_root_fields root.now slot blocks mode }
    ensures words { check_words result ≡ check_words (validate_root_fields root.now slot blocks mode) }
{
    check_general(root, slot, blocks, mode)?;
    check_refs(root, blocks, mode)?;
    check_workspace(root, blocks, mode)?;
    check_trees(root, mode)?;
    check_numbers(root, blocks, mode)
}

impl Root {
    pub const BYTES: usize = 4096;

    pub const MAGIC: [u8; 8] = *b"CFSXROOT";

    pub const REVISION: u32 = 1;

    pub const PROFILE: u32 = 2;

    pub const MAINTENANCE_RESERVE: u64 = 16384;

    // Where each field stands.
    pub const REVISION_OFFSET: usize = 8;

    pub const RECORD_BYTES_OFFSET: usize = 12;

    pub const ALLOCATION_BYTES_OFFSET: usize = 16;

    pub const UNIT_BYTES_OFFSET: usize = 20;

    pub const UUID_OFFSET: usize = 24;

    pub const SELF_BLOCK_OFFSET: usize = 40;

    pub const GENERATION_OFFSET: usize = 48;

    pub const BLOCKS_OFFSET: usize = 56;

    pub const CATALOG_OFFSET: usize = 64;

    pub const ALLOCATION_OFFSET: usize = 80;

    pub const CLEANUP_OFFSET: usize = 96;

    pub const NEXT_OBJECT_OFFSET: usize = 112;

    pub const FREE_BLOCKS_OFFSET: usize = 120;

    pub const FEATURES_OFFSET: usize = 128;

    pub const PROFILE_OFFSET: usize = 136;

    pub const STATE_OFFSET: usize = 140;

    pub const RESERVE_OFFSET: usize = 144;

    pub const NEXT_JOB_OFFSET: usize = 152;

    pub const WORKSPACE_OFFSET: usize = 160;

    pub const WORKSPACE_CURSOR_OFFSET: usize = 176;

    pub const LABEL_LENGTH_OFFSET: usize = 184;

    pub const LABEL_OFFSET: usize = 186;

    pub const CHECKSUM_OFFSET: usize = 4092;

    // The root in the slot of a volume of so many blocks, read from the slot's block.
    #[tactic(auto, using(crate::proofs::Decode::block_size, crate::proofs::Decode::block_label), unfolding(crate::specs::Root::root_decode, error::specs::Demand::outcome))]
    pub fn decode(bytes: &[u8], slot: u64, blocks: u64) -> Result<Root, Error>
        ensures answer { result ≡ root_decode bytes.now slot blocks }
        ensures words { root_words result ≡ root_words (root_decode bytes.now slot blocks) }
        ensures text { root_text result ≡ root_text (root_decode bytes.now slot blocks) }
    {
        check_block(bytes, slot, blocks)?;
        let root = root_of(bytes);
        validate_root_fields(&root, slot, blocks, Validation::Disk)?;
        Ok(root)
    }
}

#[tactic(auto, using(crate::proofs::Same::root_same), unfolding(crate::specs::Select::select_pair, crate::specs::Select::same_root, error::specs::Demand::outcome))]
fn select_pair(a: Root, b: Root) -> Result<Selected, Error>
    ensures { result ≡ select_pair a b }
{
    if a.uuid != b.uuid {
        return Err(Error::Corrupt(reason::ROOT_UUIDS_CONFLICT));
    }
    if a.generation == b.generation && a != b {
        return Err(Error::Corrupt(reason::SAME_GENERATION_ROOTS_CONFLICT));
    }
    if a.generation < b.generation {
        return Ok(Selected { which: 2, root: b });
    }
    Ok(Selected { which: 1, root: a })
}

// The current root of the two slots' roots.
pub fn select_root(a: Option<Root>, b: Option<Root>) -> Result<Selected, Error>
    ensures answer { result ≡ select_root a b }
    ensures words { choice_words result ≡ choice_words (select_root a b) }
{
    match (a, b) {
        (None, None) => Err(Error::Corrupt(reason::NEITHER_CURRENT_ROOT_IS_VALID)),
        (Some(root), None) => Ok(Selected { which: 1, root }),
        (None, Some(root)) => Ok(Selected { which: 2, root }),
        (Some(a), Some(b)) => select_pair(a, b),
    }
}

// A corrupt root counts as none; any other refusal is passed on.
pub fn supported_root(root: Result<Root, Error>) -> Result<Option<Root>, Error>
    ensures answer { result ≡ supported_root root }
    ensures words { supported_words result ≡ supported_words (supported_root root) }
{
    match root {
        Err(Error::Corrupt(_)) => Ok(None),
        _ => Ok(Some(root?)),
    }
}

// The current root of two slots' blocks. A refusal that `supported_root` passed on is the answer, the first's before the second's.
pub fn choose_root(
    a: Result<Option<Root>, Error>,
    b: Result<Option<Root>, Error>,
) -> Result<Selected, Error>
    ensures answer { result ≡ choose_root a b }
    ensures words { choice_words result ≡ choice_words (choose_root a b) }
{
    select_root(a?, b?)
}
