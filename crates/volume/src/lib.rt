// Volume blocks: which block numbers mean what, and the checks of references. Document 01, section 2.
#![tactic(auto)]

ghost use Rattle.std.specs.Prelude.{◌≡◌};
ghost use Rattle.error.specs.Answer.{check_words, number_words};
ghost use Rattle.volume.specs.Numbers.{sum_fits};
ghost use Rattle.volume.specs.Blocks.{is_nonreserved_block, is_nonreserved_run, is_bank_root, is_bank_block, is_root_slot};
ghost use Rattle.error.specs.Demand.{demands};
ghost use Rattle.volume.specs.References.{ref_demands, tree_kind_value, tree_kind_of, ref_at, validate_blocks, validate_tree_ref, validate_workspace_ref, validate_page_ref, validate_root_slot, validate_uuid};
ghost use Rattle.volume.specs.Groups.{groups_of, allocation_group_count, group_start, group_end, reserved_group_blocks};

use error::{Error, Validation, reason};

pub const RESERVED_BLOCKS: u64 = 512;

pub const RESERVED_TOTAL_BLOCKS: u64 = 1024;

pub const ALLOCATION_GROUP_BLOCKS: u64 = 16384;

// Object and job numbers end below it: it marks that there are no more.
pub const MAX_ID: u64 = 0x7FFF_FFFF_FFFF_FFFF;

// A page's block and the generation that it was written in.
#[derive(Clone, Copy, Debug, PartialEq, Eq)]
pub struct TreeRef {
    pub block: u64,
    pub generation: u64,
}

// The tree that a page belongs to, as 01, section 4, numbers them.
#[derive(Clone, Copy, Debug, PartialEq, Eq)]
pub enum TreeKind {
    Catalog = 1,
    Allocation = 2,
    Cleanup = 3,
    Workspace = 4,
}

// Two ranges of blocks, each from its start up to but not including its end.
// Kept: four numbers, as document 01 gives them; the library's Range isn't Copy, and this type is.
#[derive(Clone, Copy, Debug, PartialEq, Eq)]
pub struct GroupBlocks {
    pub low_start: u64,
    pub low_end: u64,
    pub high_start: u64,
    pub high_end: u64,
}

// Kept: the paper's number by a name, where `kind as u8` would stand in callers.
pub fn tree_kind_value(kind: TreeKind) -> u8
    ensures { result ≡ tree_kind_value kind }
{
    kind as u8
}

// The tree kind of a number that was tested to be one.
// Kept: no `TryFrom`: this function promises an answer of every number, 4's for 0 and for one above it, and may refuse none.
#[tactic(auto, unfolding(crate::specs::References::tree_kind_of))]
pub fn tree_kind_of(value: u64) -> TreeKind
    ensures { result ≡ tree_kind_of value }
{
    match value {
        1 => TreeKind::Catalog,
        2 => TreeKind::Allocation,
        3 => TreeKind::Cleanup,
        _ => TreeKind::Workspace,
    }
}

// The reference that stands at a place of stored bytes.
pub fn ref_at(bytes: &[u8], at: usize) -> TreeRef
    ensures { result ≡ ref_at bytes.now at }
{
    TreeRef {
        block: octets::u64_at(bytes, at),
        generation: octets::u64_at(octets::tail(bytes, at), 8),
    }
}

// Whether a sum stays within 64 bits.
pub fn sum_fits(a: u64, b: u64) -> bool
    ensures { result ≡ sum_fits a b }
{
    a.checked_add(b).is_some()
}

#[tactic(auto, unfolding(crate::specs::Blocks::is_nonreserved_block))]
pub fn is_nonreserved_block(block: u64, blocks: u64) -> bool
    ensures { result ≡ is_nonreserved_block block blocks }
{
    RESERVED_TOTAL_BLOCKS <= blocks && (RESERVED_BLOCKS..blocks - RESERVED_BLOCKS).contains(&block)
}

// Whether so many blocks from the first on are non-reserved.
#[tactic(auto, unfolding(crate::specs::Blocks::is_nonreserved_run, crate::specs::Blocks::is_nonreserved_block))]
pub fn is_nonreserved_run(first: u64, count: u64, blocks: u64) -> bool
    ensures { result ≡ is_nonreserved_run first count blocks }
{
    is_nonreserved_block(first, blocks)
        && count <= blocks.saturating_sub(RESERVED_BLOCKS).saturating_sub(first)
}

// Whether the block is the root of either workspace bank.
#[tactic(auto, unfolding(crate::specs::Blocks::is_bank_root))]
pub fn is_bank_root(block: u64, blocks: u64) -> bool
    ensures { result ≡ is_bank_root block blocks }
{
    RESERVED_TOTAL_BLOCKS <= blocks && (block == 32 || block == blocks - 96)
}

// Whether the block lies in either workspace bank.
#[tactic(auto, unfolding(crate::specs::Blocks::is_bank_block))]
pub fn is_bank_block(block: u64, blocks: u64) -> bool
    ensures { result ≡ is_bank_block block blocks }
{
    RESERVED_TOTAL_BLOCKS <= blocks
        && ((32..=95).contains(&block) || (blocks - 96..=blocks - 33).contains(&block))
}

// Whether the block is either slot of a root.
#[tactic(auto, unfolding(crate::specs::Blocks::is_root_slot))]
fn is_root_slot(slot: u64, blocks: u64) -> bool
    ensures { result ≡ is_root_slot slot blocks }
{
    RESERVED_TOTAL_BLOCKS <= blocks && (slot == 256 || slot == blocks - 257)
}

#[tactic(auto, unfolding(crate::specs::References::validate_blocks, error::specs::Demand::outcome))]
pub fn validate_blocks(blocks: u64, mode: Validation) -> Result<(), Error>
    ensures answer { result ≡ validate_blocks blocks mode }
    ensures words { check_words result ≡ check_words (validate_blocks blocks mode) }
{
    if blocks < RESERVED_TOTAL_BLOCKS {
        return Err(error::violation(mode, reason::DEVICE_HAS_NO_USABLE_BLOCK_RANGE));
    }
    Ok(())
}

// A reference to a page whose block lies where pages of its tree do, or not: then, and where it names no generation, a violation with the reason.
// Kept: reference, blocks and mode: the public functions take the three by themselves; a struct made in each of them would be taken apart here.
#[tactic(auto, unfolding(error::specs::Demand::outcome))]
fn validate_ref(
    reference: TreeRef,
    blocks: u64,
    mode: Validation,
    lies: bool,
    why: u16,
) -> Result<(), Error>
    ensures { result ≡ demands (ref_demands reference blocks mode lies why) }
{
    validate_blocks(blocks, mode)?;
    if reference.generation == 0 || !lies {
        return Err(error::violation(mode, why));
    }
    Ok(())
}

#[tactic(auto, unfolding(crate::specs::References::validate_tree_ref))]
pub fn validate_tree_ref(reference: TreeRef, blocks: u64, mode: Validation) -> Result<(), Error>
    ensures answer { result ≡ validate_tree_ref reference blocks mode }
    ensures words { check_words result ≡ check_words (validate_tree_ref reference blocks mode) }
{
    let lies = is_nonreserved_block(reference.block, blocks);
    validate_ref(
        reference,
        blocks,
        mode,
        lies,
        reason::INVALID_TREE_REFERENCE,
    )
}

#[tactic(auto, unfolding(crate::specs::References::validate_workspace_ref))]
fn validate_workspace_ref(reference: TreeRef, blocks: u64, mode: Validation) -> Result<(), Error>
    ensures { result ≡ validate_workspace_ref reference blocks mode }
{
    let lies = is_bank_block(reference.block, blocks);
    validate_ref(
        reference,
        blocks,
        mode,
        lies,
        reason::INVALID_WORKSPACE_PAGE_REFERENCE,
    )
}

pub fn validate_page_ref(
    reference: TreeRef,
    kind: TreeKind,
    blocks: u64,
    mode: Validation,
) -> Result<(), Error>
    ensures answer { result ≡ validate_page_ref reference kind blocks mode }
    ensures words { check_words result ≡ check_words (validate_page_ref reference kind blocks mode) }
{
    match kind {
        TreeKind::Catalog | TreeKind::Allocation | TreeKind::Cleanup => validate_tree_ref(
            reference, blocks, mode,
        ),
        TreeKind::Workspace => validate_workspace_ref(reference, blocks, mode),
    }
}

#[tactic(auto, unfolding(crate::specs::References::validate_root_slot, error::specs::Demand::outcome))]
pub fn validate_root_slot(slot: u64, blocks: u64, mode: Validation) -> Result<(), Error>
    ensures answer { result ≡ validate_root_slot slot blocks mode }
    ensures words { check_words result ≡ check_words (validate_root_slot slot blocks mode) }
{
    validate_blocks(blocks, mode)?;
    if !is_root_slot(slot, blocks) {
        return Err(error::violation(mode, reason::INVALID_ROOT_SLOT));
    }
    Ok(())
}

#[tactic(auto, unfolding(crate::specs::References::validate_uuid, error::specs::Demand::outcome))]
pub fn validate_uuid(uuid: &[u8; 16], mode: Validation) -> Result<(), Error>
    ensures answer { result ≡ validate_uuid uuid.now mode }
    ensures words { check_words result ≡ check_words (validate_uuid uuid.now mode) }
{
    if octets::all_zero(uuid) {
        return Err(error::violation(mode, reason::ZERO_VOLUME_UUID));
    }
    Ok(())
}

// blocks / 16,384, rounded up; no sum is made that could pass 64 bits.
#[tactic(auto, unfolding(crate::specs::Groups::groups_of))]
pub fn groups_of(blocks: u64) -> u64
    ensures { result ≡ groups_of blocks }
{
    blocks.div_ceil(ALLOCATION_GROUP_BLOCKS)
}

// How many allocation groups the blocks fill, refused as in the Rust where its sum would pass 64 bits.
#[tactic(auto, unfolding(crate::specs::Groups::allocation_group_count, error::specs::Demand::outcome))]
pub fn allocation_group_count(blocks: u64) -> Result<u64, Error>
    ensures answer { result ≡ allocation_group_count blocks }
    ensures words { number_words result ≡ number_words (allocation_group_count blocks) }
{
    if !sum_fits(blocks, ALLOCATION_GROUP_BLOCKS - 1) {
        return Err(Error::Corrupt(reason::ALLOCATION_GROUP_RANGE));
    }
    Ok(groups_of(blocks))
}

fn group_start(group: u64) -> u64
    ensures { result ≡ group_start group }
{
    group.saturating_mul(ALLOCATION_GROUP_BLOCKS)
}

fn group_end(group: u64) -> u64
    ensures { result ≡ group_end group }
{
    group_start(group).saturating_add(ALLOCATION_GROUP_BLOCKS)
}

// The blocks of a group that can never be allocated: those in the reserved bands at both ends of the volume and those past its end.
pub fn reserved_group_blocks(group: u64, blocks: u64) -> GroupBlocks
    ensures { result ≡ reserved_group_blocks group blocks }
{
    let start = group_start(group);
    let end = group_end(group);
    GroupBlocks {
        low_start: start,
        low_end: end.min(RESERVED_BLOCKS),
        high_start: blocks.saturating_sub(RESERVED_BLOCKS).max(start),
        high_end: end,
    }
}
