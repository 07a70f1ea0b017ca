// Records of every tree: allocation groups, cleanup, workspace runs, leaf records and internal records. Document 01, section 5.
#![tactic(auto)]

ghost use Rattle.std.specs.Prelude.{◌≡◌, ◌≤◌, length};
ghost use Rattle.error.specs.Answer.{check_words, number_words};
ghost use Rattle.record.specs.Allocation.{validate_group_index, block_taken, taken_between, reserved_taken, validate_allocation_group};
ghost use Rattle.record.specs.Inside.{bytes_full, catalog_leaf};
ghost use Rattle.record.specs.Cleanup.{validate_retirement, is_kind_range, validate_detached_tree, validate_orphan_marker, validate_cleanup_key_value, cleanup_number, cleanup_block};
ghost use Rattle.record.specs.Workspace.{validate_workspace_key, validate_workspace_run};
ghost use Rattle.record.specs.Internal.{allocation_internal_key, retirement_key, cleanup_internal_key, internal_key, validate_internal_record, child_words};
ghost use Rattle.record.specs.Leaf.{validate_leaf_record, leaf_record_blocks};

use error::{Error, Validation, reason};
use volume::{TreeKind, TreeRef};

// Bytes of a group's bitmap: 16,384 bits.
pub const ALLOCATION_GROUP_BYTES: usize = 2048;

// Largest record, with the four bytes of its two lengths.
pub const MAX_RECORD_BYTES: usize = 3072;

// A group's number against the volume's count of groups; the caller says the two reasons.
#[tactic(auto, unfolding(crate::specs::Allocation::validate_group_index, error::specs::Demand::outcome))]
fn validate_group_index(
    group: u64,
    blocks: u64,
    uncounted: u16,
    outside: u16,
    mode: Validation,
) -> Result<(), Error>
    ensures { result ≡ validate_group_index group blocks uncounted outside mode }
{
    let Ok(count) = volume::allocation_group_count(blocks) else {
        return Err(error::violation(mode, uncounted));
    };
    if count <= group {
        return Err(error::violation(mode, outside));
    }
    Ok(())
}

// Whether the bit of a block is set in the bitmap of its group.
#[tactic(auto, using(crate::proofs::Taken::masked))]
fn block_taken(bitmap: &[u8; ALLOCATION_GROUP_BYTES], block: u64) -> bool
    ensures { result ≡ block_taken bitmap.now block }
{
    let bit = (block % volume::ALLOCATION_GROUP_BLOCKS) as usize;
    bitmap[bit / 8] & (1 << (bit % 8)) != 0
}

// Whether each block from start up to but not including end is taken, bit by bit.
fn bits_taken(bitmap: &[u8; ALLOCATION_GROUP_BYTES], start: u64, end: u64) -> bool
    ensures { result ≡ taken_between bitmap.now start end }
{
    (start..end).all(|block| block_taken(bitmap, block))
}

// Whether each of some bytes of the bitmap has its eight blocks taken.
fn bytes_full(bytes: &[u8]) -> bool
    ensures { result ≡ bytes_full bytes.now }
{
    bytes.iter().all(|&byte| byte == 255)
}

// The same as `bits_taken`; the bytes of the bitmap that lie wholly within the range are looked at as bytes.
fn taken_between(bitmap: &[u8; ALLOCATION_GROUP_BYTES], start: u64, end: u64) -> bool
    ensures { result ≡ taken_between bitmap.now start end }
{
    let first = start.div_ceil(8);
    let last = end / 8;
    if last <= first {
        return bits_taken(bitmap, start, end);
    }
    let at = first as usize % ALLOCATION_GROUP_BYTES;
    let Some(whole) = bitmap.get(at..at + (last - first) as usize) else {
        return bits_taken(bitmap, start, end);
    };
    if !bytes_full(whole) {
        return false;
    }
    if !bits_taken(bitmap, start, 8 * first) {
        return false;
    }
    bits_taken(bitmap, 8 * last, end)
}

// Whether the blocks of a group that can never be allocated are taken.
#[tactic(auto, unfolding(crate::specs::Allocation::reserved_taken))]
fn reserved_taken(bitmap: &[u8; ALLOCATION_GROUP_BYTES], group: u64, blocks: u64) -> bool
    ensures { result ≡ reserved_taken bitmap.now group blocks }
{
    let ranges = volume::reserved_group_blocks(group, blocks);
    taken_between(bitmap, ranges.low_start, ranges.low_end)
        && taken_between(bitmap, ranges.high_start, ranges.high_end)
}

// Check an allocation-group record.
#[tactic(auto, unfolding(crate::specs::Allocation::validate_allocation_group, error::specs::Demand::outcome))]
pub fn validate_allocation_group(
    key: &[u8],
    value: &[u8],
    blocks: u64,
    mode: Validation,
) -> Result<(), Error>
    ensures answer { result ≡ validate_allocation_group key.now value.now blocks mode }
    ensures words { check_words result ≡ check_words (validate_allocation_group key.now value.now blocks mode) }
{
    if key.len() != 8 {
        return Err(error::violation(mode, reason::INVALID_ALLOCATION_GROUP));
    }
    let Ok(bitmap) = <&[u8; ALLOCATION_GROUP_BYTES]>::try_from(value) else {
        return Err(error::violation(mode, reason::INVALID_ALLOCATION_GROUP));
    };
    let group = octets::big_at(key, 0);
    validate_group_index(
        group,
        blocks,
        reason::ALLOCATION_GROUP_INDEX,
        reason::ALLOCATION_GROUP_INDEX_OUT_OF_RANGE,
        mode,
    )?;
    if !reserved_taken(bitmap, group, blocks) {
        return Err(error::violation(mode, reason::RESERVED_ALLOCATION_BIT_IS_FREE));
    }
    Ok(())
}

// What a record of a page is held to: the volume's blocks, the page's generation, and who is told.
// Kept: the public functions take the three by themselves: a parameter of this type would ask a new thing of their callers.
#[derive(Clone, Copy)]
struct Context {
    blocks: u64,
    page_generation: u64,
    mode: Validation,
}

impl Context {
    // Check a retired run of blocks.
    #[tactic(auto, unfolding(crate::specs::Cleanup::validate_retirement, crate::specs::Cleanup::is_retirement_range, error::specs::Demand::outcome))]
    fn validate_retirement(self, key: &[u8], value: &[u8]) -> Result<(), Error>
        ensures { result ≡ validate_retirement key.now value.now self.blocks self.page_generation self.mode }
    {
        if key.len() != 17 || value.len() != 8 {
            return Err(error::violation(self.mode, reason::INVALID_RETIREMENT_RECORD));
        }
        let generation = octets::big_at(key, 1);
        let first = octets::big_at(key, 9);
        let count = u64::from(octets::u32_at(value, 0));
        if !volume::sum_fits(first, count) {
            return Err(error::violation(self.mode, reason::RETIREMENT_RANGE));
        }
        if !(1..=self.page_generation).contains(&generation)
            || count == 0
            || octets::u32_at(value, 4) != 0
            || !volume::is_nonreserved_run(first, count, self.blocks)
        {
            return Err(error::violation(self.mode, reason::INVALID_RETIREMENT_RANGE));
        }
        Ok(())
    }

    // Check a detached tree.
    #[tactic(auto, unfolding(crate::specs::Cleanup::validate_detached_tree, error::specs::Demand::outcome))]
    fn validate_detached_tree(self, key: &[u8], value: &[u8]) -> Result<(), Error>
        ensures { result ≡ validate_detached_tree key.now value.now self.blocks self.page_generation self.mode }
    {
        if key.len() != 9 || value.len() != 32 {
            return Err(error::violation(self.mode, reason::INVALID_DETACHED_TREE_JOB));
        }
        catalog::validate_owner_id(octets::big_at(key, 1), self.mode)?;
        catalog::validate_owner_id(octets::u64_at(value, 0), self.mode)?;
        if !is_kind_range(value) {
            return Err(error::violation(self.mode, reason::INVALID_DETACHED_TREE_KIND_RANGE));
        }
        let tree = volume::ref_at(value, 16);
        volume::validate_tree_ref(tree, self.blocks, self.mode)?;
        if self.page_generation < tree.generation {
            return Err(error::violation(self.mode, reason::DETACHED_TREE_REFERENCE_IS_NEWER));
        }
        Ok(())
    }

    // Check a retirement's key in an internal page.
    #[tactic(auto, unfolding(crate::specs::Internal::retirement_key, error::specs::Demand::outcome))]
    fn retirement_key(self, key: &[u8]) -> Result<(), Error>
        ensures { result ≡ retirement_key (cleanup_number key.now) (cleanup_block key.now) self.blocks self.page_generation self.mode }
    {
        let generation = octets::big_at(key, 1);
        if !(1..=self.page_generation).contains(&generation) {
            return Err(error::violation(self.mode, reason::INVALID_RETIREMENT_GENERATION));
        }
        if !volume::is_nonreserved_block(octets::big_at(key, 9), self.blocks) {
            return Err(error::violation(self.mode, reason::INVALID_RETIREMENT_BLOCK));
        }
        Ok(())
    }

    // Check a key of an internal page of the cleanup tree.
    #[tactic(auto, unfolding(crate::specs::Internal::cleanup_internal_key))]
    fn cleanup_internal_key(self, key: &[u8]) -> Result<(), Error>
        ensures { result ≡ cleanup_internal_key key.now self.blocks self.page_generation self.mode }
    {
        match octets::byte_at(key, 0) {
            1 if key.len() == 17 => self.retirement_key(key),
            2 | 3 if key.len() == 9 => catalog::validate_owner_id(
                octets::big_at(key, 1),
                self.mode,
            ),
            _ => Err(error::violation(self.mode, reason::INVALID_CLEANUP_INTERNAL_KEY)),
        }
    }

    // Check a key of an internal page, by the tree's kind.
    #[tactic(auto, unfolding(crate::specs::Internal::internal_key))]
    fn internal_key(self, kind: TreeKind, key: &[u8]) -> Result<(), Error>
        ensures { result ≡ internal_key kind key.now self.blocks self.page_generation self.mode }
    {
        match kind {
            TreeKind::Catalog => {
                catalog::validate_catalog_key(key, self.mode)?;
                Ok(())
            }
            TreeKind::Allocation => allocation_internal_key(key, self.blocks, self.mode),
            TreeKind::Cleanup => self.cleanup_internal_key(key),
            TreeKind::Workspace => validate_workspace_key(key, self.blocks, self.mode),
        }
    }
}

// Whether the kinds of a detached tree run from low to high within 1 to 4, with zeros behind them.
#[tactic(auto, unfolding(crate::specs::Cleanup::is_kind_range))]
fn is_kind_range(value: &[u8]) -> bool
    requires { 32 ≤ length value.now }
    ensures { result ≡ is_kind_range value.now }
{
    let low = value[8];
    let high = value[9];
    (1..=4).contains(&low)
        & (1..=4).contains(&high)
        & (low <= high)
        & octets::all_zero(&value[10..16])
}

// Check an orphan marker.
#[tactic(auto, unfolding(crate::specs::Cleanup::validate_orphan_marker, error::specs::Demand::outcome))]
fn validate_orphan_marker(key: &[u8], value: &[u8], mode: Validation) -> Result<(), Error>
    ensures { result ≡ validate_orphan_marker key.now value.now mode }
{
    if key.len() != 9 || !value.is_empty() {
        return Err(error::violation(mode, reason::INVALID_ORPHAN_MARKER));
    }
    catalog::validate_owner_id(octets::big_at(key, 1), mode)
}

// Check a record of the cleanup tree.
// Kept: the kind is the byte that is stored, here and in `cleanup_internal_key`: an enum would be made of it by a match like these two.
#[tactic(auto, unfolding(crate::specs::Cleanup::validate_cleanup_key_value, crate::specs::Cleanup::cleanup_record, error::specs::Demand::outcome))]
pub fn validate_cleanup_key_value(
    key: &[u8],
    value: &[u8],
    blocks: u64,
    page_generation: u64,
    mode: Validation,
) -> Result<(), Error>
    ensures answer { result ≡ validate_cleanup_key_value key.now value.now blocks page_generation mode }
    ensures words { check_words result ≡ check_words (validate_cleanup_key_value key.now value.now blocks page_generation mode) }
{
    if key.len() != 9 && key.len() != 17 {
        return Err(error::violation(mode, reason::INVALID_CLEANUP_KEY_LENGTH));
    }
    let context = Context {
        blocks,
        page_generation,
        mode,
    };
    match octets::byte_at(key, 0) {
        1 => context.validate_retirement(key, value),
        2 => context.validate_detached_tree(key, value),
        3 => validate_orphan_marker(key, value, mode),
        _ => Err(error::violation(mode, reason::UNKNOWN_CLEANUP_RECORD_KIND)),
    }
}

// Check the key of a workspace record: a block that is not reserved.
#[tactic(auto, unfolding(crate::specs::Workspace::validate_workspace_key, error::specs::Demand::outcome))]
pub fn validate_workspace_key(key: &[u8], blocks: u64, mode: Validation) -> Result<(), Error>
    ensures answer { result ≡ validate_workspace_key key.now blocks mode }
    ensures words { check_words result ≡ check_words (validate_workspace_key key.now blocks mode) }
{
    if key.len() != 8 {
        return Err(error::violation(mode, reason::WORKSPACE_KEY_LENGTH));
    }
    if !volume::is_nonreserved_block(octets::big_at(key, 0), blocks) {
        return Err(error::violation(mode, reason::INVALID_WORKSPACE_BLOCK));
    }
    Ok(())
}

// Check a workspace run. The blocks that are not reserved are one interval, so its first and last are enough.
#[tactic(auto, unfolding(crate::specs::Workspace::validate_workspace_run, error::specs::Demand::outcome))]
pub fn validate_workspace_run(
    key: &[u8],
    value: &[u8],
    blocks: u64,
    mode: Validation,
) -> Result<(), Error>
    ensures answer { result ≡ validate_workspace_run key.now value.now blocks mode }
    ensures words { check_words result ≡ check_words (validate_workspace_run key.now value.now blocks mode) }
{
    validate_workspace_key(key, blocks, mode)?;
    if value.len() != 4 {
        return Err(error::violation(mode, reason::WORKSPACE_RUN_LENGTH));
    }
    let first = octets::big_at(key, 0);
    let count = u64::from(octets::u32_at(value, 0));
    let invalid = error::violation(mode, reason::INVALID_WORKSPACE_RUN_LENGTH);
    let last = count
        .checked_sub(1)
        .and_then(|span| first.checked_add(span))
        .ok_or(invalid)?;
    if !volume::is_nonreserved_block(last, blocks) {
        return Err(error::violation(mode, reason::WORKSPACE_RUN_LEAVES_THE_VOLUME));
    }
    Ok(())
}

// Check a key of an internal page of the allocation tree.
#[tactic(auto, unfolding(crate::specs::Internal::allocation_internal_key, error::specs::Demand::outcome))]
fn allocation_internal_key(key: &[u8], blocks: u64, mode: Validation) -> Result<(), Error>
    ensures { result ≡ allocation_internal_key key.now blocks mode }
{
    if key.len() != 8 {
        return Err(error::violation(mode, reason::INVALID_ALLOCATION_INTERNAL_KEY));
    }
    validate_group_index(
        octets::big_at(key, 0),
        blocks,
        reason::ALLOCATION_INTERNAL_KEY,
        reason::ALLOCATION_INTERNAL_KEY_RANGE,
        mode,
    )
}

// Check a record of an internal page; the page that it names.
#[tactic(auto, unfolding(crate::specs::Internal::validate_internal_record, error::specs::Demand::outcome))]
pub fn validate_internal_record(
    kind: TreeKind,
    key: &[u8],
    value: &[u8],
    blocks: u64,
    page_generation: u64,
    mode: Validation,
) -> Result<TreeRef, Error>
    ensures answer { result ≡ validate_internal_record kind key.now value.now blocks page_generation mode }
    ensures words { child_words result ≡ child_words (validate_internal_record kind key.now value.now blocks page_generation mode) }
{
    let context = Context {
        blocks,
        page_generation,
        mode,
    };
    context.internal_key(kind, key)?;
    if value.len() != 16 {
        return Err(error::violation(mode, reason::INTERNAL_VALUE_IS_NOT_A_TREE_REFERENCE));
    }
    let child = volume::ref_at(value, 0);
    volume::validate_page_ref(child, kind, blocks, mode)?;
    if page_generation < child.generation {
        return Err(error::violation(mode, reason::CHILD_GENERATION_IS_NEWER_THAN_PARENT));
    }
    Ok(child)
}

// Check a record of the catalog, by its kind; the data blocks that it counts.
// Kept: the byte that `validate_catalog_key` promises: an enum would be made of it by a match like this one, with the same last arm.
#[tactic(auto, using(crate::proofs::Answered::kind_is, crate::proofs::Answered::extent_again), unfolding(crate::specs::Inside::catalog_leaf, crate::specs::Leaf::uncounted_record, error::specs::Demand::outcome))]
fn catalog_leaf(key: &[u8], value: &[u8], blocks: u64, mode: Validation) -> Result<u64, Error>
    ensures { result ≡ catalog_leaf key.now value.now blocks mode }
{
    match catalog::validate_catalog_key(key, mode)? {
        1 => catalog::validate_inode(value, blocks, mode)?,
        2 => catalog::validate_directory_entry(value, mode)?,
        3 => return catalog::validate_extent(key, value, blocks, mode),
        4 => group::validate_checksum_group(key, value, mode)?,
        _ => return Err(error::violation(mode, reason::UNKNOWN_CATALOG_RECORD_KIND)),
    }
    Ok(0)
}

// Check a record of a leaf page; the data blocks that it counts.
#[tactic(auto, unfolding(crate::specs::Leaf::validate_leaf_record, crate::specs::Inside::catalog_leaf, error::specs::Demand::outcome))]
pub fn validate_leaf_record(
    kind: TreeKind,
    key: &[u8],
    value: &[u8],
    blocks: u64,
    page_generation: u64,
    mode: Validation,
) -> Result<u64, Error>
    ensures answer { result ≡ validate_leaf_record kind key.now value.now blocks page_generation mode }
    ensures words { number_words result ≡ number_words (validate_leaf_record kind key.now value.now blocks page_generation mode) }
{
    match kind {
        TreeKind::Catalog => return catalog_leaf(key, value, blocks, mode),
        TreeKind::Allocation => validate_allocation_group(key, value, blocks, mode)?,
        TreeKind::Cleanup => validate_cleanup_key_value(key, value, blocks, page_generation, mode)?,
        TreeKind::Workspace => validate_workspace_run(key, value, blocks, mode)?,
    }
    Ok(0)
}

// The data blocks that one leaf record counts, after the checks of its size.
#[tactic(auto, unfolding(crate::specs::Leaf::leaf_record_blocks, error::specs::Demand::outcome))]
pub fn leaf_record_blocks(
    kind: TreeKind,
    key: &[u8],
    value: &[u8],
    blocks: u64,
    generation: u64,
) -> Result<u64, Error>
    ensures answer { result ≡ leaf_record_blocks kind key.now value.now blocks generation }
    ensures words { number_words result ≡ number_words (leaf_record_blocks kind key.now value.now blocks generation) }
{
    if !(1..=1024).contains(&key.len()) {
        return Err(Error::InvalidInput(reason::INVALID_RECORD_KEY_LENGTH));
    }
    if MAX_RECORD_BYTES < 4 + key.len() + value.len() {
        return Err(Error::InvalidInput(reason::RECORD_IS_TOO_LARGE));
    }
    validate_leaf_record(kind, key, value, blocks, generation, Validation::Input)
}
