// Records of the catalog: owner numbers, keys, timestamps, inodes, directory entries, extents. Document 01, section 5.
#![tactic(auto)]

ghost use Rattle.std.specs.Prelude.{◌≡◌, ◌≤◌, length};
ghost use Rattle.error.specs.Answer.{check_words, number_words};
ghost use Rattle.catalog.specs.Keys.{validate_owner_id, is_catalog_key, validate_catalog_key};
ghost use Rattle.catalog.specs.Times.{validate_timestamp_range, signed_number, validate_timestamp};
ghost use Rattle.catalog.specs.Inode.{too_long_of, validate_symlink_target, flags_allowed, fields_in_range, fields_of_type, flags_and_reserved, target_check, validate_inode};
ghost use Rattle.catalog.specs.Inside.{inode_fields, inode_shape};
ghost use Rattle.catalog.specs.Entry.{is_entry_name, validate_directory_entry};
ghost use Rattle.catalog.specs.Extent.{validate_extent};

use error::{Error, Validation, reason};

pub const MAX_FILE_BYTES: u64 = 0x7FFF_FFFF_FFFF_FFFF;

// One past the last logical block of the largest file.
pub const MAX_LOGICAL_BLOCK: u64 = MAX_FILE_BYTES / 4096 + 1;

// Longest symlink target.
pub const MAX_SYMLINK_TARGET: usize = 1023;

// Check an object or job ID.
#[tactic(auto, unfolding(crate::specs::Keys::validate_owner_id, error::specs::Demand::outcome))]
pub fn validate_owner_id(owner: u64, mode: Validation) -> Result<(), Error>
    ensures answer { result ≡ validate_owner_id owner mode }
    ensures words { check_words result ≡ check_words (validate_owner_id owner mode) }
{
    if !(1..volume::MAX_ID).contains(&owner) {
        return Err(error::violation(mode, reason::INVALID_OBJECT_ID));
    }
    Ok(())
}

// Whether a key has the form that its kind asks for; only that form is tried.
#[tactic(auto, unfolding(crate::specs::Keys::is_catalog_key))]
fn is_catalog_key(key: &[u8]) -> bool
    ensures { result ≡ is_catalog_key key.now }
{
    match octets::byte_at(key, 8) {
        1 => key.len() == 9,
        2 => (10..=774).contains(&key.len()) && utf8::is_utf8(&key[9..]),
        3 | 4 => key.len() == 17,
        _ => false,
    }
}

// Check a catalog key; the record's kind.
// Kept: the kind is the byte that is stored, since this promise gives it: an enum in its place would be another answer (docs/DECISIONS.md, 49), and the theorem on accepted keys speaks of that byte.
#[tactic(auto, unfolding(crate::specs::Keys::validate_catalog_key, error::specs::Demand::outcome))]
pub fn validate_catalog_key(key: &[u8], mode: Validation) -> Result<u8, Error>
    ensures answer { result ≡ validate_catalog_key key.now mode }
    ensures words { number_words result ≡ number_words (validate_catalog_key key.now mode) }
{
    if key.len() < 9 {
        return Err(error::violation(mode, reason::CATALOG_KEY_IS_TOO_SHORT));
    }
    validate_owner_id(octets::big_at(key, 0), mode)?;
    if !is_catalog_key(key) {
        return Err(error::violation(mode, reason::INVALID_CATALOG_KEY));
    }
    Ok(octets::byte_at(key, 8))
}

// Check a timestamp: seconds in the years 1601 through 9999, at most 999,999,999 nanoseconds.
#[tactic(auto, unfolding(crate::specs::Times::validate_timestamp_range, crate::specs::Times::seconds_in_range, error::specs::Demand::outcome))]
pub fn validate_timestamp_range(seconds: i64, nanos: u32, mode: Validation) -> Result<(), Error>
    ensures answer { result ≡ validate_timestamp_range seconds nanos mode }
    ensures words { check_words result ≡ check_words (validate_timestamp_range seconds nanos mode) }
{
    if !(-11_644_473_600..=253_402_300_799).contains(&seconds) {
        return Err(error::violation(mode, reason::TIMESTAMP_SECONDS_OUT_OF_RANGE));
    }
    if 999_999_999 < nanos {
        return Err(error::violation(mode, reason::TIMESTAMP_NANOSECONDS_OUT_OF_RANGE));
    }
    Ok(())
}

// A stored word as a signed number: two's complement.
#[tactic(auto, unfolding(crate::specs::Times::signed_number))]
pub fn signed_number(word: u64) -> i64
    ensures { result ≡ signed_number word }
{
    word.cast_signed()
}

// Check a stored timestamp: seconds, nanoseconds, four bytes of zero.
#[tactic(auto, unfolding(crate::specs::Times::validate_timestamp, error::specs::Demand::outcome))]
fn validate_timestamp(value: &[u8], offset: usize, mode: Validation) -> Result<(), Error>
    requires { offset ≤ 72 }
    ensures { result ≡ validate_timestamp value.now offset mode }
{
    let seconds = signed_number(octets::u64_at(value, offset));
    let nanos = octets::u32_at(value, offset + 8);
    validate_timestamp_range(seconds, nanos, mode)?;
    if octets::u32_at(value, offset + 12) != 0 {
        return Err(error::violation(mode, reason::TIMESTAMP_RESERVED_BYTES));
    }
    Ok(())
}

// The refusal of what is too long: class 6 in mode Input, class 3 in mode Disk.
fn too_long(mode: Validation, reason: u16) -> Error
    ensures { result ≡ too_long_of mode reason }
{
    match mode {
        Validation::Input => Error::TooLong(reason),
        Validation::Disk => Error::Corrupt(reason),
    }
}

// A symlink target is 1 to 1,023 bytes of UTF-8 without NUL.
#[tactic(auto, unfolding(crate::specs::Inode::validate_symlink_target, crate::specs::Inode::is_target, error::specs::Demand::outcome))]
pub fn validate_symlink_target(target: &[u8], mode: Validation) -> Result<(), Error>
    ensures answer { result ≡ validate_symlink_target target.now mode }
    ensures words { check_words result ≡ check_words (validate_symlink_target target.now mode) }
{
    if MAX_SYMLINK_TARGET < target.len() {
        return Err(too_long(mode, reason::SYMLINK_TARGET_IS_TOO_LONG));
    }
    if target.is_empty() || target.contains(&0) || !utf8::is_utf8(target) {
        return Err(error::violation(mode, reason::INVALID_SYMLINK_TARGET));
    }
    Ok(())
}

// Bit 0 marks an orphan. Only a symlink may set bit 1, its kind on Windows is recorded, and then bit 2, that kind is directory. No other bit is set.
fn flags_allowed(kind: u8, flags: u8) -> bool
    ensures { result ≡ flags_allowed kind flags }
{
    (flags <= 7)
        & ((flags / 2 % 2 == 0) & (flags / 4 % 2 == 0) | (kind == 3))
        & ((flags / 4 % 2 == 0) | (flags / 2 % 2 == 1))
}

// The numbers of an inode. Target is the length of what follows its 128 bytes.
#[derive(Clone, Copy)]
struct Numbers {
    // Kept: the byte that is stored: `of_type` and `flags_allowed` ask for it, whose definitions are of bytes; an enum would be made by one more match.
    kind: u8,
    target: u64,
    size: u64,
    allocated: u64,
    children: u64,
}

impl Numbers {
    // Whether they are within their ranges.
    #[tactic(auto, unfolding(crate::specs::Inode::fields_in_range))]
    fn in_range(&self, blocks: u64) -> bool
        ensures { result ≡ fields_in_range self.now.size self.now.allocated self.now.children blocks }
    {
        self.size <= MAX_FILE_BYTES && self.allocated <= blocks && self.children <= volume::MAX_ID
    }

    // What the type says of the others.
    #[tactic(auto, unfolding(crate::specs::Inode::fields_of_type))]
    fn of_type(&self) -> bool
        ensures { result ≡ fields_of_type self.now.kind self.now.target self.now.size self.now.allocated self.now.children }
    {
        match self.kind {
            1 => self.children == 0,
            2 => self.size == 0 && self.allocated == 0,
            3 => self.allocated == 0 && self.children == 0 && self.size == self.target,
            _ => true,
        }
    }
}

// Check an inode's type and length.
#[tactic(auto, unfolding(crate::specs::Inside::inode_shape, error::specs::Demand::outcome))]
fn inode_shape(value: &[u8], mode: Validation) -> Result<(), Error>
    ensures { result ≡ inode_shape value.now mode }
{
    if value.is_empty() {
        return Err(error::violation(mode, reason::INVALID_INODE_LENGTH));
    }
    if !(1..=3).contains(&value[0]) {
        return Err(error::violation(mode, reason::INVALID_INODE_TYPE));
    }
    if value.len() < 128 || (value[0] != 3 && value.len() != 128) {
        return Err(error::violation(mode, reason::INVALID_INODE_LENGTH));
    }
    Ok(())
}

// An inode's value: 128 bytes at least.
#[derive(Clone, Copy)]
struct Inode<'a> {
    value: &'a [u8],
    ghost long: { 128 ≤ length value.now },
}

impl Inode<'_> {
    // Whether the flags are allowed and the reserved bytes are zero.
    #[tactic(auto, unfolding(crate::specs::Inode::flags_and_reserved))]
    fn flags_and_reserved(&self) -> bool
        ensures { result ≡ flags_and_reserved self.now.value.now }
    {
        flags_allowed(self.value[0], self.value[1])
            && octets::all_zero(&self.value[2..8])
            && octets::all_zero(&self.value[88..128])
    }

    // Check the parent and the numbers.
    #[tactic(auto, unfolding(crate::specs::Inside::inode_fields, error::specs::Demand::outcome))]
    fn fields(&self, blocks: u64, mode: Validation) -> Result<(), Error>
        ensures { result ≡ inode_fields self.now.value.now blocks mode }
    {
        validate_owner_id(octets::u64_at(self.value, 8), mode)?;
        let numbers = Numbers {
            kind: self.value[0],
            target: (self.value.len() - 128) as u64,
            size: octets::u64_at(self.value, 16),
            allocated: octets::u64_at(self.value, 24),
            children: octets::u64_at(self.value, 32),
        };
        if !numbers.in_range(blocks) {
            return Err(error::violation(mode, reason::INODE_RANGE));
        }
        if !numbers.of_type() {
            return Err(error::violation(mode, reason::INODE_TYPE_SPECIFIC_FIELDS));
        }
        Ok(())
    }

    // The target of a symlink; other inodes have none.
    #[tactic(auto, unfolding(crate::specs::Inode::target_check))]
    fn target_check(&self, mode: Validation) -> Result<(), Error>
        ensures { result ≡ target_check self.now.value.now mode }
    {
        if self.value[0] == 3 {
            return validate_symlink_target(&self.value[128..], mode);
        }
        Ok(())
    }
}

// Check an inode record value.
#[tactic(auto, using(crate::proofs::Inodes::shape_long, crate::proofs::Inodes::inode_flat), unfolding(error::specs::Demand::outcome))]
pub fn validate_inode(value: &[u8], blocks: u64, mode: Validation) -> Result<(), Error>
    ensures answer { result ≡ validate_inode value.now blocks mode }
    ensures words { check_words result ≡ check_words (validate_inode value.now blocks mode) }
{
    inode_shape(value, mode)?;
    let inode = Inode { value };
    if !inode.flags_and_reserved() {
        return Err(error::violation(mode, reason::INVALID_INODE_FLAGS_OR_RESERVED_BYTES));
    }
    inode.fields(blocks, mode)?;
    inode.target_check(mode)?;
    validate_timestamp(value, 40, mode)?;
    validate_timestamp(value, 56, mode)?;
    validate_timestamp(value, 72, mode)
}

// Whether a name of 1 to 255 bytes of UTF-8 ends the value.
#[tactic(auto, unfolding(crate::specs::Entry::is_entry_name))]
fn is_entry_name(value: &[u8]) -> bool
    requires { 12 ≤ length value.now }
    ensures { result ≡ is_entry_name value.now }
{
    let n = usize::from(octets::u16_at(value, 10));
    (1..=255).contains(&n) && value.len() == 12 + n && utf8::is_utf8(&value[12..])
}

// Check a directory-entry record value.
#[tactic(auto, unfolding(crate::specs::Entry::validate_directory_entry, error::specs::Demand::outcome))]
pub fn validate_directory_entry(value: &[u8], mode: Validation) -> Result<(), Error>
    ensures answer { result ≡ validate_directory_entry value.now mode }
    ensures words { check_words result ≡ check_words (validate_directory_entry value.now mode) }
{
    if value.len() < 12 {
        return Err(error::violation(mode, reason::DIRECTORY_ENTRY_IS_TOO_SHORT));
    }
    validate_owner_id(octets::u64_at(value, 0), mode)?;
    if !(1..=3).contains(&value[8]) {
        return Err(error::violation(mode, reason::INVALID_DIRECTORY_ENTRY_TYPE));
    }
    if value[9] != 0 {
        return Err(error::violation(mode, reason::DIRECTORY_ENTRY_RESERVED_BYTE));
    }
    if !is_entry_name(value) {
        return Err(error::violation(mode, reason::INVALID_DIRECTORY_ENTRY_NAME));
    }
    Ok(())
}

// Check an extent record, first that its key has 17 bytes; its block count.
#[tactic(auto, unfolding(crate::specs::Extent::validate_extent, crate::specs::Extent::is_extent_range, error::specs::Demand::outcome))]
pub fn validate_extent(
    key: &[u8],
    value: &[u8],
    blocks: u64,
    mode: Validation,
) -> Result<u64, Error>
    ensures answer { result ≡ validate_extent key.now value.now blocks mode }
    ensures words { number_words result ≡ number_words (validate_extent key.now value.now blocks mode) }
{
    if key.len() < 17 {
        return Err(error::violation(mode, reason::INVALID_CATALOG_KEY));
    }
    if value.len() != 16 {
        return Err(error::violation(mode, reason::INVALID_EXTENT_LENGTH));
    }
    let logical = octets::big_at(key, 9);
    let physical = octets::u64_at(value, 0);
    let count = u64::from(octets::u32_at(value, 8));
    if !volume::sum_fits(physical, count) {
        return Err(error::violation(mode, reason::EXTENT_PHYSICAL_RANGE));
    }
    let outside = error::violation(mode, reason::EXTENT_LOGICAL_RANGE);
    let end = logical.checked_add(count).ok_or(outside)?;
    if count == 0
        || octets::u32_at(value, 12) != 0
        || MAX_LOGICAL_BLOCK < end
        || !volume::is_nonreserved_run(physical, count, blocks)
    {
        return Err(error::violation(mode, reason::INVALID_EXTENT_RANGE));
    }
    Ok(count)
}
