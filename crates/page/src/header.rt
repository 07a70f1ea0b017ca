// The checks of a page's header, in the order of the Rust's `validate_page_header`.
ghost use Rattle.std.specs.Prelude.{◌≡◌};
ghost use Rattle.error.specs.Answer.{check_words};
ghost use Rattle.page.specs.Header.{is_level, check_caller, checksum_fits, check_format, is_page_kind, is_tree_kind, level_fits, is_expected, reserved_zero, is_of_tree, check_kind, is_referred, has_uuid, total_allowed, check_identity, validate_page_header};
ghost use Rattle.page.specs.Unchecked.{is_asked_for};

use crate::view::PageView;
use error::{Error, Validation, reason};
use volume::{TreeKind, TreeRef};

// A level that is expected, if any is, is at most 7.
#[tactic(auto, unfolding(crate::specs::Header::is_level))]
fn is_level(expected_level: Option<u8>) -> bool
    ensures { result ≡ is_level expected_level }
{
    expected_level.is_none_or(|level| level <= 7)
}

// The stored checksum is the one of the page, with its own four bytes as zero.
#[tactic(auto, unfolding(crate::specs::Header::checksum_fits))]
fn checksum_fits(page: &[u8]) -> bool
    ensures { result ≡ checksum_fits page.now }
{
    crc::crc32c_with_zero(page, PageView::CHECKSUM_OFFSET, PageView::MORE_ZEROS_OFFSET)
        == octets::u32_at(page, PageView::CHECKSUM_OFFSET)
}

// The checksum, the magic, and what would make it another format.
#[tactic(auto, unfolding(crate::specs::Header::check_format, error::specs::Demand::outcome))]
fn check_format(page: &[u8]) -> Result<(), Error>
    ensures { result ≡ check_format page.now }
{
    if !checksum_fits(page) {
        return Err(Error::Corrupt(reason::PAGE_CHECKSUM));
    }
    if !octets::starts_with(page, &PageView::MAGIC) {
        return Err(Error::Corrupt(reason::PAGE_MAGIC));
    }
    if octets::u16_at(page, PageView::REVISION_OFFSET) != PageView::REVISION {
        return Err(Error::UnsupportedFormat);
    }
    if octets::u16_at(page, PageView::FLAGS_OFFSET) != 0 {
        return Err(Error::UnsupportedFormat);
    }
    Ok(())
}

// The page is a leaf, 1, or an internal page, 2.
// Kept, here and where the kind decides: it is the byte that is stored: this is the test of it, and the definitions of the others answer for every byte.
#[tactic(auto, unfolding(crate::specs::Header::is_page_kind))]
fn is_page_kind(page: &[u8]) -> bool
    ensures { result ≡ is_page_kind page.now }
{
    matches!(octets::byte_at(page, PageView::PAGE_KIND_OFFSET), 1 | 2)
}

// The number of a tree's kind is 1 to 4.
#[tactic(auto, unfolding(crate::specs::Header::is_tree_kind))]
fn is_tree_kind(page: &[u8]) -> bool
    ensures { result ≡ is_tree_kind page.now }
{
    (1..=4).contains(&octets::byte_at(page, PageView::TREE_KIND_OFFSET))
}

// A leaf's level is 0, an internal page's 1 to 7.
#[tactic(auto, unfolding(crate::specs::Header::level_fits))]
fn level_fits(page: &[u8]) -> bool
    ensures { result ≡ level_fits page.now }
{
    let level = octets::byte_at(page, PageView::LEVEL_OFFSET);
    match octets::byte_at(page, PageView::PAGE_KIND_OFFSET) {
        1 => level == 0,
        2 => (1..=7).contains(&level),
        _ => true,
    }
}

// Whether the page's level is the one that is expected, if any is.
#[tactic(auto, unfolding(crate::specs::Header::is_expected))]
pub fn is_expected(expected_level: Option<u8>, page: &[u8]) -> bool
    ensures { result ≡ is_expected expected_level page.now }
{
    expected_level.is_none_or(|level| level == octets::byte_at(page, PageView::LEVEL_OFFSET))
}

// The bytes that no field takes are zero.
#[tactic(auto, unfolding(crate::specs::Header::reserved_zero))]
fn reserved_zero(page: &[u8]) -> bool
    ensures { result ≡ reserved_zero page.now }
{
    octets::byte_at(page, PageView::ZERO_OFFSET) == 0
        && octets::all_zero(octets::span(page, PageView::ZEROS_OFFSET, PageView::UUID_OFFSET))
        && octets::all_zero(octets::span(
            page,
            PageView::MORE_ZEROS_OFFSET,
            PageView::PAYLOAD_OFFSET,
        ))
}

// Whether the page is of the tree that is asked for.
#[tactic(auto, unfolding(crate::specs::Header::is_of_tree))]
pub fn is_of_tree(kind: TreeKind, page: &[u8]) -> bool
    ensures { result ≡ is_of_tree kind page.now }
{
    octets::byte_at(page, PageView::TREE_KIND_OFFSET) == volume::tree_kind_value(kind)
}

// Whether the page is the one that the reference names, and not newer than its parent.
#[tactic(auto, unfolding(crate::specs::Header::is_referred))]
pub fn is_referred(reference: TreeRef, parent_generation: u64, page: &[u8]) -> bool
    ensures { result ≡ is_referred reference parent_generation page.now }
{
    let generation = octets::u64_at(page, PageView::GENERATION_OFFSET);
    octets::u64_at(page, PageView::SELF_BLOCK_OFFSET) == reference.block
        && generation == reference.generation
        && generation <= parent_generation
}

// Whether the volume's UUID stands in the page.
#[tactic(auto, unfolding(crate::specs::Header::has_uuid))]
pub fn has_uuid(uuid: &[u8; 16], page: &[u8]) -> bool
    ensures { result ≡ has_uuid uuid.now page.now }
{
    octets::same_bytes(
        octets::span(page, PageView::UUID_OFFSET, PageView::TOTAL_OFFSET),
        uuid,
    )
}

// Outside the catalog the total is 0.
#[tactic(auto, unfolding(crate::specs::Header::total_allowed))]
fn total_allowed(kind: TreeKind, page: &[u8]) -> bool
    ensures { result ≡ total_allowed kind page.now }
{
    kind == TreeKind::Catalog || octets::u64_at(page, PageView::TOTAL_OFFSET) == 0
}

// What a caller asks for: the page's reference, the volume's UUID, the tree, its parent's generation, and the level, if one is expected.
// Kept in definitions: they take the five by themselves, as the theorems and READING-RULES 7.2 name them, and a reader ticks them one by one.
#[derive(Clone, Copy)]
pub(crate) struct Asked<'a> {
    pub reference: TreeRef,
    pub uuid: &'a [u8; 16],
    pub kind: TreeKind,
    pub parent_generation: u64,
    pub expected_level: Option<u8>,
}

impl Asked<'_> {
    // The checks of the caller's part.
    #[tactic(auto, unfolding(crate::specs::Header::check_caller, error::specs::Demand::outcome))]
    fn check_caller(self, blocks: u64, page: &[u8]) -> Result<(), Error>
        ensures { result ≡ check_caller self.entry.reference self.entry.uuid.now self.entry.kind self.entry.parent_generation self.entry.expected_level blocks page.now }
    {
        if page.len() != PageView::BYTES {
            return Err(Error::Corrupt(reason::PAGE_LENGTH));
        }
        volume::validate_blocks(blocks, Validation::Input)?;
        volume::validate_page_ref(self.reference, self.kind, blocks, Validation::Input)?;
        volume::validate_uuid(self.uuid, Validation::Input)?;
        if self.parent_generation == 0 || self.parent_generation < self.reference.generation {
            return Err(Error::InvalidInput(reason::INVALID_PARENT_GENERATION));
        }
        if !is_level(self.expected_level) {
            return Err(Error::InvalidInput(reason::INVALID_EXPECTED_PAGE_LEVEL));
        }
        Ok(())
    }

    // Page kind, tree kind, level and reserved bytes.
    #[tactic(auto, unfolding(crate::specs::Header::check_kind, error::specs::Demand::outcome))]
    fn check_kind(self, page: &[u8]) -> Result<(), Error>
        ensures { result ≡ check_kind self.entry.kind self.entry.expected_level page.now }
    {
        if !is_page_kind(page) {
            return Err(Error::Corrupt(reason::PAGE_KIND));
        }
        if !is_tree_kind(page) {
            return Err(Error::Corrupt(reason::PAGE_TREE_KIND));
        }
        if !is_of_tree(self.kind, page) {
            return Err(Error::Corrupt(reason::PAGE_TREE_KIND_MISMATCH));
        }
        if !level_fits(page) {
            return Err(Error::Corrupt(reason::PAGE_LEVEL));
        }
        if !is_expected(self.expected_level, page) {
            return Err(Error::Corrupt(reason::UNEXPECTED_PAGE_LEVEL));
        }
        if !reserved_zero(page) {
            return Err(Error::Corrupt(reason::PAGE_RESERVED_BYTES));
        }
        Ok(())
    }

    // Which page it is, and the numbers that it states.
    #[tactic(auto, unfolding(crate::specs::Header::check_identity, error::specs::Demand::outcome))]
    fn check_identity(self, blocks: u64, page: &[u8]) -> Result<(), Error>
        ensures { result ≡ check_identity self.entry.reference self.entry.uuid.now self.entry.kind self.entry.parent_generation blocks page.now }
    {
        if !is_referred(self.reference, self.parent_generation, page) {
            return Err(Error::Corrupt(reason::PAGE_IDENTITY_OR_GENERATION));
        }
        if !has_uuid(self.uuid, page) {
            return Err(Error::Corrupt(reason::PAGE_UUID));
        }
        if PageView::PAYLOAD_BYTES
            < usize::from(octets::u16_at(page, PageView::PAYLOAD_LENGTH_OFFSET))
        {
            return Err(Error::Corrupt(reason::PAGE_PAYLOAD_LENGTH));
        }
        if blocks < octets::u64_at(page, PageView::TOTAL_OFFSET) {
            return Err(Error::Corrupt(reason::PAGE_DATA_BLOCK_TOTAL));
        }
        if !total_allowed(self.kind, page) {
            return Err(Error::Corrupt(reason::NON_CATALOG_DATA_BLOCK_TOTAL));
        }
        Ok(())
    }

    // Every check of the header.
    #[tactic(auto, unfolding(crate::specs::Header::validate_page_header, error::specs::Demand::outcome))]
    pub fn validate_page_header(self, blocks: u64, page: &[u8]) -> Result<(), Error>
        ensures answer { result ≡ validate_page_header self.entry.reference self.entry.uuid.now self.entry.kind self.entry.parent_generation self.entry.expected_level blocks page.now }
        ensures words { check_words result ≡ check_words (validate_page_header self.entry.reference self.entry.uuid.now self.entry.kind self.entry.parent_generation self.entry.expected_level blocks page.now) }
    {
        self.check_caller(blocks, page)?;
        check_format(page)?;
        self.check_kind(page)?;
        self.check_identity(blocks, page)
    }

    // Whether the page is the one that is asked for, whatever else it holds.
    #[tactic(auto, unfolding(crate::specs::Unchecked::is_asked_for))]
    pub fn is_asked_for(self, page: &[u8]) -> bool
        ensures { result ≡ is_asked_for self.entry.reference self.entry.uuid.now self.entry.kind self.entry.parent_generation self.entry.expected_level page.now }
    {
        is_referred(self.reference, self.parent_generation, page)
            && is_of_tree(self.kind, page)
            && is_expected(self.expected_level, page)
            && has_uuid(self.uuid, page)
    }
}

// Every check of the header.
pub fn validate_page_header(
    reference: TreeRef,
    uuid: &[u8; 16],
    kind: TreeKind,
    parent_generation: u64,
    expected_level: Option<u8>,
    blocks: u64,
    page: &[u8],
) -> Result<(), Error>
    ensures answer { result ≡ validate_page_header reference uuid.now kind parent_generation expected_level blocks page.now }
    ensures words { check_words result ≡ check_words (validate_page_header reference uuid.now kind parent_generation expected_level blocks page.now) }
{
    let asked = Asked {
        reference,
        uuid,
        kind,
        parent_generation,
        expected_level,
    };
    asked.validate_page_header(blocks, page)
}
