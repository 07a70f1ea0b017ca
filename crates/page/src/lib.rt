// Pages: the header, the records, the answer in numbers, and the view that refers to the payload. Document 01, section 4.
#![tactic(auto)]

pub mod header;
pub mod view;

ghost use Rattle.std.specs.Prelude.{◌≡◌, ◌+◌, take};
ghost use Rattle.octets.specs.Number.{within};
ghost use Rattle.page.specs.Header.{expected_of, payload_length, expected_words};
ghost use Rattle.page.specs.Page.{validate_page_records, total_fits, padding_zero, enough_children, check_content, stated_page, accepted_page, decode_page, page_words};
ghost use Rattle.page.specs.Unchecked.{verified_page_view, draft_page_view};
ghost use Rattle.page.specs.View.{Views, view_words};

use error::{Error, Validation, reason};
use header::Asked;
use view::PageView;
use volume::{TreeKind, TreeRef};
use walk::RecordValidation;

// The level that a number from a program or a C caller stands for: 255 is a level that isn't given.
#[tactic(auto, unfolding(crate::specs::Header::expected_of))]
pub fn expected_of(level: u8) -> Option<u8>
    ensures answer { result ≡ expected_of level }
    ensures words { expected_words result ≡ expected_words (expected_of level) }
{
    (level != 255).then_some(level)
}

// What reading a page answers, in numbers: the level, the total, the count, and where its payload starts and ends.
// Kept: the C interface takes the payload's place, not bytes that are borrowed.
#[derive(Clone, Copy)]
pub struct Page {
    pub level: u8,
    pub data_blocks: u64,
    pub count: usize,
    pub start: usize,
    pub end: usize,
}

// A leaf's total is what the walk found.
#[tactic(auto, unfolding(crate::specs::Page::total_fits))]
fn total_fits(page: &[u8], found: u64) -> bool
    ensures { result ≡ total_fits page.now found }
{
    octets::byte_at(page, PageView::PAGE_KIND_OFFSET) != 1
        || octets::u64_at(page, PageView::TOTAL_OFFSET) == found
}

// An internal page has two children at least.
#[tactic(auto, unfolding(crate::specs::Page::enough_children))]
fn enough_children(page: &[u8]) -> bool
    ensures { result ≡ enough_children page.now }
{
    octets::byte_at(page, PageView::PAGE_KIND_OFFSET) != 2
        || 2 <= octets::u16_at(page, PageView::COUNT_OFFSET)
}

// The walk over the page's records, lent the block from byte 80 on.
#[tactic(auto, unfolding(crate::specs::Page::validate_page_records))]
fn validate_page_records(kind: TreeKind, blocks: u64, page: &[u8]) -> Result<u64, Error>
    ensures { result ≡ validate_page_records kind blocks page.now }
{
    let count = usize::from(octets::u16_at(page, PageView::COUNT_OFFSET));
    let payload = usize::from(octets::u16_at(page, PageView::PAYLOAD_LENGTH_OFFSET));
    let context = RecordValidation {
        kind,
        page_kind: octets::byte_at(page, PageView::PAGE_KIND_OFFSET),
        page_generation: octets::u64_at(page, PageView::GENERATION_OFFSET),
        blocks,
        mode: Validation::Disk,
    };
    walk::validate_records(
        octets::tail(page, PageView::PAYLOAD_OFFSET),
        payload,
        count,
        context,
    )
}

// Where the payload that the page states ends.
fn payload_end(page: &[u8]) -> usize
    ensures { result ≡ 80 + payload_length page.now }
{
    PageView::PAYLOAD_OFFSET + usize::from(octets::u16_at(page, PageView::PAYLOAD_LENGTH_OFFSET))
}

// Behind the payload stand zeros.
#[tactic(auto, unfolding(crate::specs::Page::padding_zero))]
fn padding_zero(page: &[u8]) -> bool
    ensures { result ≡ padding_zero page.now }
{
    octets::all_zero(octets::tail(page, payload_end(page)))
}

// The records, the leaf's total, the padding, and at least two children in an internal page.
#[tactic(auto, unfolding(crate::specs::Page::check_content, error::specs::Demand::outcome))]
fn check_content(kind: TreeKind, blocks: u64, page: &[u8]) -> Result<(), Error>
    ensures { result ≡ check_content kind blocks page.now }
{
    let found = validate_page_records(kind, blocks, page)?;
    if !total_fits(page, found) {
        return Err(Error::Corrupt(reason::LEAF_DATA_BLOCK_TOTAL));
    }
    if !padding_zero(page) {
        return Err(Error::Corrupt(reason::PAGE_PADDING));
    }
    if !enough_children(page) {
        return Err(Error::Corrupt(reason::INTERNAL_PAGE_HAS_TOO_FEW_CHILDREN));
    }
    Ok(())
}

// The level and the count that the page states, its payload from byte 80 on, and a total.
fn stated_page(page: &[u8], data_blocks: u64) -> Page
    ensures { result ≡ stated_page page.now data_blocks }
{
    Page {
        level: octets::byte_at(page, PageView::LEVEL_OFFSET),
        data_blocks,
        count: usize::from(octets::u16_at(page, PageView::COUNT_OFFSET)),
        start: PageView::PAYLOAD_OFFSET,
        end: payload_end(page),
    }
}

// The same with the total that it states.
fn accepted_page(page: &[u8]) -> Page
    ensures { result ≡ accepted_page page.now }
{
    stated_page(page, octets::u64_at(page, PageView::TOTAL_OFFSET))
}

// Validate the page that the reference names; the answer in numbers.
// Kept, here, below and in `header::validate_page_header`: the parameters that callers give today; a struct in their place would ask another thing of them. Inside, it is one.
#[tactic(auto, unfolding(crate::specs::Page::decode_page, error::specs::Demand::outcome))]
pub fn page_answer(
    page: &[u8],
    reference: TreeRef,
    uuid: &[u8; 16],
    kind: TreeKind,
    parent_generation: u64,
    expected_level: Option<u8>,
    blocks: u64,
) -> Result<Page, Error>
    ensures answer { result ≡ decode_page reference uuid.now kind parent_generation expected_level blocks page.now }
    ensures words { page_words result ≡ page_words (decode_page reference uuid.now kind parent_generation expected_level blocks page.now) }
{
    header::validate_page_header(
        reference,
        uuid,
        kind,
        parent_generation,
        expected_level,
        blocks,
        page,
    )?;
    check_content(kind, blocks, page)?;
    Ok(accepted_page(page))
}

// Whether the payload that the page states lies within it.
fn holds_payload(page: &[u8]) -> bool
    ensures { result ≡ within page.now 80 (payload_length page.now) }
{
    payload_end(page) <= page.len()
}

// The answer on a page that was accepted earlier, rechecking only its identity, and that its payload lies within it.
#[tactic(auto, unfolding(crate::specs::Unchecked::verified_page_view, error::specs::Demand::outcome))]
pub fn verified_answer(
    page: &[u8],
    reference: TreeRef,
    uuid: &[u8; 16],
    kind: TreeKind,
    parent_generation: u64,
    expected_level: Option<u8>,
) -> Result<Page, Error>
    ensures answer { result ≡ verified_page_view reference uuid.now kind parent_generation expected_level page.now }
    ensures words { page_words result ≡ page_words (verified_page_view reference uuid.now kind parent_generation expected_level page.now) }
{
    if page.len() < PageView::LEVEL_OFFSET + 1 {
        return Err(Error::Corrupt(reason::PAGE_LENGTH));
    }
    if page.len() < PageView::GENERATION_OFFSET + 8 {
        return Err(Error::Corrupt(reason::PAGE_GENERATION));
    }
    let asked = Asked {
        reference,
        uuid,
        kind,
        parent_generation,
        expected_level,
    };
    if !asked.is_asked_for(page) {
        return Err(Error::Corrupt(reason::PAGE_IDENTITY_OR_GENERATION));
    }
    if !holds_payload(page) {
        return Err(Error::Corrupt(reason::PAGE_PAYLOAD_LENGTH));
    }
    Ok(accepted_page(page))
}

// A page that is still being built: nothing is checked but that its bytes are there, and its total is not read.
#[tactic(auto, unfolding(crate::specs::Unchecked::draft_page_view, error::specs::Demand::outcome))]
pub fn draft_answer(page: &[u8]) -> Result<Page, Error>
    ensures answer { result ≡ draft_page_view page.now }
    ensures words { page_words result ≡ page_words (draft_page_view page.now) }
{
    if page.len() < PageView::COUNT_OFFSET + 2 {
        return Err(Error::Corrupt(reason::DRAFT_ENTRY_COUNT));
    }
    if page.len() < PageView::PAYLOAD_LENGTH_OFFSET + 2 {
        return Err(Error::Corrupt(reason::DRAFT_PAYLOAD_BYTES));
    }
    if !holds_payload(page) {
        return Err(Error::Corrupt(reason::DRAFT_PAYLOAD_LENGTH));
    }
    Ok(stated_page(page, 0))
}

// Validate the page that the reference names, and view its payload in place.
#[tactic(auto, unfolding(crate::specs::View::view_words, crate::specs::Page::page_words))]
pub fn decode_page<'a>(
    page: &'a [u8],
    reference: TreeRef,
    uuid: &[u8; 16],
    kind: TreeKind,
    parent_generation: u64,
    expected_level: Option<u8>,
    blocks: u64,
) -> Result<PageView<'a>, Error>
    ensures answer { Views page.entry (decode_page reference uuid.now kind parent_generation expected_level blocks page.now) result }
    ensures words { view_words result ≡ take 5 (page_words (decode_page reference uuid.now kind parent_generation expected_level blocks page.now)) }
{
    let answer = page_answer(
        page,
        reference,
        uuid,
        kind,
        parent_generation,
        expected_level,
        blocks,
    )?;
    Ok(view::view_of(page, answer))
}

// The view of a page that `decode_page` accepted earlier, rechecking only its identity.
#[tactic(auto, unfolding(crate::specs::View::view_words, crate::specs::Page::page_words))]
pub fn verified_page_view<'a>(
    page: &'a [u8],
    reference: TreeRef,
    uuid: &[u8; 16],
    kind: TreeKind,
    parent_generation: u64,
    expected_level: Option<u8>,
) -> Result<PageView<'a>, Error>
    ensures answer { Views page.entry (verified_page_view reference uuid.now kind parent_generation expected_level page.now) result }
    ensures words { view_words result ≡ take 5 (page_words (verified_page_view reference uuid.now kind parent_generation expected_level page.now)) }
{
    let answer = verified_answer(
        page,
        reference,
        uuid,
        kind,
        parent_generation,
        expected_level,
    )?;
    Ok(view::view_of(page, answer))
}

// The view of a page that is still being built.
#[tactic(auto, unfolding(crate::specs::View::view_words, crate::specs::Page::page_words))]
pub fn draft_page_view(page: &[u8]) -> Result<PageView<'_>, Error>
    ensures answer { Views page.entry (draft_page_view page.now) result }
    ensures words { view_words result ≡ take 5 (page_words (draft_page_view page.now)) }
{
    let answer = draft_answer(page)?;
    Ok(view::view_of(page, answer))
}
