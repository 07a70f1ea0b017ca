// Calls 36 to 38, 40 and 42: pages and their records.
ghost use Rattle.std.specs.Prelude.{◌≡◌};
ghost use Rattle.error.specs.Answer.{number_words};
ghost use Rattle.page.specs.Page.{page_words};
ghost use Rattle.calls.specs.Told.{fields_in, step_fields, draft_fields};
ghost use Rattle.calls.specs.Table.{page_rows, page_asked, view_asked, walked_records};

use crate::tell::{number, told};
use crate::{Fields, Numbers, mode, reference, within};
use error::Error;
use lookup::Step;
use page::Page;
use walk::RecordValidation;

// Whether there is a record, its key's offset and length, its value's, and the offset of the rest.
fn step(step: Option<Step>) -> Fields
    ensures { result ≡ step_fields step }
{
    match step {
        Some(s) => told([
            1,
            s.key_start as u64,
            s.key_end.saturating_sub(s.key_start) as u64,
            s.key_end as u64,
            s.value_end.saturating_sub(s.key_end) as u64,
            s.value_end as u64,
        ]),
        None => told([0; 6]),
    }
}

// Class, reason, level, count, and the payload's offset and length.
fn told_draft(page: Result<Page, Error>) -> Fields
    ensures { result ≡ draft_fields page }
{
    match page {
        Ok(p) => told([
            0,
            0,
            u64::from(p.level),
            p.count as u64,
            p.start as u64,
            p.end.saturating_sub(p.start) as u64,
        ]),
        Err(e) => told(carryfs::refused::<6>(e)),
    }
}

// Kept: what is asked of a page is spelt out here, in `verified_page_view` and in lookups `handed_fields`. The lists of page and hand are
// those of the Rust, so each would take the reference, the UUID, the kind, the parent's generation and the level from a function of their
// own, and hand the five on one by one all the same.
#[tactic(auto, unfolding(crate::specs::Told::at_most, crate::specs::Table::page_asked))]
fn decode_page(n: Numbers, uuid: &[u8], page: &[u8]) -> Result<Page, Error>
    ensures { result ≡ page_asked n uuid.now page.now }
{
    let id = octets::padded::<16>(uuid);
    page::page_answer(
        page,
        reference(n.a, n.b),
        &id,
        volume::tree_kind_of(n.c),
        n.d,
        page::expected_of(within(n.e)),
        n.f,
    )
}

#[tactic(auto, unfolding(crate::specs::Told::at_most, crate::specs::Table::view_asked))]
fn verified_page_view(n: Numbers, uuid: &[u8], page: &[u8]) -> Result<Page, Error>
    ensures { result ≡ view_asked n uuid.now page.now }
{
    let id = octets::padded::<16>(uuid);
    page::verified_answer(
        page,
        reference(n.a, n.b),
        &id,
        volume::tree_kind_of(n.c),
        n.d,
        page::expected_of(within(n.e)),
    )
}

#[tactic(auto, unfolding(crate::specs::Told::at_most, crate::specs::Table::walked_records))]
fn validate_records(n: Numbers, rest: &[u8]) -> Fields
    ensures { result ≡ number_words (walked_records n rest.now) }
{
    let context = RecordValidation {
        kind: volume::tree_kind_of(n.a),
        page_kind: within(n.b),
        page_generation: n.c,
        blocks: n.d,
        mode: mode(n.e),
    };
    number(walk::validate_records(rest, n.f as usize, n.g as usize, context))
}

#[tactic(auto, unfolding(crate::specs::Told::fields_in, crate::specs::Table::page_rows))]
pub(crate) fn answer(call: u8, n: Numbers, a: &[u8], b: &[u8]) -> Fields
    ensures { result ≡ fields_in call (page_rows n a.now b.now) }
{
    match call {
        36 => told(carryfs::page_words(decode_page(n, a, b))),
        37 => told(carryfs::page_words(verified_page_view(n, a, b))),
        38 => told_draft(page::draft_answer(a)),
        40 => step(lookup::next_record(a, n.a as usize)),
        42 => validate_records(n, a),
        _ => told([]),
    }
}
