// Calls 20 to 31: records and checksum groups.
ghost use Rattle.std.specs.Prelude.{◌≡◌};
ghost use Rattle.group.specs.Slots.{slot_words};
ghost use Rattle.record.specs.Internal.{child_words};
ghost use Rattle.calls.specs.Told.{fields_in, front_fields};
ghost use Rattle.calls.specs.Table.{time_fields, inode_rows, entry_rows, record_rows};

use crate::tell::{check, number, told};
use crate::{Fields, Numbers, mode, within};
use error::Error;
use volume::TreeRef;

#[tactic(auto, unfolding(record::specs::Internal::child_words))]
fn child(answer: Result<TreeRef, Error>) -> Fields
    ensures { result ≡ child_words answer }
{
    match answer {
        Ok(r) => told([0, 0, r.block, r.generation]),
        Err(e) => told(carryfs::refused::<4>(e)),
    }
}

#[tactic(auto, using(crate::proofs::Front::front_length))]
fn compact_group(group: &[u8]) -> Fields
    ensures { result ≡ front_fields group.now }
{
    let front = group::compact_group(group);
    told([front.len() as u64])
}

#[tactic(auto, unfolding(crate::specs::Told::at_most))]
fn validate_timestamp_range(n: Numbers) -> Fields
    ensures { result ≡ time_fields n }
{
    let seconds = catalog::signed_number(n.a);
    check(catalog::validate_timestamp_range(seconds, within(n.b), mode(n.c)))
}

// Calls 20 to 23.
#[tactic(auto, unfolding(crate::specs::Told::fields_in, crate::specs::Table::inode_rows))]
pub(crate) fn answer_inode(call: u8, n: Numbers, a: &[u8]) -> Fields
    ensures { result ≡ fields_in call (inode_rows n a.now) }
{
    match call {
        20 => validate_timestamp_range(n),
        21 => check(catalog::validate_owner_id(n.a, mode(n.b))),
        22 => check(catalog::validate_symlink_target(a, mode(n.a))),
        23 => check(catalog::validate_inode(a, n.a, mode(n.b))),
        _ => told([]),
    }
}

// Calls 24 to 26.
#[tactic(auto, unfolding(crate::specs::Told::fields_in, crate::specs::Table::entry_rows))]
pub(crate) fn answer_entry(call: u8, n: Numbers, a: &[u8], b: &[u8]) -> Fields
    ensures { result ≡ fields_in call (entry_rows n a.now b.now) }
{
    match call {
        24 => check(catalog::validate_directory_entry(a, mode(n.a))),
        25 => number(catalog::validate_extent(a, b, n.a, mode(n.b))),
        26 => check(group::validate_checksum_group(a, b, mode(n.a))),
        _ => told([]),
    }
}

// Calls 27 to 31.
#[tactic(auto, unfolding(crate::specs::Told::fields_in, crate::specs::Table::record_rows))]
pub(crate) fn answer_record(call: u8, n: Numbers, a: &[u8], b: &[u8]) -> Fields
    ensures { result ≡ fields_in call (record_rows n a.now b.now) }
{
    let kind = volume::tree_kind_of(n.a);
    match call {
        27 => number(record::validate_leaf_record(kind, a, b, n.b, n.c, mode(n.d))),
        28 => child(record::validate_internal_record(kind, a, b, n.b, n.c, mode(n.d))),
        29 => number(record::leaf_record_blocks(kind, a, b, n.b, n.c)),
        30 => told(carryfs::slot_words(group::checksum_slot(a, n.a as usize))),
        31 => compact_group(a),
        _ => told([]),
    }
}
