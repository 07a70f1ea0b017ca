// Calls 12 to 19: blocks, references, slots and groups of a volume.
ghost use Rattle.std.specs.Prelude.{◌≡◌};
ghost use Rattle.volume.specs.Groups.{reserved_group_blocks};
ghost use Rattle.calls.specs.Told.{fields_in, group_fields};
ghost use Rattle.calls.specs.Table.{block_rows};

use crate::tell::{bit, check, number, told};
use crate::{Fields, Numbers, mode, reference};

fn reserved_group_blocks(group: u64, blocks: u64) -> Fields
    ensures { result ≡ group_fields (reserved_group_blocks group blocks) }
{
    let r = volume::reserved_group_blocks(group, blocks);
    told([r.low_start, r.low_end, r.high_start, r.high_end])
}

#[tactic(auto, unfolding(crate::specs::Told::fields_in, crate::specs::Table::block_rows))]
pub(crate) fn answer(call: u8, n: Numbers) -> Fields
    ensures { result ≡ fields_in call (block_rows n) }
{
    match call {
        12 => bit(volume::is_bank_root(n.a, n.b)),
        13 => bit(volume::is_bank_block(n.a, n.b)),
        14 => bit(volume::is_nonreserved_block(n.a, n.b)),
        15 => reserved_group_blocks(n.a, n.b),
        16 => number(volume::allocation_group_count(n.a)),
        17 => check(volume::validate_tree_ref(reference(n.a, n.b), n.c, mode(n.d))),
        18 => check(volume::validate_page_ref(
            reference(n.a, n.b),
            volume::tree_kind_of(n.c),
            n.d,
            mode(n.e),
        )),
        19 => check(volume::validate_root_slot(n.a, n.b, mode(n.c))),
        _ => told([]),
    }
}
