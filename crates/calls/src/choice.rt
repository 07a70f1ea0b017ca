// Calls 35 and 41: the choice between two slots' blocks, and between two made-up roots.
ghost use Rattle.std.specs.Prelude.{◌≡◌};
ghost use Rattle.calls.specs.Told.{fields_in};
ghost use Rattle.calls.specs.Table.{root_rows};
ghost use Rattle.calls.specs.Given.{given_label, given_root, given_maybe, which_fields, selected_fields};

use crate::tell::told;
use crate::{Fields, Numbers, within};
use error::Error;
use root::{Label, Root, Selected};

#[tactic(auto, unfolding(crate::specs::Told::fields_in, crate::specs::Table::root_rows))]
pub(crate) fn answer(call: u8, n: Numbers, a: &[u8], b: &[u8]) -> Fields
    ensures { result ≡ fields_in call (root_rows n a.now b.now) }
{
    match call {
        35 => told(carryfs::choice_words(root::choose_root(
            carryfs::slot_root(a, n.a, n.b),
            carryfs::slot_root(b, n.c, n.d),
        ))),
        _ => told([]),
    }
}

#[tactic(auto, unfolding(crate::specs::Told::at_most))]
fn given_label(stored: &[u8], text: &[u8]) -> Label
    ensures { result ≡ given_label stored.now text.now }
{
    Label {
        len: within(octets::u64_at(stored, 16)),
        bytes: octets::padded::<255>(text),
    }
}

// A made-up root: its numbers stand one after the other, eight bytes each.
#[tactic(auto, unfolding(crate::specs::Given::given_root))]
pub fn given_root(stored: &[u8], uuid: &[u8], text: &[u8]) -> Root
    ensures { result ≡ given_root stored.now uuid.now text.now }
{
    let label = (octets::u64_at(stored, 8) == 1).then(|| given_label(stored, text));
    Root {
        label,
        uuid: octets::padded::<16>(uuid),
        generation: octets::u64_at(stored, 24),
        blocks: octets::u64_at(stored, 32),
        catalog: volume::ref_at(stored, 40),
        allocation: volume::ref_at(stored, 56),
        cleanup: volume::ref_at(stored, 72),
        next_object: octets::u64_at(stored, 88),
        free_blocks: octets::u64_at(stored, 96),
        next_job: octets::u64_at(stored, 104),
        workspace: volume::ref_at(stored, 112),
        workspace_cursor: octets::u64_at(stored, 128),
    }
}

#[tactic(auto, unfolding(crate::specs::Given::given_maybe))]
fn given_maybe(stored: &[u8], uuid: &[u8], text: &[u8]) -> Option<Root>
    ensures { result ≡ given_maybe stored.now uuid.now text.now }
{
    (octets::u64_at(stored, 0) == 1).then(|| given_root(stored, uuid, text))
}

fn which(chosen: Result<Selected, Error>) -> Fields
    ensures { result ≡ which_fields chosen }
{
    match chosen {
        Ok(s) => told([0, 0, u64::from(s.which)]),
        Err(e) => told(carryfs::refused::<3>(e)),
    }
}

// The fields of call 41, from its bytes: 34 numbers from byte 1 on, then two strings of 16 and 255 bytes for each root.
#[tactic(auto, unfolding(crate::specs::Given::selected_fields))]
pub fn selected(input: &[u8]) -> Fields
    ensures { result ≡ selected_fields input.now }
{
    let a = given_maybe(
        octets::tail(input, 1),
        octets::tail(input, 277),
        octets::tail(input, 297),
    );
    let b = given_maybe(
        octets::tail(input, 137),
        octets::tail(input, 556),
        octets::tail(input, 576),
    );
    which(root::select_root(a, b))
}
