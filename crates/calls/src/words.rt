// Calls 1 to 5: checksum words.
ghost use Rattle.std.specs.Prelude.{◌≡◌};
ghost use Rattle.calls.specs.Told.{fields_in};
ghost use Rattle.calls.specs.Table.{word_rows, unit_fields};

use crate::tell::{number, told};
use crate::{Fields, Numbers, within};

fn data_unit_crc(n: Numbers, uuid: &[u8], valid: &[u8]) -> Fields
    ensures { result ≡ unit_fields n uuid.now valid.now }
{
    let id = octets::padded::<16>(uuid);
    number(crc::data_unit_crc(&id, n.a, n.b, valid))
}

#[tactic(auto, unfolding(crate::specs::Told::at_most, crate::specs::Told::fields_in, crate::specs::Table::word_rows))]
pub(crate) fn answer(call: u8, n: Numbers, a: &[u8], b: &[u8]) -> Fields
    ensures { result ≡ fields_in call (word_rows n a.now b.now) }
{
    match call {
        1 => told([u64::from(crc::software_extend(within(n.a), a))]),
        2 => told([u64::from(crc::crc32c(a))]),
        3 => told([u64::from(crc::crc32c_with_zero(a, n.a as usize, n.b as usize))]),
        4 => told([u64::from(crc::extend_zeros(within(n.a), n.b as usize))]),
        5 => data_unit_crc(n, a, b),
        _ => told([]),
    }
}
