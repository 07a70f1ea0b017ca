// Call 44: a data unit in pieces.
ghost use Rattle.std.specs.Prelude.{◌≡◌};
ghost use Rattle.crc.specs.Pieces.{fed};
ghost use Rattle.calls.specs.Told.{fields_in};
ghost use Rattle.calls.specs.Pieces.{cut, pieces_asked};
ghost use Rattle.calls.specs.Table.{piece_rows};

use crate::tell::{number, told};
use crate::{Fields, Numbers};
use crc::DataUnitCrc;
use error::Error;

// The bytes in pieces of so many, one after the other; 0: all at once.
#[tactic(auto, using(crate::proofs::Cut::feed_turn, crate::proofs::Cut::feed_done))]
fn feed(mut sum: DataUnitCrc, size: usize, bytes: &[u8]) -> DataUnitCrc
    ensures { result ≡ fed sum (cut size bytes.now) }
{
    if size == 0 {
        sum.update(bytes);
        return sum;
    }
    for piece in bytes.chunks(size) {
        sum.update(piece);
    }
    sum
}

// The unit's sum, begun with the length that is announced.
fn pieces_sum(n: Numbers, uuid: &[u8], bytes: &[u8]) -> Result<u64, Error>
    ensures { result ≡ pieces_asked n uuid.now bytes.now }
{
    let id = octets::padded::<16>(uuid);
    let sum = DataUnitCrc::new(&id, n.a, n.b, n.c as usize)?;
    feed(sum, n.d as usize, bytes).finish()
}

#[tactic(auto, unfolding(crate::specs::Told::fields_in, crate::specs::Table::piece_rows))]
pub(crate) fn answer(call: u8, n: Numbers, a: &[u8], b: &[u8]) -> Fields
    ensures { result ≡ fields_in call (piece_rows n a.now b.now) }
{
    match call {
        44 => number(pieces_sum(n, a, b)),
        _ => told([]),
    }
}
