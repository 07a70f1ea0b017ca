// CRC-32C, eight bytes a step by tables, and three lanes of steps side by side. specs/Crc.antt says what it is, bit by bit.
#![tactic(auto)]

mod words;

ghost use Rattle.std.specs.Prelude.{◌≡◌, ◌+◌, ◌*◌, ◌/◌, ◌%◌, ◌^◌, ◌<◌, replicate};
ghost use Rattle.std.specs.Int.Bits.{bit_xor};
ghost use Rattle.crc.specs.Crc.{step_bits, step_byte, extend, crc32c as crc32cOf, crc32c_with_zero};
ghost use Rattle.error.specs.Answer.{number_words};
ghost use Rattle.crc.specs.DataUnit.{unit_front, unit_words, unit_new, unit_update, unit_finish, data_unit_crc};
ghost use Rattle.crc.specs.Inside.{past_lane, IsLaneWords};
ghost use Rattle.crc.specs.Tables.{IsTables};

use error::Error;
use words::{LANE_WORDS, TABLES};

// Bytes in one unit of a file's data.
pub const UNIT_BYTES: usize = 65_536;

// Bytes in one of the three lanes that are summed side by side: the most eights that three lanes find in the 4,028 bytes behind a page's word.
const LANE: usize = 1_336;

// Bytes in a round of three lanes.
const ROUND: usize = 3 * LANE;

// The reason of a string that isn't in the list of reasons.
const UNLISTED: u16 = 0;

// The eight tables, one behind the other. A static stands in memory once: a call that named a constant array would copy its 8 KiB.
// Kept: one table of 2,048 words in the place of eight of 256: 01 fixes it.
fn tables() -> &'static [u32; 2048]
    ensures { IsTables result.now }
{
    &TABLES
}

// The register after the low byte of `x` and then `k` zero bytes, from a register of 0.
fn entry(k: usize, x: u32) -> u32
    requires { k < 8 }
    ensures { result ≡ step_bits (8 * (k + 1)) (x % 2 ^ 8) }
{
    tables()[k * 256 + (x & 0xFF) as usize]
}

// The register `crc` after one byte.
#[tactic(auto, using(crate::proofs::Slicing::byte_step))]
fn step1(crc: u32, b: u8) -> u32
    ensures { result ≡ step_byte crc b }
{
    (crc >> 8) ^ entry(0, crc ^ u32::from(b))
}

// The register `crc` after eight bytes. The look-ups that need not wait for the register come first.
#[tactic(auto, using(crate::proofs::Slicing::eight_step))]
fn step8(crc: u32, bytes: &[u8; 8]) -> u32
    ensures { result ≡ extend crc bytes.now }
{
    let low = crc ^ u32::from_le_bytes([bytes[0], bytes[1], bytes[2], bytes[3]]);
    entry(0, u32::from(bytes[7]))
        ^ entry(1, u32::from(bytes[6]))
        ^ entry(2, u32::from(bytes[5]))
        ^ entry(3, u32::from(bytes[4]))
        ^ entry(4, low >> 24)
        ^ entry(5, low >> 16)
        ^ entry(6, low >> 8)
        ^ entry(7, low)
}

// The words of the join.
fn lane_words() -> &'static [u32; 32]
    ensures { IsLaneWords result.now }
{
    &LANE_WORDS
}

// `r`, with `word` xored in where bit `k` of `crc` is 1.
#[tactic(auto, using(crate::proofs::Lanes::bit_none, crate::proofs::Lanes::bit_one))]
fn with_bit(crc: u32, k: usize, word: u32, r: u32) -> u32
    requires { k < 32 }
    ensures { result ≡ bit_xor r (crc / 2 ^ k % 2 * word) }
{
    if (crc >> k) % 2 == 0 {
        return r;
    }
    r ^ word
}

// The register after two lanes: `first` after the first, and `second` after the other from a register of 0.
#[tactic(auto, using(crate::proofs::Lanes::join_start, crate::proofs::Lanes::join_turn, crate::proofs::Lanes::join_done))]
fn join(first: u32, second: u32) -> u32
    ensures { result ≡ bit_xor (past_lane first) second }
{
    let mut r = second;
    for (k, &word) in lane_words().iter().enumerate() {
        r = with_bit(first, k, word, r);
    }
    r
}

// The register `crc` after a round of three lanes. No lane waits for another, so they are summed side by side.
// Kept: one index for three lanes: tried as `a.iter().zip(b).zip(c)`: the proof didn't close, 27 goals stayed open where this asks for three.
fn step_round(crc: u32, bytes: &[u8; ROUND]) -> u32
    ensures { result ≡ extend crc bytes.now }
{
    let (a, _) = bytes[..LANE].as_chunks::<8>();
    let (b, _) = bytes[LANE..2 * LANE].as_chunks::<8>();
    let (c, _) = bytes[2 * LANE..].as_chunks::<8>();
    let mut x = crc;
    let mut y = 0;
    let mut z = 0;
    for i in 0..LANE / 8 {
        x = step8(x, &a[i]);
        y = step8(y, &b[i]);
        z = step8(z, &c[i]);
    }
    join(join(x, y), z)
}

// The register `crc` after `bytes`, with no inversion at either end: rounds of three lanes first, then eight bytes at a time.
pub fn software_extend(crc: u32, bytes: &[u8]) -> u32
    ensures { result ≡ extend crc bytes.now }
{
    let (rounds, bytes) = bytes.as_chunks::<ROUND>();
    let (eights, bytes) = bytes.as_chunks::<8>();
    let crc = rounds.iter().fold(crc, |crc, round| step_round(crc, round));
    let crc = eights.iter().fold(crc, |crc, eight| step8(crc, eight));
    bytes.iter().fold(crc, |crc, &byte| step1(crc, byte))
}

// The register `crc` after the zero bytes of a lane.
#[tactic(auto, using(crate::proofs::Lanes::past_alone))]
fn past_lane(crc: u32) -> u32
    ensures { result ≡ past_lane crc }
{
    join(crc, 0)
}

// The register `crc` after `count` zero bytes: a lane's worth at once, then eight at a time.
pub fn extend_zeros(crc: u32, count: usize) -> u32
    ensures { result ≡ extend crc (replicate count 0) }
{
    let mut r = crc;
    for _ in 0..count / LANE {
        r = past_lane(r);
    }
    for _ in 0..count % LANE / 8 {
        r = step8(r, &[0; 8]);
    }
    for _ in 0..count % 8 {
        r = step1(r, 0);
    }
    r
}

// The checksum of `bytes`.
#[tactic(auto, unfolding(crate::specs::Crc::crc32c))]
pub fn crc32c(bytes: &[u8]) -> u32
    ensures { result ≡ crc32cOf bytes.now }
{
    software_extend(0xFFFF_FFFF, bytes) ^ 0xFFFF_FFFF
}

// The checksum of `bytes` with `zero_start .. zero_end` read as zeros.
#[tactic(auto, using(crate::proofs::Parts::with_zero))]
pub fn crc32c_with_zero(bytes: &[u8], zero_start: usize, zero_end: usize) -> u32
    ensures { result ≡ crc32c_with_zero bytes.now zero_start zero_end }
{
    let end = zero_end.min(bytes.len());
    let start = zero_start.min(end);
    let head = software_extend(0xFFFF_FFFF, &bytes[..start]);
    let gap = extend_zeros(head, end - start);
    software_extend(gap, &bytes[end..]) ^ 0xFFFF_FFFF
}

// The checksum of one unit of a file's data whose valid bytes come in pieces, such as pages that lie apart.
#[derive(Clone, Copy)]
pub struct DataUnitCrc {
    register: u32,
    valid: usize,
    seen: usize,
}

// The register after what stands before a unit's bytes.
fn front_register(uuid: &[u8; 16], object: u64, unit: u64, valid: u32) -> u32
    ensures { result ≡ extend 0xFFFFFFFF (unit_front uuid.now object unit valid) }
{
    let a = software_extend(0xFFFF_FFFF, b"CFSXDATA");
    let b = software_extend(a, uuid);
    let c = software_extend(b, &object.to_le_bytes());
    let d = software_extend(c, &unit.to_le_bytes());
    software_extend(d, &valid.to_le_bytes())
}

impl DataUnitCrc {
    // No byte of the unit is seen yet, and so many are to come.
    #[tactic(auto, unfolding(crate::specs::DataUnit::unit_new, crate::specs::DataUnit::unit_words, error::specs::Demand::outcome))]
    pub fn new(uuid: &[u8; 16], object: u64, unit: u64, valid: usize) -> Result<Self, Error>
        ensures answer { result ≡ unit_new uuid.now object unit valid }
        ensures words { unit_words result ≡ unit_words (unit_new uuid.now object unit valid) }
    {
        if !(1..=UNIT_BYTES).contains(&valid) {
            return Err(Error::InvalidInput(UNLISTED));
        }
        Ok(DataUnitCrc {
            register: front_register(uuid, object, unit, valid as u32),
            valid,
            seen: 0,
        })
    }

    // The next valid bytes.
    #[tactic(auto, unfolding(crate::specs::DataUnit::unit_update))]
    pub fn update(&mut self, bytes: &[u8])
        ensures { self.new ≡ unit_update self.old bytes.now }
    {
        self.register = software_extend(self.register, bytes);
        self.seen = self.seen.saturating_add(bytes.len());
    }

    // The checksum, once exactly the valid bytes were seen; zeros fill up the unit.
    #[tactic(auto, unfolding(crate::specs::DataUnit::unit_finish, error::specs::Demand::outcome))]
    pub fn finish(self) -> Result<u64, Error>
        ensures answer { result ≡ unit_finish self }
        ensures words { number_words result ≡ number_words (unit_finish self) }
    {
        if self.seen != self.valid {
            return Err(Error::InvalidInput(UNLISTED));
        }
        let padded = extend_zeros(self.register, UNIT_BYTES.saturating_sub(self.valid));
        Ok(u64::from(padded ^ 0xFFFF_FFFF))
    }
}

// The checksum of one unit of a file's data. `valid` holds its valid bytes, 1 to 65,536; zeros fill it up.
#[tactic(auto, using(crate::proofs::Pieces::at_once, crate::proofs::Pieces::at_once_refused))]
pub fn data_unit_crc(uuid: &[u8; 16], object: u64, unit: u64, valid: &[u8]) -> Result<u64, Error>
    ensures answer { result ≡ data_unit_crc uuid.now object unit valid.now }
    ensures words { number_words result ≡ number_words (data_unit_crc uuid.now object unit valid.now) }
{
    let mut sum = DataUnitCrc::new(uuid, object, unit, valid.len())?;
    sum.update(valid);
    sum.finish()
}
