// Bytes: stored numbers at an offset, numbers inside keys, zeros, copies, and comparisons.
#![tactic(auto)]

ghost use Rattle.std.specs.Prelude.{◌≡◌, ◌+◌, ◌-◌, ◌≤◌, min, length, drop, ok_or};
ghost use Rattle.octets.specs.Bytes.{byte_at, part, IsPart, IsRest, padded_to, Laid, all_zero, same_bytes, starts_with};
ghost use Rattle.error.specs.Answer.{number_words};
ghost use Rattle.error.specs.declared.Error.TheVariants.{Corrupt};
ghost use Rattle.octets.specs.Number.{u16_at, u32_at, u64_at, big_at};
ghost use Rattle.octets.specs.Order.{order, is_greater, order_words};
ghost use Rattle.octets.specs.Inside.{array_at, Decides};
ghost use Rattle.octets.specs.Reads.{read_of};

use error::Error;
use std::cmp::Ordering;

// The N bytes at an offset, where they all stand there.
fn array_at<const N: usize>(bytes: &[u8], offset: usize) -> Option<[u8; N]>
    ensures { result ≡ array_at bytes.now offset N }
{
    bytes.get(offset..)?.first_chunk::<N>().copied()
}

// The same, or corruption with the caller's reason.
fn read_array<const N: usize>(bytes: &[u8], offset: usize, reason: u16) -> Result<[u8; N], Error>
    ensures { result ≡ ok_or (array_at bytes.now offset N) (Corrupt reason) }
{
    array_at(bytes, offset).ok_or(Error::Corrupt(reason))
}

// The N bytes at a place, zeros for those past the end.
// Kept: a match: tried as `unwrap_or_else`: of what a closure over a generic function gives nothing is known.
fn filled_at<const N: usize>(bytes: &[u8], at: usize) -> [u8; N]
    ensures { result ≡ padded_to N (drop at bytes.now) }
{
    match array_at(bytes, at) {
        Some(all) => all,
        None => padded(tail(bytes, at)),
    }
}

// The u16 at an offset, or corruption with the caller's reason.
// Kept: a name for each width, here and at `u16_at`, each a line over one reader: `read::<u16>(..)` would need a trait with an impl of that line for each of the three.
pub fn read_u16_le(bytes: &[u8], offset: usize, reason: u16) -> Result<u16, Error>
    ensures answer { result ≡ read_of bytes.now offset 2 reason }
    ensures words { number_words result ≡ number_words (read_of bytes.now offset 2 reason) }
{
    Ok(u16::from_le_bytes(read_array(bytes, offset, reason)?))
}

// The same of the u32.
pub fn read_u32_le(bytes: &[u8], offset: usize, reason: u16) -> Result<u32, Error>
    ensures answer { result ≡ read_of bytes.now offset 4 reason }
    ensures words { number_words result ≡ number_words (read_of bytes.now offset 4 reason) }
{
    Ok(u32::from_le_bytes(read_array(bytes, offset, reason)?))
}

// The same of the u64.
pub fn read_u64_le(bytes: &[u8], offset: usize, reason: u16) -> Result<u64, Error>
    ensures answer { result ≡ read_of bytes.now offset 8 reason }
    ensures words { number_words result ≡ number_words (read_of bytes.now offset 8 reason) }
{
    Ok(u64::from_le_bytes(read_array(bytes, offset, reason)?))
}

// The byte at a place, 0 past the end.
pub fn byte_at(bytes: &[u8], at: usize) -> u8
    ensures { result ≡ byte_at bytes.now at }
{
    bytes.get(at).copied().unwrap_or(0)
}

// The u16 at a place; bytes past the end count as 0.
pub fn u16_at(bytes: &[u8], at: usize) -> u16
    ensures { result ≡ u16_at bytes.now at }
{
    u16::from_le_bytes(filled_at(bytes, at))
}

// The same of the u32.
pub fn u32_at(bytes: &[u8], at: usize) -> u32
    ensures { result ≡ u32_at bytes.now at }
{
    u32::from_le_bytes(filled_at(bytes, at))
}

// The same of the u64.
pub fn u64_at(bytes: &[u8], at: usize) -> u64
    ensures { result ≡ u64_at bytes.now at }
{
    u64::from_le_bytes(filled_at(bytes, at))
}

// The big-endian number of the 8 bytes at a place of a key, 0 where they don't all stand there.
pub fn big_at(key: &[u8], at: usize) -> u64
    ensures { result ≡ big_at key.now at }
{
    array_at(key, at).map_or(0, u64::from_be_bytes)
}

// The part from a place on, the caller's own memory; nothing where the place is past its end.
pub fn tail(bytes: &[u8], from: usize) -> &[u8]
    ensures { IsRest bytes.entry from result }
{
    &bytes[from.min(bytes.len())..]
}

// The part from start up to end, as far as the bytes go, the caller's own memory.
pub fn span(bytes: &[u8], start: usize, end: usize) -> &[u8]
    ensures { IsPart bytes.entry start (end - start) result }
{
    let rest = tail(bytes, start);
    &rest[..end.saturating_sub(start).min(rest.len())]
}

// Whether every byte is zero. No early way out: valid bytes are all zero.
pub fn all_zero(bytes: &[u8]) -> bool
    ensures { result ≡ all_zero bytes.now }
{
    bytes.iter().fold(0, |seen, &byte| seen | byte) == 0
}

// Whether two parts hold the same bytes.
// Kept, with `starts_with` and `compare` below: a public function may not go; each is already a line over the library, and callers' proofs go by our definition.
pub fn same_bytes(a: &[u8], b: &[u8]) -> bool
    ensures { result ≡ same_bytes a.now b.now }
{
    a == b
}

// Whether a text stands at the front.
pub fn starts_with(bytes: &[u8], text: &[u8]) -> bool
    ensures { result ≡ starts_with bytes.now text.now }
{
    bytes.starts_with(text)
}

// Bytewise order; a proper prefix is smaller.
pub fn compare(a: &[u8], b: &[u8]) -> Ordering
    ensures answer { result ≡ order a.now b.now }
    ensures words { order_words result ≡ order_words (order a.now b.now) }
{
    a.cmp(b)
}

// The 8 bytes at a place where they all stand.
fn eight(bytes: &[u8], at: usize) -> [u8; 8]
    requires { at + 8 ≤ length bytes.now }
    ensures { result ≡ part bytes.now at 8 }
{
    bytes[at..at + 8].try_into().unwrap()
}

// Where eight bytes decide the order: the first that differ of those at 0, 8, 16 and so on, or the last eight of the shorter string.
// Kept: a `for` that returns: with `find` the closure, which reads eight bytes at each place, needs a `requires` of its own: that they stand there.
fn deciding_group(a: &[u8], b: &[u8], last: usize) -> usize
    requires { last + 8 ≡ min (length a.now) (length b.now) }
    ensures { Decides a.now b.now result }
{
    for i in (0..last).step_by(8) {
        if eight(a, i) != eight(b, i) {
            return i;
        }
    }
    last
}

// Whether the first string is above the second, by the eight bytes that decide it: big-endian numbers are ordered as their bytes are.
fn above_group(a: &[u8], b: &[u8], at: usize) -> bool
    requires { Decides a.now b.now at }
    ensures { result ≡ is_greater (order a.now b.now) }
{
    let (x, y) = (eight(a, at), eight(b, at));
    if x != y {
        return u64::from_be_bytes(y) < u64::from_be_bytes(x);
    }
    b.len() < a.len()
}

// Kept: by the library's order, `a.cmp(b).is_gt()`, a halving search among keys of 44 bytes takes 2.3 of the time, and misses the goal for lookups (docs/SPEED.md).
// Whether the first string is above the second. No branch goes by which of two differing groups is the larger: for sought keys that can't be foretold.
pub fn is_above(a: &[u8], b: &[u8]) -> bool
    ensures { result ≡ is_greater (order a.now b.now) }
{
    let shorter = a.len().min(b.len());
    if shorter < 8 {
        return compare(a, b).is_gt();
    }
    above_group(a, b, deciding_group(a, b, shorter - 8))
}

// Lays bytes into a lent buffer from a place on, and says where they end; what the buffer has no room for is left out.
// Kept: `out` and `at`: fixed memory; the promise speaks of the whole buffer, before and after, and a writer in its place would need a second clause.
pub fn put(out: &mut [u8], at: usize, bytes: &[u8]) -> usize
    ensures { Laid out.old at bytes.now out.new result }
{
    if out.len() < at {
        return at;
    }
    let n = bytes.len().min(out.len() - at);
    out[at..at + n].copy_from_slice(&bytes[..n]);
    at + n
}

// The first N bytes of a part in an array, zeros after them.
pub fn padded<const N: usize>(bytes: &[u8]) -> [u8; N]
    ensures { result ≡ padded_to N bytes.now }
{
    let mut out = [0u8; N];
    put(&mut out, 0, bytes);
    out
}
