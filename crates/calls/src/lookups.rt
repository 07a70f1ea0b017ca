// Calls 39 and 43: lookups, over the records and over a page's view.
ghost use Rattle.std.specs.Prelude.{◌≡◌, length};
ghost use Rattle.lookup.specs.Floor.{floor_answer, floor_words, scratch_of};
ghost use Rattle.hand.specs.Hand.{scratch_in, given_words, first_words, handed_words};
ghost use Rattle.calls.specs.Table.{page_asked};
ghost use Rattle.calls.specs.Given.{hand_asked};

use crate::tell::told;
use crate::{Fields, Numbers, reference, within};
use error::Error;
use hand::{First, Given, Handed};

// The fields of call 39 but for the scratch, which is lent.
pub fn floor_fields(n: Numbers, payload: &[u8], key: &[u8], scratch: &mut [u16]) -> Fields
    ensures value { result ≡ floor_words (floor_answer payload.now n.a key.now (length scratch.old)) }
    ensures scratch_after { scratch.new ≡ scratch_of payload.now n.a scratch.old }
{
    told(carryfs::floor_words(lookup::floor_answer(payload, n.a as usize, key, scratch)))
}

// Of so many records: whether one is given, of its key and its value the lengths and checksums, how many are left.
fn given_numbers(left: usize, given: Option<Given>) -> [u64; 6]
    ensures { result ≡ given_words left given }
{
    match given {
        Some(g) => [
            1,
            g.key_len as u64,
            u64::from(g.key_sum),
            g.value_len as u64,
            u64::from(g.value_sum),
            g.left as u64,
        ],
        None => [0, 0, 0, 0, 0, left as u64],
    }
}

// Whether a record is found, its index, how many there are from it on, and the first of them.
#[tactic(auto, unfolding(hand::specs::Hand::first_words))]
fn first_numbers(first: Option<First>) -> [u64; 9]
    ensures { result ≡ first_words first }
{
    let Some(f) = first else {
        return [0; 9];
    };
    let [given, key_len, key_sum, value_len, value_sum, left] = given_numbers(f.remaining, f.given);
    [
        1,
        f.index as u64,
        f.remaining as u64,
        given,
        key_len,
        key_sum,
        value_len,
        value_sum,
        left,
    ]
}

// What the view states, and what the lookup finds.
#[tactic(auto, unfolding(hand::specs::Hand::first_words, hand::specs::Hand::handed_words))]
fn handed_numbers(handed: Result<Handed, Error>) -> [u64; 14]
    ensures { result ≡ handed_words handed }
{
    match handed {
        Ok(h) => {
            let [
                found,
                index,
                remaining,
                given,
                key_len,
                key_sum,
                value_len,
                value_sum,
                left,
            ] = first_numbers(h.first);
            [
                0,
                0,
                u64::from(h.level),
                h.data_blocks,
                h.count as u64,
                found,
                index,
                remaining,
                given,
                key_len,
                key_sum,
                value_len,
                value_sum,
                left,
            ]
        }
        Err(e) => carryfs::refused(e),
    }
}

// The fields of call 43 but for the scratch, which is lent.
#[tactic(auto, unfolding(crate::specs::Told::at_most, crate::specs::Given::hand_asked, crate::specs::Table::page_asked))]
pub fn handed_fields(
    n: Numbers,
    uuid: &[u8],
    page: &[u8],
    key: &[u8],
    scratch: &mut [u16],
) -> [u64; 14]
    ensures value { result ≡ handed_words (hand_asked n uuid.now page.now key.now (length scratch.old)) }
    ensures scratch_after { scratch.new ≡ scratch_in (page_asked n uuid.now page.now) page.now scratch.old }
{
    let id = octets::padded::<16>(uuid);
    handed_numbers(hand::hand_out(
        page,
        reference(n.a, n.b),
        &id,
        volume::tree_kind_of(n.c),
        n.d,
        page::expected_of(within(n.e)),
        n.f,
        key,
        scratch,
    ))
}
