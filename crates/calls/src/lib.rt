// What a call of the program probe answers, in numbers: the function that the call names, on the call's numbers and strings.
#![tactic(auto)]

mod blocks;
pub mod choice;
pub mod lookups;
mod octet;
mod pages;
mod pieces;
mod records;
mod tell;
mod words;

ghost use Rattle.std.specs.Prelude.{◌≡◌};
ghost use Rattle.calls.specs.Told.{IsWithin, mode_of, reference_to};
ghost use Rattle.calls.specs.Given.{numbers_in};
ghost use Rattle.calls.specs.Table.{fields_of};

use error::Validation;
pub use tell::Fields;
use volume::TreeRef;

// The first seven numbers of a call, in their order; of those that a call doesn't take nothing is said.
// Kept: seven fields, not an array: `n.a` would be `n[0]` in the code and `get_or n 0 0` in the definitions.
#[derive(Clone, Copy)]
pub struct Numbers {
    pub a: u64,
    pub b: u64,
    pub c: u64,
    pub d: u64,
    pub e: u64,
    pub f: u64,
    pub g: u64,
}

// A number within the range of a narrower type; another counts as 0.
pub fn within<T: TryFrom<u64> + Default + Drop>(value: u64) -> T
where
    T::Error: Drop,
    ensures { IsWithin T.try_from_gives T.is_default value result }
{
    T::try_from(value).unwrap_or_default()
}

// Kept: a `From` needs a type of its own around the number, since neither u64 nor `Validation` is of this crate: longer than this match.
#[tactic(auto, unfolding(crate::specs::Told::mode_of))]
fn mode(value: u64) -> Validation
    ensures { result ≡ mode_of value }
{
    if value == 0 {
        Validation::Input
    } else {
        Validation::Disk
    }
}

fn reference(block: u64, generation: u64) -> TreeRef
    ensures { result ≡ reference_to block generation }
{
    TreeRef { block, generation }
}

// The first seven numbers of a call, from its bytes; they stand behind its own number, eight bytes each.
pub fn numbers_of(input: &[u8]) -> Numbers
    ensures { result ≡ numbers_in input.now }
{
    Numbers {
        a: octets::u64_at(input, 1),
        b: octets::u64_at(input, 9),
        c: octets::u64_at(input, 17),
        d: octets::u64_at(input, 25),
        e: octets::u64_at(input, 33),
        f: octets::u64_at(input, 41),
        g: octets::u64_at(input, 49),
    }
}

// The fields of a call that the table has; another has none.
// Kept: the number, a byte of probe's protocol, is matched here and again in each part: one match of these calls has 39 arms, and with the
// signature more than the 40 lines that a function may have. So each part answers for every number, by an arm `_ => told([])`, as the rows
// of specs/Table do; where its calls are all of its range no call comes there.
// Kept: a call's number, its numbers and its strings go one by one: each part is lent what its calls take (`blocks` no string, `answer_inode`
// one), and its rows in specs/Table take the same. Of a struct of the four each part would lend all, and clause and arms would say
// `c.n.a`, `c.a` for `n.a`, `a`.
pub fn fields_of(call: u8, n: Numbers, a: &[u8], b: &[u8]) -> Fields
    ensures { result ≡ fields_of call n a.now b.now }
{
    match call {
        0..=5 => words::answer(call, n, a, b),
        6..=11 => octet::answer(call, n, a, b),
        12..=19 => blocks::answer(call, n),
        20..=23 => records::answer_inode(call, n, a),
        24..=26 => records::answer_entry(call, n, a, b),
        27..=31 => records::answer_record(call, n, a, b),
        32..=35 => choice::answer(call, n, a, b),
        36..=43 => pages::answer(call, n, a, b),
        _ => pieces::answer(call, n, a, b),
    }
}
