// Calls 6 to 11: UTF-8, zeros, stored numbers, bytewise order.
ghost use Rattle.std.specs.Prelude.{◌≡◌};
ghost use Rattle.octets.specs.Order.{order_words};
ghost use Rattle.calls.specs.Told.{fields_in};
ghost use Rattle.calls.specs.Table.{octet_rows};

use crate::tell::{bit, number, told};
use crate::{Fields, Numbers, within};
use std::cmp::Ordering;

#[tactic(auto, unfolding(octets::specs::Order::order_words))]
fn order(order: Ordering) -> Fields
    ensures { result ≡ order_words order }
{
    match order {
        Ordering::Less => told([0]),
        Ordering::Equal => told([1]),
        Ordering::Greater => told([2]),
    }
}

#[tactic(auto, unfolding(crate::specs::Told::at_most, crate::specs::Told::fields_in, crate::specs::Table::octet_rows))]
pub(crate) fn answer(call: u8, n: Numbers, a: &[u8], b: &[u8]) -> Fields
    ensures { result ≡ fields_in call (octet_rows n a.now b.now) }
{
    match call {
        6 => bit(utf8::is_utf8(a)),
        7 => bit(octets::all_zero(a)),
        8 => number(octets::read_u16_le(a, n.a as usize, within(n.b)).map(u64::from)),
        9 => number(octets::read_u32_le(a, n.a as usize, within(n.b)).map(u64::from)),
        10 => number(octets::read_u64_le(a, n.a as usize, within(n.b))),
        11 => order(octets::compare(a, b)),
        _ => told([]),
    }
}
