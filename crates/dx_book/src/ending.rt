//! The earliest order that has ended.

ghost use Rattle.std.specs.Prelude.{◌≡◌, true, false, length, find, slice_get};
ghost use Rattle.dx_book.specs.Arrivals.{earliest};
ghost use Rattle.dx_book.specs.Expiries.{is_over as has_ended, start_of_term as first_of_term};
ghost use Rattle.dx_book.specs.Standing.{orders_in, IsBook};
ghost use Rattle.dx_book.specs.Ways.{is_below_height, is_past_time};

use crate::arrivals::{lower, place_of_key};
use crate::names::Expiry;
use crate::parts::Parts;
use crate::reading::order_at;
use crate::table::place_of;
use dx_types::{Order, SHORT_TERM};

/// Whether orders of an end have ended: short-term ones below a height, or stateful ones by a time.
fn is_over(short_term: bool, bound: u32, expiry: Expiry) -> bool
    ensures { result ≡ has_ended short_term bound expiry }
{
    if short_term {
        expiry.flags == SHORT_TERM && expiry.until < bound
    } else {
        expiry.flags != SHORT_TERM && expiry.until <= bound
    }
}

/// An end that no end of short-term orders stands before, or none of the others.
fn start_of_term(short_term: bool) -> Expiry
    ensures { result ≡ first_of_term short_term }
{
    Expiry {
        flags: if short_term { 0 } else { 1 },
        until: 0,
    }
}

/// The place of the earliest order that has ended: the lowest of the places of the first orders of the chains
/// that have, which stand side by side. Behind all orders where none has.
fn first_over(parts: &Parts, short_term: bool, bound: u32) -> usize
    requires { IsBook parts.now }
    ensures { result ≡ earliest (has_ended short_term bound) parts.now.arrivals.items parts.now.expiries.items
        (length parts.now.arrivals.items) }
{
    let keys = parts.arrivals.as_slice();
    let numbers = parts.numbers.as_slice();
    let expiries = parts.expiries.as_slice();
    let mut place = keys.len();
    for number in place_of(expiries, start_of_term(short_term))..expiries.len() {
        let row = expiries[number];
        if !is_over(short_term, bound, row.0) {
            return place;
        }
        place = lower(place_of_key(keys, numbers, row.1.first), place);
    }
    place
}

/// The earliest short-term order that ends below a height.
pub(crate) fn first_below(parts: &Parts, height: u32) -> Option<Order>
    requires { IsBook parts.now }
    ensures { result ≡ find (is_below_height height) (orders_in parts.now) }
{
    order_at(parts, first_over(parts, true, height))
}

/// The earliest stateful order that ends by a time.
pub(crate) fn first_past(parts: &Parts, time: u32) -> Option<Order>
    requires { IsBook parts.now }
    ensures { result ≡ find (is_past_time time) (orders_in parts.now) }
{
    order_at(parts, first_over(parts, false, time))
}
