//! The places of orders among all, found by their numbers of arrival.
//!
//! Each order has the number of its arrival, and the keys of all orders stand by rising numbers. So the place of a
//! key is found by halves. The numbers end at the highest of 64 bits: orders that come later than that share it,
//! and the place of one of them is found by a walk over those. An order taken out moves the keys behind its own,
//! eight bytes an order.

ghost use Rattle.std.specs.Prelude.{◌≡◌, ◌≤◌, not, ◌==◌, true, T as Holds, filter, vec_capacity};
ghost use Rattle.std.specs.Ordering.{nat_cmp, eq_by_cmp};
ghost use Rattle.std.specs.FinMap.Entries.{is_sorted, where_key};
ghost use Rattle.dx_book.specs.Arrivals.{place_in, number_of as number_in, AreRising, lower as lower_of};
ghost use Rattle.dx_book.specs.Standing.{AreDistinct, has};

use crate::table::{get, take_out};

/// The number of the arrival behind one.
pub(crate) fn later(number: u64) -> u64
    ensures { number ≤ result }
{
    number.saturating_add(1)
}

/// The number of arrival of a key.
fn number_of(numbers: &[(usize, u64)], key: usize) -> u64
    requires { Holds (is_sorted nat_cmp numbers.now) }
    ensures { result ≡ number_in numbers.now key }
{
    match get(numbers, key) {
        Some(number) => number,
        None => 0,
    }
}

/// A place that is not behind that of a key: that of the first number that is not below the key's.
fn start_of(keys: &[usize], numbers: &[(usize, u64)], key: usize) -> usize
    requires sorted { Holds (is_sorted nat_cmp numbers.now) }
    requires rising { AreRising (number_in numbers.now) keys.now }
    ensures { result ≤ place_in key keys.now }
{
    let number = number_of(numbers, key);
    let mut low = 0;
    let mut high = keys.len();
    while low < high {
        let middle = low + (high - low) / 2;
        if number_of(numbers, keys[middle]) < number {
            low = middle + 1;
        } else {
            high = middle;
        }
    }
    low
}

/// The place of a key among all; behind them all where it is none of them.
pub(crate) fn place_of_key(keys: &[usize], numbers: &[(usize, u64)], key: usize) -> usize
    requires sorted { Holds (is_sorted nat_cmp numbers.now) }
    requires rising { AreRising (number_in numbers.now) keys.now }
    ensures { result ≡ place_in key keys.now }
{
    for place in start_of(keys, numbers, key)..keys.len() {
        if keys[place] == key {
            return place;
        }
    }
    keys.len()
}

/// Takes a held key out of the keys of all orders, and its number with it.
pub(crate) fn forget(keys: &mut Vec<usize>, numbers: &mut Vec<(usize, u64)>, key: usize)
    requires sorted { Holds (is_sorted nat_cmp numbers.old.items) }
    requires rising { AreRising (number_in numbers.old.items) keys.old.items }
    requires distinct { AreDistinct keys.old.items }
    requires held { has key keys.old.items ≡ true }
    ensures keys { keys.new.items ≡ filter (λ k. not (k == key)) keys.old.items }
    ensures room { vec_capacity keys.new ≡ vec_capacity keys.old }
    ensures numbers { numbers.new.items ≡ where_key nat_cmp (λ k. not (eq_by_cmp nat_cmp key k)) numbers.old.items }
    ensures capacity { vec_capacity numbers.new ≡ vec_capacity numbers.old }
{
    let place = place_of_key(keys.as_slice(), numbers.as_slice(), key);
    keys.remove(place);
    take_out(numbers, key);
}

/// The lower of two places.
pub(crate) fn lower(place: usize, other: usize) -> usize
    ensures { result ≡ lower_of place other }
{
    if place < other { place } else { other }
}
