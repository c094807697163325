//! The best level of a side, and the one behind a price.

ghost use Rattle.std.specs.Prelude.{◌≡◌, None, Some, T as Holds};
ghost use Rattle.std.specs.FinMap.Entries.{is_sorted};
ghost use Rattle.dx_book.specs.Names.{level_cmp};
ghost use Rattle.dx_spec.specs.Orders.{is_same_side as is_one_side};
ghost use Rattle.dx_book.specs.Levels.{is_better_price, is_behind, is_past, first_level, start_of};

use crate::ends::Ends;
use crate::names::Level;
use crate::table::place_of;

/// Whether two sides are one.
fn is_same_side(a: bool, b: bool) -> bool
    ensures { result ≡ is_one_side a b }
{
    if a { b } else { !b }
}

/// Whether the first price is the better one on a side.
fn is_better(buy: bool, subticks: u64, other: u64) -> bool
    ensures { result ≡ is_better_price buy subticks other }
{
    if buy {
        other < subticks
    } else {
        subticks < other
    }
}

/// Whether a level is of a side, and behind a price, if there is one.
fn stands_behind(level: Level, market: u32, buy: bool, price: Option<u64>) -> bool
    ensures { result ≡ is_behind market buy price level }
{
    match price {
        Some(subticks) => {
            level.market == market
                && is_same_side(buy, level.buy)
                && is_better(buy, subticks, level.subticks)
        }
        None => level.market == market && is_same_side(buy, level.buy),
    }
}

/// Whether no level of a side stands behind a level: that is of a later market, or a bid where asks are meant.
fn stands_past(level: Level, market: u32, buy: bool) -> bool
    ensures { result ≡ is_past market buy level }
{
    market < level.market || (level.market == market && level.buy && !buy)
}

/// The key of the first order of the first level that is of a side, and behind a price, if there is one. It
/// goes no further than the side.
fn first_behind(
    levels: &[(Level, Ends)],
    market: u32,
    buy: bool,
    price: Option<u64>,
) -> Option<usize>
    requires { Holds (is_sorted level_cmp levels.now) }
    ensures { result ≡ first_level (is_behind market buy price) levels.now }
{
    for number in 0..levels.len() {
        let row = levels[number];
        if stands_behind(row.0, market, buy, price) {
            return Some(row.1.first);
        }
        if stands_past(row.0, market, buy) {
            return None;
        }
    }
    None
}

/// A level that no level of a side stands before.
fn start_of_side(market: u32, buy: bool) -> Level
    ensures { result ≡ start_of market buy }
{
    Level {
        market,
        buy: false,
        subticks: if buy { u64::MAX } else { 0 },
    }
}

/// The key of the first order of the best level of a side.
pub(crate) fn best_of_side(levels: &[(Level, Ends)], market: u32, buy: bool) -> Option<usize>
    requires { Holds (is_sorted level_cmp levels.now) }
    ensures { result ≡ first_level (is_behind market buy None) levels.now }
{
    let (_, rest) = levels.split_at(place_of(levels, start_of_side(market, buy)));
    first_behind(rest, market, buy, None)
}

/// The key of the first order of the level behind another, on its side.
pub(crate) fn best_behind(levels: &[(Level, Ends)], level: Level) -> Option<usize>
    requires { Holds (is_sorted level_cmp levels.now) }
    ensures { result ≡ first_level (is_behind level.market level.buy (Some level.subticks)) levels.now }
{
    let (_, rest) = levels.split_at(place_of(levels, level));
    first_behind(rest, level.market, level.buy, Some(level.subticks))
}
