//! The walk over one side of a market.

ghost use Rattle.std.specs.Prelude.{◌≡◌, ◌<◌, ◌^◌, pos, Some, IsSome, IfSome, slice_get};
ghost use Rattle.dx_node_spec.specs.Book.{side_of};
ghost use Rattle.dx_node_spec.specs.Votes.{impact_walk, impact_base as base_of};
ghost use Rattle.dx_margin.specs.Ranges.{IsMarket};
ghost use Rattle.dx_book.specs.Held.{named};
ghost use Rattle.dx_impact.specs.Ranges.{HasMarket, HasPrices, IsPriced};

use crate::costs::{bounded, cost, left, size_for};
use dx_book::{Book, OrderKey, uncounted};
use dx_ledger::Ledger;
use dx_types::{MarketInfo, Order};

/// A market of the ledger, if it is known; its numbers are in their ranges.
pub(crate) fn market_of<L: Ledger>(l: &L, market: u32) -> Option<MarketInfo>
    requires { HasMarket (L.content l.now).markets market }
    ensures value { result ≡ slice_get (L.content l.now).markets market }
    ensures ranges { IfSome result IsMarket }
{
    l.info(market)
}

/// The order of a held key; its size and its price are in their bounds.
fn priced_order(b: &Book, key: OrderKey) -> Order
    requires orders { HasPrices b.now.orders }
    requires held { IsSome (named b.now key) }
    ensures order { named b.now key ≡ Some result }
    ensures priced { IsPriced result }
{
    uncounted::order(b, key)
}

/// Walks over a side of a market until its orders give the market's impact.
fn walk<L: Ledger>(b: &Book, l: &L, m: &MarketInfo, market: u32, buy: bool) -> Option<u64>
    requires market { IsMarket m.now }
    requires orders { HasPrices b.now.orders }
    ensures value { result
        ≡ impact_walk (L.content l.now) m.now (side_of b.now.orders market buy) 0 (pos m.now.params.impact) }
    ensures small { IfSome result (λ base. base < 2 ^ 48) }
{
    let mut base = 0;
    let mut rest = m.params.impact;
    let mut next = uncounted::first(b, market, buy);
    for _number in 0..b.len() {
        let Some(key) = next else {
            return None;
        };
        let order = priced_order(b, key);
        let left = left(l, &order);
        let cost = cost(&m.params, order.subticks, left);
        if u128::from(rest) <= cost {
            return bounded(base + size_for(&m.params, order.subticks, rest));
        }
        base += u128::from(left);
        rest -= cost as u64;
        next = uncounted::next(b, key);
    }
    None
}

/// The size that gives a market's impact on one side of a book: base quantums, below 2^48.
///
/// The orders of the side are gone through, the best price first and then the earliest, each with what is left
/// of it in the ledger. An order that costs less than the rest of the impact adds what is left of it; the next
/// one adds the size that costs the rest at its price, rounded up. None where the orders end before, where the
/// size would be out of its bound, and where there is no such market.
///
/// The numbers of the market, and the size and the price of each order of the book, are in their ranges.
#[tactic(auto, unfolding(dx_node_spec::specs::Votes::impact_base))]
pub fn impact_base<L: Ledger>(b: &Book, l: &L, market: u32, buy: bool) -> Option<u64>
    requires market { HasMarket (L.content l.now).markets market }
    requires orders { HasPrices b.now.orders }
    ensures value { result ≡ base_of b.now.orders (L.content l.now) market buy }
    ensures small { IfSome result (λ base. base < 2 ^ 48) }
{
    let m = market_of(l, market)?;
    walk(b, l, &m, market, buy)
}
