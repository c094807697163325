//! The vote on a market's premium.

ghost use Rattle.std.specs.Prelude.{◌≡◌, ◌<◌, ◌^◌, ◌-ℤ◌, neg_ℤ, IfSome};
ghost use Rattle.dx_num.specs.Rounding.{clamp as nearest, million};
ghost use Rattle.dx_spec.specs.Premiums.{premium as premium_of};
ghost use Rattle.dx_node_spec.specs.Votes.{vote as vote_on};
ghost use Rattle.dx_margin.specs.Ranges.{IsMarket};
ghost use Rattle.dx_impact.specs.Ranges.{HasMarket, HasPrices};

use crate::bases::{impact_base, market_of};
use dx_book::Book;
use dx_ledger::Ledger;
use dx_num::difference;
use dx_premium::{ask_part, bid_part};
use dx_types::MarketInfo;
use dx_types::limits::MOST_PREMIUM;

/// The nearest premium in its bounds.
fn bounded(premium: i128) -> i32
    ensures { result ≡ nearest premium (neg_ℤ million) million }
{
    let most = i128::from(MOST_PREMIUM);
    premium.clamp(-most, most) as i32
}

/// The premium of a market whose impact has these bases on the two sides of a book.
#[tactic(auto, unfolding(dx_spec::specs::Premiums::premium))]
fn premium(m: &MarketInfo, bids: Option<u64>, asks: Option<u64>) -> i32
    requires market { IsMarket m.now }
    requires bids { IfSome bids (λ base. base < 2 ^ 48) }
    requires asks { IfSome asks (λ base. base < 2 ^ 48) }
    ensures { result ≡ premium_of m.now.params.impact bids asks m.now }
{
    let impact = m.params.impact;
    bounded(difference(bid_part(impact, bids, m), ask_part(impact, asks, m)))
}

/// A node's vote on the premium of a market, from −1,000,000 to 1,000,000 parts per million: how far the price
/// at which the bids give the market's impact is above its price, less how far that of the asks is below it
/// ("Premium vote of a node" in docs/RULES.md). A side that does not give the impact adds nothing, and the vote on an
/// unknown market is 0.
///
/// The numbers of the market, and the size and the price of each order of the book, are in their ranges.
#[tactic(auto, unfolding(dx_node_spec::specs::Votes::vote))]
pub fn vote<L: Ledger>(b: &Book, l: &L, market: u32) -> i32
    requires market { HasMarket (L.content l.now).markets market }
    requires orders { HasPrices b.now.orders }
    ensures { result ≡ vote_on b.now.orders (L.content l.now) market }
{
    match market_of(l, market) {
        Some(m) => premium(
            &m,
            impact_base(b, l, market, true),
            impact_base(b, l, market, false),
        ),
        None => 0,
    }
}
