//! What an order gives of an impact.

ghost use Rattle.std.specs.Prelude.{◌≡◌, ◌<◌, ◌≤◌, ◌^◌, ◌<ℤ◌, ◌≤ℤ◌, ◌*ℤ◌, pos, negsuc, unsigned_abs, IfSome};
ghost use Rattle.dx_num.specs.Rounding.{ceil_div as ceiling, ten_up as up, ten_down as down};
ghost use Rattle.dx_spec.specs.Genesis.{IsMarketParams};
ghost use Rattle.dx_spec.specs.Margin.{quote as quote_of};
ghost use Rattle.dx_spec.specs.State.{filled_of as filled_in};
ghost use Rattle.dx_node_spec.specs.Book.{left as left_in};
ghost use Rattle.dx_node_spec.specs.Votes.{size_or_none as in_bound};

use dx_ledger::Ledger;
use dx_margin::quote;
use dx_num::{ceil_div, power_of_ten, product};
use dx_types::limits::SIZE_LIMIT;
use dx_types::{MarketParams, Order, OrderId};

/// How much of an order is filled: base quantums.
fn filled_of<L: Ledger>(l: &L, id: &OrderId) -> u64
    ensures { result ≡ filled_in (L.content l.now) id.now }
{
    match l.filled(id) {
        Some(record) => record.amount,
        None => 0,
    }
}

/// What is left of an order: base quantums.
pub(crate) fn left<L: Ledger>(l: &L, o: &Order) -> u64
    ensures value { result ≡ left_in (L.content l.now) o.now }
    ensures most { result ≤ o.now.size }
{
    o.size.saturating_sub(filled_of(l, &o.id))
}

/// What an amount costs at an order's price: quote quantums, rounded down.
#[tactic(auto, using(crate::proofs::Quotes::quote_again))]
pub(crate) fn cost(p: &MarketParams, subticks: u64, amount: u64) -> u128
    requires params { IsMarketParams p.now }
    requires subticks { subticks < 2 ^ 40 }
    requires amount { amount < 2 ^ 48 }
    ensures { pos result ≡ quote_of p.now subticks amount }
{
    quote(p, subticks, amount).unsigned_abs()
}

/// The power of ten that makes base quantums times subticks of a quote.
#[tactic(auto, using(crate::proofs::Quotes::ten_down_is, crate::proofs::Quotes::ten_small))]
fn ten_down(conversion: i32) -> i128
    requires least { negsuc 11 ≤ℤ conversion }
    requires most { conversion ≤ℤ pos 0 }
    ensures value { result ≡ down conversion }
    ensures small { unsigned_abs result < 2 ^ 40 }
{
    power_of_ten(conversion.unsigned_abs())
}

/// A part of an impact, scaled to base quantums times subticks.
fn scaled(rest: u64, ten: i128) -> i128
    requires rest { rest < 2 ^ 56 }
    requires ten { unsigned_abs ten < 2 ^ 40 }
    ensures value { result ≡ pos rest *ℤ ten }
    ensures small { unsigned_abs result < 2 ^ 96 }
{
    product(i128::from(rest), ten)
}

/// An order's price, as the divisor of base quantums times subticks.
#[tactic(auto, using(crate::proofs::Quotes::ten_up_is))]
fn divisor(p: &MarketParams, subticks: u64) -> i128
    requires params { IsMarketParams p.now }
    requires least { 1 ≤ subticks }
    ensures value { result ≡ pos subticks *ℤ up p.now.conversion }
    ensures positive { pos 0 <ℤ result }
{
    let _conversion = p.conversion;
    i128::from(subticks)
}

/// The size of which an order's price makes the rest of an impact: base quantums, rounded up.
pub(crate) fn size_for(p: &MarketParams, subticks: u64, rest: u64) -> u128
    requires params { IsMarketParams p.now }
    requires least { 1 ≤ subticks }
    requires rest { rest < 2 ^ 56 }
    ensures value { result
        ≡ unsigned_abs (ceiling (pos rest *ℤ down p.now.conversion) (pos subticks *ℤ up p.now.conversion)) }
    ensures small { result < 2 ^ 96 }
{
    let scaled = scaled(rest, ten_down(p.conversion));
    ceil_div(scaled, divisor(p, subticks)).unsigned_abs()
}

/// A base within the bound of a size.
pub(crate) fn bounded(base: u128) -> Option<u64>
    ensures value { result ≡ in_bound base }
    ensures small { IfSome result (λ size. size < 2 ^ 48) }
{
    if base < u128::from(SIZE_LIMIT) {
        Some(base as u64)
    } else {
        None
    }
}
