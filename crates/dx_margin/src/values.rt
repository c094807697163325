//! What a size is worth, what an amount costs, and what margin a size needs.

ghost use Rattle.std.specs.Prelude.{◌≡◌, ◌<◌, ◌≤◌, ◌^◌, ◌≤ℤ◌, pos, unsigned_abs, false};
ghost use Rattle.dx_spec.specs.Genesis.{IsMarketParams};
ghost use Rattle.dx_spec.specs.Margin.{value as worth, quote as cost, initial_margin as initial, maintenance_margin as maintenance, value_exponent as exponent};
ghost use Rattle.dx_num.specs.Rounding.{ppm_up as parts_up};
ghost use Rattle.dx_margin.specs.Ranges.{IsMarket, IsWorth, IsOpen};

use crate::fractions::initial_fraction;
use dx_num::{magnitude, mul_pow10_floor, ppm_up, product};
use dx_types::limits::QUOTE_DECIMALS;
use dx_types::{MarketInfo, MarketParams};

/// The power of ten by which size times price is value.
fn value_exponent(p: &MarketParams) -> i32
    requires { IsMarketParams p.now }
    ensures { result ≡ exponent p.now }
{
    p.price_exponent + p.atomic + QUOTE_DECIMALS
}

/// What a size is worth at the market's price: quote quantums, rounded down, negative for a short
/// size. The size is in base quantums, of a magnitude below 2^48.
#[tactic(auto, unfolding(dx_spec::specs::Margin::value))]
pub fn value(m: &MarketInfo, size: i64) -> i128
    requires market { IsMarket m.now }
    requires size { unsigned_abs size < 2 ^ 48 }
    ensures { result ≡ worth m.now size }
{
    mul_pow10_floor(
        product(size as i128, m.price as i128),
        value_exponent(&m.params),
    )
}

/// What a size is worth at the market's price ("Value" in docs/RULES.md): quote quantums, rounded down, negative for a
/// short size. The size is in base quantums, of a magnitude below 2^48. The magnitude of the value, which is
/// the result, has to be at most 2^56.
pub fn bounded_value(m: &MarketInfo, size: i64) -> i128
    requires market { IsMarket m.now }
    requires size { unsigned_abs size < 2 ^ 48 }
    requires worth { IsWorth m.now size }
    ensures value { result ≡ worth m.now size }
    ensures small { unsigned_abs result ≤ 2 ^ 56 }
{
    value(m, size)
}

/// What an amount costs at an order's price: quote quantums, rounded down. The price is in subticks,
/// below 2^40, and the amount in base quantums, below 2^48.
#[tactic(auto, unfolding(dx_spec::specs::Margin::quote))]
pub fn quote(p: &MarketParams, subticks: u64, amount: u64) -> i128
    requires market { IsMarketParams p.now }
    requires subticks { subticks < 2 ^ 40 }
    requires amount { amount < 2 ^ 48 }
    ensures { result ≡ cost p.now subticks amount }
{
    mul_pow10_floor(product(amount as i128, subticks as i128), p.conversion)
}

/// A part of the magnitude of a size's value, in parts per million, rounded up to quote quantums.
fn part_of_value(m: &MarketInfo, size: i64, ppm: u32) -> i128
    requires market { IsMarket m.now }
    requires size { unsigned_abs size < 2 ^ 48 }
    requires worth { IsWorth m.now size }
    requires ppm { ppm ≤ 1_000_000 }
    ensures value { result ≡ parts_up (pos (unsigned_abs (worth m.now size))) ppm }
    ensures least { pos 0 ≤ℤ result }
    ensures most { result ≤ℤ pos (2 ^ 56) }
{
    ppm_up(magnitude(value(m, size)), ppm)
}

/// The initial requirement of a size ("Margin" in docs/RULES.md): the market's initial fraction of the magnitude of
/// its value, rounded up to quote quantums, from 0 to 2^56. Where `scaled`, that fraction rises with the value of the
/// market's open interest. The size is in base quantums, of a magnitude below 2^48, and the magnitude of its value
/// has to be at most 2^56 quote quantums; the open interest keeps its bounds.
#[tactic(auto, unfolding(dx_spec::specs::Margin::initial_margin))]
pub fn initial_margin(m: &MarketInfo, size: i64, scaled: bool) -> i128
    requires market { IsMarket m.now }
    requires size { unsigned_abs size < 2 ^ 48 }
    requires worth { IsWorth m.now size }
    requires interest { IsOpen m.now }
    ensures value { result ≡ initial scaled m.now size }
    ensures least { pos 0 ≤ℤ result }
    ensures most { result ≤ℤ pos (2 ^ 56) }
{
    part_of_value(m, size, initial_fraction(m, scaled))
}

/// The initial requirement of a size where margins are not scaled ("Margin" in docs/RULES.md): the market's `initial`
/// ppm of the magnitude of its value, rounded up to quote quantums, from 0 to 2^56. The size is in base quantums, of a
/// magnitude below 2^48, and the magnitude of its value has to be at most 2^56 quote quantums.
#[tactic(auto, unfolding(dx_spec::specs::Margin::initial_margin, dx_spec::specs::Margin::initial_fraction))]
fn unscaled_margin(m: &MarketInfo, size: i64) -> i128
    requires market { IsMarket m.now }
    requires size { unsigned_abs size < 2 ^ 48 }
    requires worth { IsWorth m.now size }
    ensures value { result ≡ initial false m.now size }
    ensures least { pos 0 ≤ℤ result }
    ensures most { result ≤ℤ pos (2 ^ 56) }
{
    part_of_value(m, size, m.params.initial)
}

/// The maintenance requirement of a size ("Margin" in docs/RULES.md): the market's `maintenance` ppm of the initial
/// requirement that is not scaled, rounded up to quote quantums, from 0 to 2^56. The size is in base quantums, of a
/// magnitude below 2^48, and the magnitude of its value has to be at most 2^56 quote quantums.
#[tactic(auto, unfolding(dx_spec::specs::Margin::maintenance_margin))]
pub fn maintenance_margin(m: &MarketInfo, size: i64) -> i128
    requires market { IsMarket m.now }
    requires size { unsigned_abs size < 2 ^ 48 }
    requires worth { IsWorth m.now size }
    ensures value { result ≡ maintenance m.now size }
    ensures least { pos 0 ≤ℤ result }
    ensures most { result ≤ℤ pos (2 ^ 56) }
{
    ppm_up(unscaled_margin(m, size), m.params.maintenance)
}
