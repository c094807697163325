//! The first line of a scenario: its genesis and how many nodes it has.

ghost use Rattle.std.specs.Prelude.{◌≡◌, ◌<◌, ◌≤◌, pos, negsuc, ◌+ℤ◌, ◌≤ℤ◌, not, IfOk, OnOk, All, length};
ghost use Rattle.serde_json.specs.View.{view, items_view};
ghost use Rattle.dx_spec.specs.Step.{refuse};
ghost use Rattle.dx_spec.specs.Genesis.{IsFrom, IsNatFrom, IsParams, IsGenesis};
ghost use Rattle.dx_scenario.specs.Parts.{Finds, Reads, value_of};
ghost use Rattle.dx_scenario.specs.Genesis.{is_value_exponent, market_of, rates_of, IsRates, IsUnscaled, markets_of, params_in, genesis_in, genesis_behind, genesis_of};

use crate::fault::LineFault;
use crate::parts::{
    closed, i32_within, i64_within, items_part, line_ends, u32_within, u64_within, value_part,
    word_part,
};
use crate::scaling::scaling_in;
use crate::shape::{Shape, each_of};
use crate::value::value_of;
use dx_print::Word;
use dx_types::limits::{FUND_LIMIT, LAST_MOMENT, MOST_MARKETS, QUOTE_DECIMALS};
use dx_types::{Genesis, List, MarketParams, Params};
use serde_json::Value;
use std::alloc::Global;

/// A scenario may have so many nodes.
const MOST_NODES: u32 = 16;

/// The five rates of a genesis, in parts per million.
#[derive(Clone, Copy, Debug, PartialEq, Eq)]
struct Rates {
    taker: u32,
    maker: u32,
    liq_cap: u32,
    spread: u32,
    bankruptcy: u32,
}

/// The power of ten by which size times price is value is from -18 to 6.
fn check_exponent(place: u32, price_exponent: i32, atomic: i32) -> Result<(), LineFault>
    requires exponent { IsFrom (negsuc 17) (pos 12) price_exponent }
    requires atomic { IsFrom (negsuc 17) (pos 0) atomic }
    ensures read { Finds result (refuse place (not (is_value_exponent price_exponent atomic))) }
    ensures good { OnOk result (IsFrom (negsuc 17) (pos 6) (price_exponent +ℤ atomic +ℤ pos 6)) }
{
    let exponent = price_exponent + atomic + QUOTE_DECIMALS;
    if exponent < -18 {
        return Err(LineFault::Bad { field: place });
    }
    if exponent > 6 {
        return Err(LineFault::Bad { field: place });
    }
    Ok(())
}

#[tactic(auto, unfolding(crate::specs::Genesis::market_of))]
fn market_of(value: &Value, place: u32) -> Result<MarketParams, LineFault>
    ensures read { Finds result (market_of place (view value.now)) }
    ensures good { IfOk result (λ market. IsUnscaled market) }
{
    let atomic = i32_within(value, place, 0, -18, 0)?;
    let conversion = i32_within(value, place, 1, -12, 0)?;
    let step = u64_within(value, place, 2, 1, 281_474_976_710_655)?;
    let tick = u64_within(value, place, 3, 1, 1_099_511_627_775)?;
    let price_exponent = i32_within(value, place, 4, -18, 12)?;
    check_exponent(place, price_exponent, atomic)?;
    let price = u64_within(value, place, 5, 1, 281_474_976_710_655)?;
    let initial = u32_within(value, place, 6, 1, 1_000_000)?;
    let maintenance = u32_within(value, place, 7, 1, 1_000_000)?;
    let impact = u64_within(value, place, 8, 1, 72_057_594_037_927_935)?;
    let rate_cap = u32_within(value, place, 9, 0, 1_000_000)?;
    closed(value, place, 10)?;
    Ok(MarketParams {
        atomic,
        conversion,
        step,
        tick,
        price_exponent,
        price,
        initial,
        maintenance,
        impact,
        rate_cap,
        lower: 0,
        upper: 0,
    })
}

#[tactic(auto, unfolding(crate::specs::Genesis::rates_of))]
fn rates_of(value: &Value, place: u32) -> Result<Rates, LineFault>
    ensures read { Finds result (rates_of place (view value.now)) }
    ensures good { IfOk result (λ rates. IsRates rates) }
{
    let taker = u32_within(value, place, 0, 0, 100_000)?;
    let maker = u32_within(value, place, 1, 0, 100_000)?;
    let liq_cap = u32_within(value, place, 2, 0, 1_000_000)?;
    let spread = u32_within(value, place, 3, 0, 10_000_000)?;
    let bankruptcy = u32_within(value, place, 4, 1_000_000, 10_000_000)?;
    closed(value, place, 5)?;
    Ok(Rates {
        taker,
        maker,
        liq_cap,
        spread,
        bankruptcy,
    })
}

impl Shape for MarketParams {
    ghost reads = { market_of };

    ghost is_good = { IsUnscaled };

    fn of(_alloc: Global, value: &Value, place: u32) -> Result<MarketParams, LineFault> {
        market_of(value, place)
    }
}

#[tactic(auto, unfolding(crate::specs::Genesis::markets_of), using(crate::proofs::Lists::item_count_view))]
fn markets_of(alloc: Global, values: &[Value], place: u32) -> Result<List<MarketParams>, LineFault>
    ensures read { Reads result (markets_of place (items_view values.now)) }
    ensures good { IfOk result (λ markets. All IsUnscaled markets) }
    ensures few { IfOk result (λ markets. length markets ≤ 32) }
{
    if values.len() > MOST_MARKETS {
        return Err(LineFault::Bad { field: place });
    }
    each_of(alloc, values, place)
}

/// The parameters of all markets, from the elements 4 to 6, without a scale of margins.
#[tactic(auto, unfolding(crate::specs::Genesis::params_in), using(crate::proofs::Scales::in_ranges, crate::proofs::Scales::unscaled))]
fn params_in(alloc: Global, line: &Value) -> Result<Params, LineFault>
    ensures read { Reads result (params_in (view line.now)) }
    ensures good { IfOk result (λ params. IsParams params) }
{
    let min_votes = u32_within(line, 4, 4, 1, 60)?;
    let rates = rates_of(value_part(line, 5, 5)?, 5)?;
    let markets = markets_of(alloc, items_part(line, 6, 6)?, 6)?;
    Ok(Params {
        min_votes,
        taker_ppm: rates.taker,
        maker_ppm: rates.maker,
        liq_cap_ppm: rates.liq_cap,
        spread_ppm: rates.spread,
        bankruptcy_ppm: rates.bankruptcy,
        markets,
        scale_from: None,
    })
}

#[tactic(auto, unfolding(crate::specs::Genesis::genesis_in))]
fn genesis_in(alloc: Global, line: &Value) -> Result<(u32, Genesis), LineFault>
    ensures read { Reads result (genesis_in (view line.now)) }
    ensures nodes { IfOk result (λ r. IsNatFrom 1 16 r.0) }
    ensures good { IfOk result (λ r. IsGenesis r.1) }
{
    let nodes = u32_within(line, 1, 1, 1, MOST_NODES)?;
    let time = u32_within(line, 2, 2, 0, LAST_MOMENT)?;
    let insurance = i64_within(line, 3, 3, 0, FUND_LIMIT - 1)?;
    let params = scaling_in(alloc, line, params_in(alloc, line)?)?;
    line_ends(line, 8)?;
    let genesis = Genesis {
        time,
        insurance,
        params,
    };
    Ok((nodes, genesis))
}

#[tactic(auto, unfolding(crate::specs::Genesis::genesis_behind))]
fn genesis_behind(alloc: Global, line: &Value, word: Word) -> Result<(u32, Genesis), LineFault>
    ensures read { Reads result (genesis_behind (view line.now) word) }
    ensures nodes { IfOk result (λ r. IsNatFrom 1 16 r.0) }
    ensures good { IfOk result (λ r. IsGenesis r.1) }
{
    if word != Word::Genesis {
        return Err(LineFault::Bad { field: 0 });
    }
    genesis_in(alloc, line)
}

/// The number of nodes and the genesis of a scenario's first line.
///
/// `Bad` is exactly where the line is no genesis in its ranges. The number of nodes is 1 to 16.
pub fn read_genesis(alloc: Global, line: &[u8]) -> Result<(u32, Genesis), LineFault>
    ensures read { Reads result (genesis_of line.now) }
    ensures nodes { IfOk result (λ r. IsNatFrom 1 16 r.0) }
    ensures good { IfOk result (λ r. IsGenesis r.1) }
{
    let value = value_of(alloc, line)?;
    genesis_behind(alloc, &value, word_part(&value)?)
}
