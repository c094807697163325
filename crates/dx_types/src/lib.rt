//! The types that the crates of the exchange share: names of accounts and orders, orders, accounts,
//! operations, messages, blocks, markets, the single numbers of a state and the status of a run.
//!
//! It stands on `dx_maps`, whose maps its names are keys of. Fields are public, and contracts see
//! each type as the record of its fields, and a [`List`] as the list of its elements. What a copy
//! gives is equal to what it copies. The types keep no bounds by themselves: the bounds named below
//! hold in every state that the rules reach, and are the limits table of docs/RULES.md; [`limits`] has
//! those that code tests by.
//!
//! Units. Sizes and amounts are in base quantums, money in quote quantums, order prices in
//! subticks, market prices in the market's own price unit, rates and shares in parts per million
//! (ppm), times in seconds. A market is named by its place in the genesis, from 0.
#![tactic(auto)]

mod accounts;
mod copies;
mod keys;
/// The units and the limits of the rules ("Units", "Limits" in docs/RULES.md), as constants that code tests by.
pub mod limits;
mod list;
mod markets;
mod no_memory;
mod orders;
mod status;

use arrayvec::ArrayVec;
pub use list::List;
pub use markets::Markets;
pub use no_memory::NoMemory;
pub use orders::{CONDITIONAL, LONG_TERM, SHORT_TERM};
pub use status::Status;

/// The name of an account: one of an owner's subaccounts. Ordered by owner, then by number.
#[derive(Clone, Copy, Debug, PartialEq, Eq, PartialOrd, Ord)]
pub struct SubaccountId {
    /// The owner, by its number.
    pub owner: u32,
    /// The number of the subaccount among its owner's.
    pub number: u32,
}

/// The name of an order. Ordered by account, client, flags and market, in this order.
#[derive(Clone, Copy, Debug, PartialEq, Eq, PartialOrd, Ord)]
pub struct OrderId {
    /// The account whose order it is.
    pub who: SubaccountId,
    /// The number that the account's client chose.
    pub client: u32,
    /// 0 for a short-term order; of the stateful ones, 32 for a conditional and 64 for a long-term order.
    pub flags: u32,
    /// The market.
    pub market: u32,
}

/// How an order behaves when it is taken.
#[derive(Clone, Copy, Debug, PartialEq, Eq)]
pub enum Kind {
    /// Good till its end: what is not filled at once rests.
    Gtc,
    /// Immediate or cancel: what is not filled at once is dropped.
    Ioc,
    /// Only to rest: it is refused where it would be filled at once.
    PostOnly,
    /// Immediate or cancel, and reduce-only: it closes at most the position that its account has.
    ReduceIoc,
}

/// An order to buy or to sell.
#[derive(Clone, Copy, Debug, PartialEq, Eq)]
pub struct Order {
    /// Its name.
    pub id: OrderId,
    /// Whether it buys.
    pub buy: bool,
    /// Base quantums, a multiple of the market's step, from 1 to 2^48 − 1.
    pub size: u64,
    /// The worst price that it takes, in subticks: a multiple of the market's tick, from 1 to
    /// 2^40 − 1.
    pub subticks: u64,
    /// The last height at which a short-term order is good; the time in seconds from which a
    /// stateful one is no longer good.
    pub until: u32,
    /// How it is taken.
    pub kind: Kind,
}

/// A position in a market.
#[derive(Clone, Copy, Debug, Default, PartialEq, Eq)]
pub struct Position {
    /// The market.
    pub market: u32,
    /// Base quantums, positive where it is long and negative where it is short; its magnitude is
    /// at most 2^48 − 1.
    pub size: i64,
    /// The market's funding index up to which it is settled, from −2^50 to 2^50.
    pub index: i64,
}

/// An account: a quote balance and its positions.
#[derive(Clone, Debug, PartialEq, Eq, Drop)]
pub struct Account {
    /// Quote quantums, from −(2^60 − 1) to 2^60 − 1.
    pub quote: i64,
    /// The positions by rising market, none of size 0: at most 16.
    pub positions: ArrayVec<Position, 16>,
}

/// One fill of a match or of a liquidation.
#[derive(Clone, Copy, Debug, PartialEq, Eq)]
pub struct Fill {
    /// The resting order that is filled.
    pub maker: OrderId,
    /// Base quantums, a multiple of the market's step, from 1 to 2^48 − 1.
    pub amount: u64,
}

/// One offset of a deleveraging.
#[derive(Clone, Copy, Debug, PartialEq, Eq)]
pub struct Offset {
    /// The account that takes over a part of the position.
    pub who: SubaccountId,
    /// Base quantums, a multiple of the market's step, from 1 to 2^48 − 1.
    pub amount: u64,
}

/// An operation of a block.
#[derive(Debug, PartialEq, Eq, Drop)]
pub enum Op {
    /// Brings a short-term order into the block.
    Place(Order),
    /// Fills a taker against makers, in their order.
    Match {
        /// The taking order.
        taker: OrderId,
        /// The makers and amounts.
        fills: List<Fill>,
    },
    /// Closes a part of a position of an account that lacks margin against makers, in their order.
    Liquidate {
        /// The account that is liquidated.
        who: SubaccountId,
        /// The market of the position.
        market: u32,
        /// The makers and amounts.
        fills: List<Fill>,
    },
    /// Closes a part of a position of an account below zero against other accounts, in their order.
    Delever {
        /// The account whose position is closed.
        who: SubaccountId,
        /// The market of the position.
        market: u32,
        /// The other accounts and amounts.
        offsets: List<Offset>,
    },
    /// Drops a stateful order whose account lacks initial margin.
    Remove(OrderId),
}

/// A message of a block.
#[derive(Clone, Copy, Debug, PartialEq, Eq)]
pub enum Msg {
    /// Pays money in, and makes the account where it is new.
    Deposit {
        /// The account that is paid.
        who: SubaccountId,
        /// Quote quantums, from 1 to 2^60 − 1.
        amount: u64,
    },
    /// Pays money out.
    Withdraw {
        /// The account that pays.
        who: SubaccountId,
        /// Quote quantums, from 1 to 2^60 − 1.
        amount: u64,
    },
    /// Moves money, and makes the account that is paid where it is new.
    Transfer {
        /// The account that pays.
        from: SubaccountId,
        /// The account that is paid.
        to: SubaccountId,
        /// Quote quantums, from 1 to 2^60 − 1.
        amount: u64,
    },
    /// Lets a stateful order stand in the state.
    PlaceStateful(Order),
    /// Drops a stateful order, standing or waiting.
    CancelStateful(OrderId),
    /// Lets an order wait in the state until its market's price meets a trigger.
    PlaceConditional {
        /// The order that stands from then on.
        order: Order,
        /// Whether a price at the trigger or above it meets it; else one at the trigger or below it does.
        above: bool,
        /// The price, from 1 to 2^48 − 1.
        trigger: u64,
    },
}

/// A conditional order that waits in the state.
#[derive(Clone, Copy, Debug, PartialEq, Eq)]
pub struct Waiting {
    /// The order that stands once the price of its market meets the trigger.
    pub order: Order,
    /// Whether a price at the trigger or above it meets it; else one at the trigger or below it does.
    pub above: bool,
    /// The price, from 1 to 2^48 − 1.
    pub trigger: u64,
}

/// A resting order, as a book shows it.
#[derive(Clone, Copy, Debug, PartialEq, Eq)]
pub struct Shown {
    /// The order.
    pub order: Order,
    /// What is left of it: base quantums.
    pub left: u64,
}

/// A premium vote for a market.
#[derive(Clone, Copy, Debug, PartialEq, Eq)]
pub struct Vote {
    /// The market.
    pub market: u32,
    /// The premium of the book over the market's price, in ppm from −1,000,000 to 1,000,000.
    pub premium: i32,
}

/// A new price of a market.
#[derive(Clone, Copy, Debug, PartialEq, Eq)]
pub struct PriceUpdate {
    /// The market.
    pub market: u32,
    /// The price, from 1 to 2^48 − 1.
    pub price: u64,
}

/// A block, as a proposer hands it in.
#[derive(Debug, PartialEq, Eq, Drop)]
pub struct Block {
    /// The height, one above that of the state which it is for; at most 4,000,000,000.
    pub height: u32,
    /// The time in seconds, past that of the state; at most 4,000,000,000.
    pub time: u32,
    /// At most 1,024 operations, with at most 4,096 fills and offsets together.
    pub ops: List<Op>,
    /// At most 256 messages.
    pub msgs: List<Msg>,
    /// At most one vote a market, by rising market.
    pub votes: List<Vote>,
    /// At most one price a market, by rising market.
    pub prices: List<PriceUpdate>,
}

/// What the genesis says of a market.
#[derive(Clone, Copy, Debug, PartialEq, Eq)]
pub struct MarketParams {
    /// The power of ten of a base quantum in units of the asset, from −18 to 0.
    pub atomic: i32,
    /// The power of ten by which base quantums times subticks is quote quantums, from −12 to 0.
    pub conversion: i32,
    /// Sizes and amounts are multiples of this: base quantums, from 1 to 2^48 − 1.
    pub step: u64,
    /// Order prices are multiples of this: subticks, from 1 to 2^40 − 1.
    pub tick: u64,
    /// The power of ten of the price unit, from −18 to 12. `price_exponent + atomic + 6`, by which
    /// power of ten base quantums times price is quote quantums, is from −18 to 6.
    pub price_exponent: i32,
    /// The first price, from 1 to 2^48 − 1.
    pub price: u64,
    /// The initial margin of a position's value, in ppm from 1 to 1,000,000.
    pub initial: u32,
    /// The maintenance margin of the initial margin, in ppm from 1 to 1,000,000.
    pub maintenance: u32,
    /// How deep a premium vote looks into the book: quote quantums, from 1 to 2^56 − 1.
    pub impact: u64,
    /// The greatest magnitude of a funding rate, in ppm for 8 hours, from 0 to 1,000,000.
    pub rate_cap: u32,
    /// The value of the open interest up to which the initial margin is not scaled: quote quantums,
    /// from 1; 0 where the genesis scales none.
    pub lower: u64,
    /// The value of the open interest from which the initial margin is the whole value: quote quantums,
    /// above `lower` and at most 2^56 − 1; 0 where the genesis scales none.
    pub upper: u64,
}

/// What the genesis says of fees, liquidations, votes and markets.
#[derive(Debug, PartialEq, Eq, Drop)]
pub struct Params {
    /// How many votes a median is taken of at least, from 1 to 60; zeros stand for missing ones.
    pub min_votes: u32,
    /// The fee of a taker, in ppm of a fill's quote, from 0 to 100,000.
    pub taker_ppm: u32,
    /// The fee of a maker, in ppm of a fill's quote, from 0 to 100,000.
    pub maker_ppm: u32,
    /// The most that the insurance fund receives of a liquidation fill, in ppm of its quote, from 0
    /// to 1,000,000.
    pub liq_cap_ppm: u32,
    /// How far a liquidation price may be from the market's price, in ppm of the maintenance margin
    /// at bankruptcy, from 0 to 10,000,000.
    pub spread_ppm: u32,
    /// How fast a lack of margin widens that distance, in ppm, from 1,000,000 to 10,000,000.
    pub bankruptcy_ppm: u32,
    /// At most 32 markets. A market's number is its place.
    pub markets: List<MarketParams>,
    /// The height from which on initial margins are scaled by open interest, from 1 to 4,000,000,000;
    /// none where they never are.
    pub scale_from: Option<u32>,
}

/// What a chain starts from.
#[derive(Debug, PartialEq, Eq, Drop)]
pub struct Genesis {
    /// The time in seconds, at most 4,000,000,000.
    pub time: u32,
    /// What the insurance fund starts with: quote quantums, from 0 to 2^60 − 1.
    pub insurance: i64,
    /// Fees, liquidations, votes and markets.
    pub params: Params,
}

/// A market's present numbers.
#[derive(Clone, Copy, Debug, PartialEq, Eq)]
pub struct MarketInfo {
    /// What the genesis says of it.
    pub params: MarketParams,
    /// The price, from 1 to 2^48 − 1.
    pub price: u64,
    /// The funding index: what a base quantum held long has paid since the genesis, in millionths
    /// of a quote quantum, from −2^50 to 2^50.
    pub index: i64,
    /// The open interest, which is the sum of the long sizes: base quantums, at most 2^48 − 1; its
    /// value is at most 2^56 − 1.
    pub oi: u64,
    /// The funding fund, out of which settlements are paid: quote quantums, from −(2^60 − 1) to
    /// 2^60 − 1.
    pub fund: i64,
    /// What the rounding of settlements left in the fund, in millionths of a quote quantum.
    pub dust: i128,
}

/// The risk of a settled account, in quote quantums.
#[derive(Clone, Copy, Debug, PartialEq, Eq)]
pub struct Risk {
    /// The net collateral: the quote and the values of all positions.
    pub tnc: i128,
    /// The initial margin requirement.
    pub imr: i128,
    /// The maintenance margin requirement.
    pub mmr: i128,
}

/// What a settlement pays an account out of a market's fund.
#[derive(Clone, Copy, Debug, Default, PartialEq, Eq)]
pub struct Paid {
    /// The market.
    pub market: u32,
    /// Quote quantums, negative where the account pays.
    pub paid: i128,
    /// What the rounding leaves in the fund, in millionths of a quote quantum, from 0 to 999,999.
    pub dust: i128,
}

/// A fee.
#[derive(Clone, Copy, Debug, PartialEq, Eq)]
pub struct Charge {
    /// Quote quantums, rounded up.
    pub fee: i64,
    /// The exact fee, in millionths of a quote quantum.
    pub charged: i128,
    /// What the rounding adds, in millionths of a quote quantum, from 0 to 999,999.
    pub dust: i128,
}

/// The funds of a state.
#[derive(Clone, Copy, Debug, PartialEq, Eq)]
pub struct Funds {
    /// All that was paid in since the genesis, the genesis's insurance with it: quote quantums.
    pub paid_in: i128,
    /// All that was paid out since the genesis: quote quantums.
    pub paid_out: i128,
    /// The fee fund: quote quantums, from 0 to 2^60 − 1.
    pub fees: i64,
    /// The exact fees of all fills, in millionths of a quote quantum.
    pub charged: i128,
    /// What the rounding of fees added, in millionths of a quote quantum.
    pub fee_dust: i128,
    /// The insurance fund: quote quantums, from 0 to 2^60 − 1.
    pub insurance: i64,
}

/// The clock of a state.
#[derive(Clone, Copy, Debug, PartialEq, Eq)]
pub struct Clock {
    /// The height, at most 4,000,000,000; 0 before the first block.
    pub height: u32,
    /// The time in seconds, at most 4,000,000,000.
    pub time: u32,
    /// When votes become a sample next: the genesis time plus a multiple of 60 seconds.
    pub sample_next: u32,
    /// When samples move the funding index next: the genesis time plus a multiple of 3,600 seconds.
    pub funding_next: u32,
}

/// How much of an order is filled.
#[derive(Clone, Copy, Debug, PartialEq, Eq)]
pub struct FillRecord {
    /// Base quantums, from 1 to 2^48 − 1.
    pub amount: u64,
    /// The height up to which the record of a short-term order is kept; 0 for a stateful order.
    pub until: u32,
}

/// A market's numbers in an audit.
#[derive(Clone, Copy, Debug, Default, PartialEq, Eq)]
pub struct MarketAudit {
    /// The market.
    pub market: u32,
    /// The price.
    pub price: u64,
    /// The funding index.
    pub index: i64,
    /// The open interest: base quantums.
    pub oi: u64,
    /// The sum of the long sizes: base quantums.
    pub long: i128,
    /// The sum of the magnitudes of the short sizes: base quantums.
    pub short: i128,
    /// The funding fund: quote quantums.
    pub fund: i64,
    /// What the rounding of settlements left in the fund, in millionths of a quote quantum.
    pub dust: i128,
    /// What the fund owes all positions at the present index, in millionths of a quote quantum.
    pub owed: i128,
}

/// The numbers of an audit.
#[derive(Debug, PartialEq, Eq, Drop)]
pub struct Audit {
    /// The height.
    pub height: u32,
    /// All that was paid in: quote quantums.
    pub paid_in: i128,
    /// All that was paid out: quote quantums.
    pub paid_out: i128,
    /// The sum of all accounts' quotes: quote quantums.
    pub quotes: i128,
    /// The fee fund: quote quantums.
    pub fees: i64,
    /// The exact fees of all fills, in millionths of a quote quantum.
    pub charged: i128,
    /// What the rounding of fees added, in millionths of a quote quantum.
    pub fee_dust: i128,
    /// The insurance fund: quote quantums.
    pub insurance: i64,
    /// The markets by rising number: at most 32.
    pub markets: ArrayVec<MarketAudit, 32>,
}

/// Why a block is refused: its first bad part. Numbers count from 0, and one without meaning is 0.
#[derive(Clone, Copy, Debug, PartialEq, Eq)]
pub struct Bad {
    /// 0 for the header, 1 for operations, 2 for messages, 3 for votes, 4 for prices.
    pub part: u32,
    /// The place in that part.
    pub index: u32,
    /// The fill or offset of an operation.
    pub fill: u32,
    /// The cause, by the codes of blocks in docs/RULES.md.
    pub code: u32,
}

#[cfg(test)]
mod tests;
