//! The units and the limits of the rules ("Units" and "Limits" in docs/RULES.md).

/// A quote quantum is a millionth of the settlement currency: a unit of it has so many decimals.
pub const QUOTE_DECIMALS: i32 = 6;

/// A size, an amount, a filled amount, an open interest (base quantums) and a price stay below this.
pub const SIZE_LIMIT: u64 = 1 << 48;

/// Subticks stay below this.
pub const SUBTICKS_LIMIT: u64 = 1 << 40;

/// The quote of one fill and the value of an open interest stay below this: quote quantums.
pub const WORTH_LIMIT: u128 = 1 << 56;

/// The fee fund and the insurance fund stay below this: quote quantums.
pub const FUND_LIMIT: i64 = 1 << 60;

/// The magnitude of an account's quote and of a market's fund stays below this: quote quantums.
pub const BALANCE_LIMIT: u128 = 1 << 60;

/// The amount of a deposit, a withdrawal or a transfer stays below this: quote quantums.
pub const SUM_LIMIT: u64 = 1 << 60;

/// A funding index goes from the negative of this to this: millionths of a quote quantum for each base
/// quantum.
pub const MOST_INDEX: i64 = 1 << 50;

/// A premium of a vote or a sample goes from the negative of this to this: parts per million.
pub const MOST_PREMIUM: i32 = 1_000_000;

/// A whole, in parts per million: the greatest margin of a genesis, rate cap and insurance share.
pub const WHOLE_PPM: u32 = 1_000_000;

/// The greatest fee of a genesis, in parts per million of a fill's quote.
pub const MOST_FEE_PPM: u32 = 100_000;

/// The greatest spread and the greatest bankruptcy rate of a genesis, in parts per million.
pub const MOST_SPREAD_PPM: u32 = 10_000_000;

/// The last height, and the last time in seconds.
pub const LAST_MOMENT: u32 = 4_000_000_000;

/// So many heights past the next one a short-term order may last.
pub const ORDER_WINDOW: u32 = 20;

/// Seconds from one sample tick to the next.
pub const SAMPLE_EPOCH: u32 = 60;

/// Seconds from one funding tick to the next.
pub const FUNDING_EPOCH: u32 = 3_600;

/// A genesis may have so many markets.
pub const MOST_MARKETS: usize = 32;

/// An account may have so many positions.
pub const MOST_POSITIONS: usize = 16;

/// A market may have so many votes between two sample ticks, and so many samples between two funding
/// ticks; a genesis may ask for so many of them.
pub const MOST_VOTES: usize = 60;

/// A state may keep so many accounts.
pub const MOST_ACCOUNTS: usize = 65_536;

/// So many orders may rest in a book, and so many may stand and wait together in a state.
pub const MOST_ORDERS: usize = 65_536;

/// A block may have so many operations.
pub const MOST_OPERATIONS: usize = 1_024;

/// A block may have so many fills and offsets together.
pub const MOST_FILLS: usize = 4_096;

/// A block may have so many messages.
pub const MOST_MESSAGES: usize = 256;
