//! The names by which chains are found, and the orders in which their tables are kept.

ghost use Rattle.std.specs.Prelude.{◌≡◌};
ghost use Rattle.dx_book.specs.Names.{price_cmp, term_of as term_by, level_of as level_by, expiry_of as expiry_by};

use dx_types::{Order, OrderId, SHORT_TERM, SubaccountId};
use std::cmp::Ordering;

/// A name in a table, by an order that is total and tells all names apart.
pub(crate) trait Name: Copy {
    ghost use Rattle.std.specs.declared.cmp.Ordering.{Ordering as Answer};
    ghost use Rattle.std.specs.Cmp.{IsTotalOrder};
    ghost use Rattle.std.specs.FinMap.{IsAntisymmetric};
    ghost use Rattle.std.specs.Prelude.{◌≡◌};

    /// How two names compare.
    ghost order: { Self → Self → Answer };

    /// The order is total.
    ghost total: { IsTotalOrder order };

    /// Names that compare alike are one.
    ghost exact: { IsAntisymmetric order };

    /// How two names compare.
    fn compare(self, other: Self) -> Ordering
        ensures { result ≡ order self other };
}

/// A level of a book: one price of one side of a market.
#[derive(Clone, Copy, Debug)]
pub(crate) struct Level {
    pub(crate) market: u32,
    pub(crate) buy: bool,
    pub(crate) subticks: u64,
}

/// An end of orders: a height for flags 0, else a time in seconds.
#[derive(Clone, Copy, Debug)]
pub(crate) struct Expiry {
    pub(crate) flags: u32,
    pub(crate) until: u32,
}

/// The level of an order.
pub(crate) fn level_of(order: &Order) -> Level
    ensures { result ≡ level_by order.now }
{
    Level {
        market: order.id.market,
        buy: order.buy,
        subticks: order.subticks,
    }
}

/// The expiry of an order.
pub(crate) fn expiry_of(order: &Order) -> Expiry
    ensures { result ≡ expiry_by order.now }
{
    Expiry {
        flags: order.id.flags,
        until: order.until,
    }
}

/// 0 of short-term orders, else 1.
fn term_of(flags: u32) -> u32
    ensures { result ≡ term_by flags }
{
    if flags == SHORT_TERM { 0 } else { 1 }
}

/// How two prices compare: asks before bids, and of a side the better price first.
fn compare_prices(buy: bool, subticks: u64, other_buy: bool, other: u64) -> Ordering
    ensures { result ≡ price_cmp buy subticks other_buy other }
{
    if buy {
        if other_buy {
            other.cmp(&subticks)
        } else {
            Ordering::Greater
        }
    } else if other_buy {
        Ordering::Less
    } else {
        subticks.cmp(&other)
    }
}

impl Name for OrderId {
    ghost use Rattle.dx_types.specs.Keys.{order_id_cmp, order_id_total, order_id_exact};

    ghost order = { order_id_cmp };

    ghost total = { order_id_total };

    ghost exact = { order_id_exact };

    fn compare(self, other: OrderId) -> Ordering {
        self.cmp(&other)
    }
}

impl Name for usize {
    ghost use Rattle.std.specs.Ordering.{nat_cmp};
    ghost use Rattle.std.specs.Cmp.{nat_cmp_total};
    ghost use Rattle.dx_book.specs.Orders.{key_exact};

    ghost order = { nat_cmp };

    ghost total = { nat_cmp_total };

    ghost exact = { key_exact };

    fn compare(self, other: usize) -> Ordering {
        self.cmp(&other)
    }
}

impl Name for SubaccountId {
    ghost use Rattle.dx_types.specs.Keys.{subaccount_cmp, subaccount_total, subaccount_exact};

    ghost order = { subaccount_cmp };

    ghost total = { subaccount_total };

    ghost exact = { subaccount_exact };

    fn compare(self, other: SubaccountId) -> Ordering {
        self.cmp(&other)
    }
}

impl Name for Level {
    ghost use Rattle.dx_book.specs.Names.{level_cmp};
    ghost use Rattle.dx_book.specs.Orders.{level_total, level_exact};

    ghost order = { level_cmp };

    ghost total = { level_total };

    ghost exact = { level_exact };

    fn compare(self, other: Level) -> Ordering {
        let prices = compare_prices(self.buy, self.subticks, other.buy, other.subticks);
        self.market.cmp(&other.market).then(prices)
    }
}

impl Name for Expiry {
    ghost use Rattle.dx_book.specs.Names.{expiry_cmp};
    ghost use Rattle.dx_book.specs.Orders.{expiry_total, expiry_exact};

    ghost order = { expiry_cmp };

    ghost total = { expiry_total };

    ghost exact = { expiry_exact };

    fn compare(self, other: Expiry) -> Ordering {
        let ends = self
            .until
            .cmp(&other.until)
            .then(self.flags.cmp(&other.flags));
        term_of(self.flags).cmp(&term_of(other.flags)).then(ends)
    }
}
