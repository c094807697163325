ghost use Rattle.std.specs.Prelude.{◌≡◌, []};
ghost use Rattle.dx_spec.specs.State.{State};
ghost use Rattle.dx_node_spec.specs.Taking.{nothing_taken};
ghost use Rattle.dx_match.specs.Seen.{seen};

use dx_types::{List, Op, Order, OrderId, SubaccountId};
use std::alloc::Global;

/// What an order took from a book ("Taking" in docs/RULES.md), or what a sweep of an account took ("Sweep").
#[derive(Debug, PartialEq, Eq, Drop)]
pub struct Taken {
    /// The operations that the queue gets, in order.
    pub ops: List<Op>,
    /// The makers that leave the book, in order.
    pub gone: List<OrderId>,
    /// How much was filled: base quantums.
    pub filled: u64,
    /// How many fills there were.
    pub fills: u32,
    /// How many offsets there were; 0 for an order.
    pub offsets: u32,
    /// The code that stopped the order ("Codes of a block" in docs/RULES.md), or 0; 0 for a sweep.
    pub stop: u32,
    /// Whether a reduce-only order had nothing left to close at a maker that it crosses, so that its taking ended
    /// there; `false` for any other order and for a sweep.
    pub over: bool,
}

/// Whose fills a group has.
#[derive(Clone, Copy, Debug)]
pub(crate) enum Taker {
    /// An order, whose fills are a match.
    Placed(Order),
    /// An account, whose fills are its liquidation in a market.
    Liquidated {
        /// The account.
        who: SubaccountId,
        /// The market.
        market: u32,
    },
}

/// A maker, and the amount that was filled of it.
#[derive(Clone, Copy, Debug)]
pub(crate) struct Filled {
    /// The maker.
    pub(crate) maker: Order,
    /// Base quantums.
    pub(crate) amount: u64,
}

/// How far a taking is.
#[derive(Debug, Drop)]
pub(crate) struct Taking {
    /// The operations of the groups that are closed, in order.
    pub(crate) ops: List<Op>,
    /// The fills that stand in no operation yet, in order.
    pub(crate) group: List<Filled>,
    /// The makers that leave the book, in order.
    pub(crate) gone: List<OrderId>,
    /// How much was filled: base quantums.
    pub(crate) filled: u64,
    /// How many fills there were.
    pub(crate) fills: u32,
    /// How many offsets there were.
    pub(crate) offsets: u32,
    /// The code that stopped it, or 0.
    pub(crate) stop: u32,
    /// Whether a reduce-only order found nothing to close: it takes no more, as if it crossed no maker.
    pub(crate) over: bool,
}

/// Before the first maker. It takes no memory.
pub(crate) fn start(alloc: Global) -> Taking
    ensures nothing { (s : State) → seen s result ≡ nothing_taken s }
    ensures group { result.group ≡ [] }
{
    Taking {
        ops: List::new(alloc),
        group: List::new(alloc),
        gone: List::new(alloc),
        filled: 0,
        fills: 0,
        offsets: 0,
        stop: 0,
        over: false,
    }
}
