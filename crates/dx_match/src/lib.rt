//! An order takes what the book of a node offers, and an account is swept: [`match_order`] and
//! [`match_liquidation`].
//!
//! It stands on `dx_fill`, `dx_liquidation` and `dx_delever` for one fill or offset on any ledger, on `dx_accounts`
//! for removals and settlements, on `dx_book` and `dx_queue` for a node's orders and own operations, and on
//! `dx_node_spec`, whose `Taking` and `Sweeping` define the whole. The makers of an order are taken in the order of
//! the book, the best price first and then the earliest, until nothing is left of the order, no maker crosses
//! it, a fill is refused, or a reduce-only order has nothing left to close. A sweep closes the positions of an
//! account that lacks margin against the book, market by market, and then offsets them against other accounts.
//! What either comes to is equal to the definition: the operations that the queue gets, the makers that leave the
//! book, what is filled, and the code that stopped it. The content is as before where the queue would pass its
//! limits or there is no memory. A balanced and sound content stays so. [`left`] says what is left of an order.
//!
//! Makers may be short-term or stateful. A stateful maker whose account does not bear its fill is removed from the
//! content where `dx_accounts` removes it; its removal is an operation too, behind the group of fills that it
//! closes.
#![tactic(auto)]

mod closing;
mod faults;
mod liquidating;
mod matching;
mod offsetting;
mod reducing;
mod removing;
mod settling;
mod stepping;
mod sweeping;
mod taken;

pub use faults::TakeFault;
pub use matching::match_order;
pub use stepping::left;
pub use sweeping::match_liquidation;
pub use taken::Taken;
