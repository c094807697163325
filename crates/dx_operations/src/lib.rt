//! The operations of a block, on any ledger.
//!
//! It stands on `dx_orders` and `dx_hash` (the tests of an order), `dx_fill` (one fill), `dx_liquidation` (one
//! fill of a liquidation), `dx_delever` (one offset), `dx_accounts` (one removal) and `dx_spec`, whose
//! `Operations` defines what operations do. [`apply_operations`] is equal to that definition, or names the
//! first bad operation with its fill and code. The content stays balanced, and sound by the law of `dx_sound`.
//! Each order that a block has placed stays one that may be traded until its operations end. [`has_too_many_ops`]
//! and [`fills_of`] say how many operations and fills there are.
#![tactic(auto)]

mod delevering;
mod faults;
mod limits;
mod liquidating;
mod matching;
mod numbers;
mod operations;
mod orders;
mod placing;
mod refusals;

pub use faults::BlockFault;
pub use limits::{fills_of, has_too_many_ops};
pub use operations::apply_operations;
