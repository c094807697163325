//! What a node places again after a block, and what leaves its book: [`again`] and [`purge`].
//!
//! It stands on `dx_queue` and `dx_book` for a node's own operations and orders, on `dx_ledger` for the state after
//! the block, and on `dx_node_spec`, whose `Commits` says which orders are placed again and which stay in the book.
//! Both calls are for all orders, short-term and stateful, over any ledger. [`again`] takes memory for its list, and
//! [`purge`] takes none.
#![tactic(auto)]

mod listing;
mod purging;

pub use listing::again;
pub use purging::purge;
