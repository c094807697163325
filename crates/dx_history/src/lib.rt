//! The blocks of nodes as rows of a keeper.
//!
//! It stands on `dx_io` for the trait of a keeper and on `dx_codec` for the bytes of a block. [`keep_block`]
//! sets one row, that of a node at the block's height, to the block's bytes. [`kept_block`] gives the block
//! whose bytes a row has; `Bad` comes exactly where the row is missing or is no block's bytes. `Failed` comes
//! only where the keeper's count of faults rose, a good answer and `Bad` leave that count, and no call
//! changes a row when it is refused. Both calls take
//! memory from the allocator of the block, or of the row.
//!
//! What the rows of a node say all together, a chain of blocks that are good from a genesis on or the first
//! height at which they are none, is `specs/Chains.antt: kept`; that they are just the rows of a chain is
//! `IsChain` there. The laws say that the two go together over a whole run: rows that are just those of a chain
//! are read as it ([`chain_is_kept`]); where rows are read as a chain they are behind a start just those of it,
//! as the keeper has counted them and so has no others ([`kept_is_chain`]); a good block that is set at its
//! height makes them those of the longer chain ([`chain_grows`], [`rows_grow`]); and what is set for one node
//! leaves every other node's chain ([`others_stay`]).
#![tactic(auto)]

mod blocks;
mod fault;
mod laws;
#[cfg(test)]
mod tests;

pub use blocks::{keep_block, kept_block};
pub use fault::HistoryFault;
pub use laws::{chain_grows, chain_is_kept, kept_is_chain, others_stay, rows_grow};
