//! A validator node: it matches orders on its own, proposes what it matched, checks blocks and commits them.
//!
//! It stands on `dx_rules` for blocks, on `dx_match`, `dx_book` and `dx_queue` for what a node has not committed, on
//! `dx_replay` for what it places again after a block, on `dx_history` for its blocks as the rows of a keeper, on
//! `dx_codec` for digests, on `dx_work` for its two states, and on `dx_node_spec`, whose plain nodes are computed
//! again from their blocks each time. A [`Node`] keeps the state after its blocks and the one after its queue, as the
//! committed and the present content of one work ([`Node::work`]). For every plain node that it stands for
//! (`specs/Standing`) each call's answer is that of the definition, and the node stands for the plain node after it.
//!
//! What a node tells of its committed state is the fold of its blocks, whatever it matched before
//! ([`committed_stays`]). [`Node::check`] and each refused call leave all of it as it was. The reads of what is not
//! committed are of the state after the queue, and what [`Node::propose`] answers is good on the node's own blocks.
//!
//! [`Node::commit`] sets one row of a keeper, the bytes of its block, once there is memory for all else, and
//! [`Node::restart`] starts anew from the rows: it answers a chain of good blocks, or the first row that is none
//! (`specs/Restarts`). [`Node::resume`] starts from a state and the rows above it (`specs/Resumes`); where that is the
//! state of the node's first blocks, the node is the one that a restart gives ([`resumed_is_restarted`]). Where a call
//! fails, the node and the rows are as before. A stateful order that rests stands in the state after the queue
//! ([`resting_stand`]).
//!
//! A node's life: [`Node::new`] makes it, and [`Node::restart`] or [`Node::resume`] starts it from its keeper before it
//! commits, also if the keeper is empty; else its rows are no chain that a later start takes. After each
//! [`Node::commit`] a list of orders is to be placed again, and after a start all stateful orders:
//! [`Node::replay_next`] places the first of the list, and [`Node::pending`] tells how many are left. All other calls,
//! except a start and the reads, ask that none is left.
//!
//! The type keeps (`specs/Held`) that the queue leads to the speculative state, that each order of the book may rest in
//! it, and that no order of the list rests before it is placed.
#![tactic(auto)]

mod cancelling;
mod cancels;
mod checks;
mod commits;
mod faults;
mod feed;
mod laws;
mod node;
mod pending;
mod placed;
mod placing;
mod pool;
mod prices;
mod proposing;
mod reads;
mod refusal;
mod restarting;
mod resuming;
mod suspended;
mod sweeping;
mod trades;
mod votes;

pub use faults::{
    CancelFault, CommitFault, FeedFault, MessageFault, PlaceFault, ProposeFault, RestartFault,
    ResumeFault, SweepFault,
};
pub use laws::{
    cancelling_stays, chain_is_resumed, committed_leave_pool, committed_stays, listed_rest_not,
    pooling_stays, proposal_has_pool, resting_stand, resumed_is_restarted,
    rows_above_are_of_blocks,
};
pub use node::Node;
pub use placed::Placed;
pub use refusal::Refusal;
pub use sweeping::Swept;
