//! The nodes of a scenario and its slots for blocks: how they start from the rows of a keeper, what each event does
//! to them and to the rows, and the reply.
//!
//! It stands on `dx_scenario` (what a line asks for), `dx_print` (what is replied), `dx_node` (what one node does)
//! and `dx_io` (the trait of a keeper). [`Cluster::open`] is equal to `opened` of `specs/World`: each node starts
//! from the chain of blocks in its rows; if a node's rows are no chain, the call ends with the first such node.
//! [`Cluster::serve`] is equal to `step`: for every world that the cluster stands for, the reply is that of the
//! definition, and the cluster and the keeper's rows are those of the world after the event; or the run ends where
//! the definition ends it. Over a keeper that does not tell its rows the cluster stands for some world at each end. A
//! node's states there are computed again from its base each time: the plain fold of its blocks behind the genesis or
//! the snapshot that it started from, and its queue behind them. Behind a start, a resume and a commit a node places
//! its orders again before the next event, so between two events none is left to place. One more event is one more
//! case of `acted`.
//!
//! Twelve laws hold of the worlds that a scenario reaches, whatever rows were kept before:
//!
//! - Each node's committed state is the plain fold of its blocks, from its genesis on if no node resumes
//!   ([`folds_stay_good`]), and else from its base on ([`folds_go_on`]).
//! - It is balanced and sound, which its audit shows ([`states_balance`]).
//! - Each node's queue is good on it ([`nodes_are_in_order`]).
//! - Only risk or a bound stops a placing ([`placings_stop_by_risk`]).
//! - What a node proposes is good on it ([`proposals_are_good`]).
//! - Only a commit changes it, and only by the block of the slot ([`only_commits_count`]).
//! - Nothing else decides the replies about it ([`committed_replies_agree`]).
//! - Each node's rows are those of its blocks if no node resumes ([`rows_are_of_blocks`]), and else those of its blocks
//!   above its base ([`rows_are_above`]).
//! - Snapshots that are those of the nodes' own blocks at entry stay so ([`own_snapshots_stay`]).
//! - The next run over the rows goes on with these blocks ([`next_run_goes_on`]).
#![tactic(auto)]

mod acts;
mod cluster;
mod fault;
mod laws;
mod proposed;
mod slots;
mod snapshots;
mod starting;

pub use cluster::Cluster;
pub use fault::StartFault;
pub use laws::{
    committed_replies_agree, folds_go_on, folds_stay_good, next_run_goes_on, nodes_are_in_order,
    only_commits_count, own_snapshots_stay, placings_stop_by_risk, proposals_are_good,
    rows_are_above, rows_are_of_blocks, states_balance,
};
pub use slots::Slots;
