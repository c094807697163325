//! The feed of a book: a list of resting orders as a stream of changes, which others follow.
//!
//! It stands on `dx_types` for orders, on `dx_orders` and `dx_spec`, which say when two ids and two orders
//! are one, and on `indexmap` for its indexes. From below to above: a listing holds a list and finds the
//! place of an id in it by hash, [`Feeder`] tells what changed from one list to the next, and [`Follower`]
//! takes such changes on.
//!
//! In `specs/`, `Lists` says when a list may follow another one, `Changes` what the changes between two
//! lists are, `Following` how a list follows changes, and `Laws` that it comes to the list that was told.
#![tactic(auto)]

mod fault;
mod feeder;
mod follower;
mod key;
mod laws;
mod listing;
#[cfg(test)]
mod tests;

use dx_types::{OrderId, Shown};
pub use fault::FollowFault;
pub use feeder::Feeder;
pub use follower::Follower;
pub use laws::changes_lead_on;

/// What changed in a list of resting orders.
#[derive(Clone, Copy, Debug, PartialEq, Eq)]
pub enum Change {
    /// The list is empty now.
    Clear,
    /// The order of this id has gone.
    Gone(OrderId),
    /// Another amount is left of the order of an id.
    Left {
        /// The order's id.
        id: OrderId,
        /// What is left of it now: base quantums.
        left: u64,
    },
    /// An order came behind all others.
    Add(Shown),
}
