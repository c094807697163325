//! A node's own operations, which stand in no block yet: [`Queue`].
//!
//! It stands on `dx_types` for operations, on `dx_operations` for their number of fills, on `indexmap`
//! for its indexes, and on `dx_spec` and `dx_node_spec`, whose `Blocks` and `Queue` say how long a queue
//! may be, which order of an id was placed last, and which ids are mentioned, in the order of first
//! mention.
//!
//! Contracts see a queue as the list of its operations, which is always within the limits.
//! [`Queue::push`] appends all operations or none, and nothing else takes memory. The last placed
//! order of an id and the id of a number are looked up in indexes, which hold the ids by hash.
//! [`has_too_many`] says whether operations behind others would pass the limits.
#![tactic(auto)]

mod fault;
mod key;
mod limits;
mod mentions;
mod places;
mod queue;
#[cfg(test)]
mod tests;

pub use fault::QueueFault;
pub use limits::has_too_many;
pub use queue::Queue;
