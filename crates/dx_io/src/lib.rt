//! The outside of the exchange, as three traits: a `Source` of bytes, a `Sink` of bytes, and a
//! `Keeper` of rows of bytes by node and height. Code above is generic over them, and proved once.
//!
//! Each trait has two ghost members. One is what the object tells of itself, if it tells it: the
//! bytes left, the bytes written, the rows. Where it is told, every call says how it changed, and
//! after an error it is as before. The other is a count of faults, of 64 bits, which never falls;
//! a count at its end stays there. `Failed` comes only where the count rose (`Rose` of
//! `specs/Causes`), so code above, which cannot raise the count, cannot make up a fault. A good answer
//! leaves the count (`KeepsCount` there), so code above cannot pass over a fault either: where it
//! promises the same, a failed call is not tried again.
//!
//! - `SureSource`, `SureSink` and `SureKeeper` are in memory and never answer `Failed`; their
//!   count is 0. They are refused only for memory.
//! - `MemSource`, `MemSink` and `MemKeeper` are in memory and answer `Failed` exactly at the listed
//!   calls, numbered from 1.
//! - `StdSource` and `StdSink` adapt a reader and a writer of std. They are the trusted edge: what
//!   a file or a terminal gives and takes no contract says, and these tell what the reader or
//!   the writer tells, and no more. Each error of std is a fault.
//!
//! It stands on `dx_maps` for the rows, on `dx_types` for lists and `NoMemory`, and on `thiserror`.
#![tactic(auto)]

mod fault_plan;
mod faults;
mod keeper;
mod mem_keeper;
mod mem_streams;
mod row_key;
mod sink;
mod source;
mod std_streams;
mod sure_keeper;
mod sure_streams;
#[cfg(test)]
mod tests;

pub use keeper::{KeepError, Keeper};
pub use mem_keeper::MemKeeper;
pub use mem_streams::{MemSink, MemSource};
pub use row_key::RowKey;
pub use sink::{Sink, SinkError};
pub use source::{Failed, Source};
pub use std_streams::{StdSink, StdSource};
pub use sure_keeper::SureKeeper;
pub use sure_streams::{SureSink, SureSource};
