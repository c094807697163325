//! Std's `BTreeMap` seen as a finite map, for any key whose order tells all keys apart, and any value.
//!
//! The crates that keep tables (a state's accounts and orders, a keeper's rows) read and write them
//! by the functions of this crate, and their contracts speak of finite maps alone. It stands on std.
//!
//! Each clause speaks of `map_of K.cmp table`, the finite map that a table keeps. A call that is
//! refused leaves it as it was, and only an insert at a new key takes memory.
#![tactic(auto)]

mod key;
mod search;
mod table;

pub use key::MapKey;
pub use search::{EntryTest, first_key};
pub use table::{contains, get, get_copy, insert, len, remove, replace};

#[cfg(test)]
mod tests;
