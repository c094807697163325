//! A keeper whose rows are in a database of the kit's `sqlite`, in memory or in a file, so that they can outlive the
//! program that set them. It implements `Keeper` of `dx_io`.
//!
//! The rows are in one table, `block`: a row has a node, a height and bytes. The first call makes the table where the
//! database has none of that name. Each call runs one fixed statement, in a transaction of its own. What a statement
//! means is read from its text by `sqlite`, in the logic (`proofs/Texts.antt`).
//!
//! - **Over every store**: a call answers `NoMemory` where a statement was refused for want of memory. It fails where a
//!   statement was refused for another cause, or where a value does not fit. The count of faults rises where a call
//!   fails, up to the end of 64 bits, and nowhere else.
//! - **Over memory** the rows are those of the table (`specs/Kept.antt`), and each call does to them what `Keeper`
//!   says. The keeper tells its rows where the connection is between two transactions, and the database is empty or has
//!   this table alone, with rows as this keeper writes them (`specs/Telling.antt`).
//! - **Over a file** the inner calls say the same of each statement by itself, where the disk has returned what was
//!   written (`src/statements.rt`). The keeper itself tells no rows: a disk may return something else at any call, and
//!   no call tells it. So nothing is said of all calls of a run together.
//!
//! What a crash or a power cut leaves of a file is no part of these contracts; `sqlite` has its own.
#![tactic(auto)]

mod keeper;
mod statements;
mod store;

pub use keeper::SqlKeeper;
pub use store::Lasting;
