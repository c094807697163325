//! The source and the sink of a run of the program over itself, and what such a run writes.
//!
//! [`LineSource`] hands out the lines of a generated scenario as a source, one line after another.
//! [`HashSink`] is a sink that keeps the digest of what is written to it, in place of the bytes. [`summary`]
//! has the two lines that a run over itself writes.
//!
//! It stands on `dx_gen` for the lines, on `dx_io` for the traits of the outside, on `sha2` for the digest,
//! and on `dx_print` for numbers and bytes as text.
#![tactic(auto)]

mod hash_sink;
mod history;
mod line_source;
mod summaries;

pub use hash_sink::HashSink;
pub use line_source::LineSource;
pub use summaries::summary;

#[cfg(test)]
mod tests;
