//! Text in and text out: the lines of a source, and whole texts to a sink. A program that answers lines
//! stands on it, over any source and sink.
//!
//! [`LineReader`] cuts the bytes of a source into lines of at most 1,048,576 bytes. What it answers is what
//! the bytes at hand and those behind them say (`CutsLine`): a whole line, one that is too long or has no
//! newline, or the end. It reads no further than one buffer of 4,096 bytes behind the front of a line
//! (`IsNear`), and holds one buffer.
//!
//! [`write_text`] writes a text whole, and [`write_last`] the last line of a run. Where a write fails, a front
//! of the text is written and the answer is the status that the run ends with.
//!
//! Each call fails only where the count of faults of its source or sink rose, and a good answer leaves that
//! count as it was: so no call tries again what failed.
//!
//! It stands on `dx_io` for sources and sinks, on `dx_print` for the last line of a status, on `dx_types` for the
//! status, and on `thiserror`. In `specs/`, `Lines` says what a line is, `Reading` how far a source is read, and
//! `Output` what a write that may end early has written.
#![tactic(auto)]

mod lines;
mod output;

pub use lines::{Cut, LineReader, ReadError};
pub use output::{write_last, write_text};
