//! What the program's words ask for.
//!
//! [`read_words`] reads the words behind the program's name by one command of `clap` without subcommands:
//! `--job` (`replay`, `selfrun` or `generate`), `--seed` and `--events`. What it gives is what the
//! definition `asked` says of the words, and [`WordsFault::Usage`] comes exactly where that says nothing,
//! or there was no memory.
//!
//! It stands on `clap` for the command. The definition rests on what `clap` itself says of a command and
//! its words: `specs/Asked` has the command's three options, and what their values ask for.
#![tactic(auto)]

mod words;

pub use words::{Job, Words, WordsFault, read_words};

#[cfg(test)]
mod tests;
