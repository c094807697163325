//! The program's top call: lines of a scenario in, lines of replies out.
//!
//! `run` does all that `perpnode` does, over any source, sink and keeper. What it promises stands in
//! its contract: what is written and kept and the status are those of `transcript` of its words, its input and
//! the rows that the keeper had, a definition over bytes and rows; each status comes exactly by its cause, and a
//! good scenario is answered whole unless a count rises or memory is wanting; a fault of the outside leaves a
//! front of it and comes only where that object's count rose; each line is answered before the next one is
//! executed; whatever ends a run, the rows are just those that its executed lines put, and no reply is written to
//! what is not kept; and every committed reply is what the plain fold of the node's committed blocks says.
//!
//! It stands on `dx_io` (source, sink and keeper), `dx_text` (lines in, texts out), `dx_scenario` (what a line
//! says), `dx_print` (what is written), `dx_cluster` (what an event does to nodes, slots and rows), `dx_words`
//! (what the words ask for), and `dx_gen` and `dx_streams` (a generated scenario, its lines as a source, and a
//! sink that hashes). From below to above: `replay` goes over the lines, `own_run` has the two jobs over a
//! generated scenario, and `program` has the two calls.
//!
//! In `specs/`, `Transcript` says what is written and kept for words, input and rows, `Causes` when each status
//! comes, `Prompt` how far a run reads and what it has answered by then, and `Runs` how far a run has come.
#![tactic(auto)]

mod laws;
mod own_run;
mod program;
mod replay;

pub use laws::events_are_served;
pub use program::{replay_all, run};
