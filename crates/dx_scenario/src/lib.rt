//! Reads the lines of a scenario. A line is a JSON array whose first element is the event's word.
//!
//! It stands on `dx_types` for what a line tells, on `dx_spec` for the ranges of a genesis, and on
//! `serde_json`, whose own definition says what value a text has. `read_genesis` and `read_event`
//! answer what the definitions `genesis_of` and `event_of` say of the bytes of a line, or that there
//! was no memory. A line that is no event is refused with the place of its first wrong element.
//!
//! One more event is a variant of `Event`, a word of `Keyword`, and a reader of what stands behind it,
//! each in `src/` and in `specs/`; one more kind of member of a list is a `Shape`.
#![tactic(auto)]

mod behind;
mod blocks;
mod changes;
mod event;
mod fault;
mod genesis;
mod messages;
mod names;
mod operations;
mod orders;
mod parts;
mod scaling;
mod shape;
mod value;

pub use changes::{ChangeWord, change_text, changes_are_read, read_change};
pub use event::{Event, read_event};
pub use fault::LineFault;
pub use genesis::read_genesis;
