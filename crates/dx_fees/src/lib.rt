//! The fees of fills, the fee fund that receives them, and the insurance fund of liquidations.
//!
//! It stands on `dx_num`, which rounds, on `dx_types` for charges and funds, and on `dx_spec`, whose
//! `Fees` defines the calls. [`charge`] is the fee on a fill's quote, rounded up to a whole quote
//! quantum, and [`pay`] adds it to the funds of a state. What the rounding adds is kept as dust, in
//! millionths of a quote quantum, so that a million times the fee fund stays all that was charged and
//! all dust. [`insure`] changes the insurance fund by what a liquidation gives or takes. Nothing wraps, and
//! no call takes memory. [`FundFault`] says why a fund refuses a change.
#![tactic(auto)]

mod charges;
mod faults;
mod insurance;
#[cfg(test)]
mod tests;

pub use charges::{charge, pay};
pub use dx_types::Charge;
pub use faults::FundFault;
pub use insurance::insure;
