//! Generates a scenario: the lines of eight accounts that trade in two markets on four nodes, drawn from
//! a seed ("The generator" in docs/RULES.md).
//!
//! It stands on `dx_types` for orders and lists. A [`Gen`] is seen as the lines that it has yet to hand
//! out, each as its bytes with its newline. A new one has exactly those that the definition
//! `scenario_lines` has for a seed and a number of orders, and [`Gen::next_line`] hands out the first, or
//! there was no memory; it holds no line that it has handed out, and none that is yet to come. How many
//! lines there are, and that each drawn number is in its bounds, are clauses of [`Gen::new`].
//!
//! From below to above: `draws` has the numbers and the orders made of them, `lines` what the lines are,
//! `texts` their bytes, `progress` which line comes next, and `generator` the type that callers see.
#![tactic(auto)]

mod draws;
mod generator;
mod lines;
mod progress;
mod texts;

pub use generator::Gen;
pub use lines::Line;

#[cfg(test)]
mod tests;
