//! Exact rounding of whole numbers, the arithmetic that every amount of the node goes through.
//!
//! The definitions are `specs/Rounding.antt`: the floor, the ceiling and the truncation of a quotient over all whole
//! numbers, powers of ten, parts per million and sums. They stand alone, and every other definition of the node cites
//! them. The functions compute them in `i128`, and no call takes memory, fails or wraps.
//!
//! - [`floor_div`], [`ceil_div`] and [`trunc_div`] round a quotient down, up and toward zero;
//! - [`power_of_ten`] is one, [`mul_pow10_floor`] scales by one and rounds down, and [`ppm_up`] takes parts per million
//!   and rounds up;
//! - [`product`], [`total`], [`difference`] and [`negative`] are exact, under a condition on the magnitudes by which
//!   the result fits. Each also says what the magnitude of its result is, so that bounds go from call to call.
//!
//! [`laws`] pins the definitions by laws that name no quotient of the library: an auditor may read those and the
//! definitions, and call any function here alone. The lemmas of `proofs/` serve the proofs of the crates above.
#![tactic(auto)]

/// Exact products, sums, differences and magnitudes of numbers of 128 bits.
pub mod arithmetic;
/// Quotients by a positive number, rounded down, up and toward zero.
pub mod division;
/// The laws that pin the definitions of rounding.
pub mod laws;
/// Powers of ten and parts per million.
pub mod scaling;
#[cfg(test)]
mod tests;

pub use arithmetic::{difference, magnitude, negative, product, total};
pub use division::{ceil_div, floor_div, trunc_div};
pub use scaling::{mul_pow10_floor, power_of_ten, ppm_up};
