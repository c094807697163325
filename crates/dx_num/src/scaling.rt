//! Powers of ten and parts per million.

ghost use Rattle.std.specs.Prelude.{◌≡◌, ◌<◌, ◌≤◌, ◌^◌, ◌<ℤ◌, ◌≤ℤ◌, pos, negsuc, unsigned_abs};
ghost use Rattle.dx_num.specs.Rounding.{floor_ten, ppm_up as parts_up};

use super::arithmetic::product;
use super::division::{ceil_div, floor_div};

/// Ten to the power `n`, a positive number. `n` has to be at most 18.
#[tactic(auto, using(crate::proofs::Products::ten_positive))]
pub fn power_of_ten(n: u32) -> i128
    requires { n ≤ 18 }
    ensures value { result ≡ pos (10 ^ n) }
    ensures positive { pos 0 <ℤ result }
{
    10u64.pow(n) as i128
}

/// `a` times ten to the power `e`, rounded down ("Rounding" in docs/RULES.md). The magnitude of `a` has to be below
/// 2^96, and `e` from −18 to 6.
pub fn mul_pow10_floor(a: i128, e: i32) -> i128
    requires small { unsigned_abs a < 2 ^ 96 }
    requires least { negsuc 17 ≤ℤ e }
    requires most { e ≤ℤ pos 6 }
    ensures { result ≡ floor_ten a e }
{
    if e >= 0 {
        product(a, power_of_ten(e.unsigned_abs()))
    } else {
        floor_div(a, power_of_ten(e.unsigned_abs()))
    }
}

/// `ppm` parts per million of `v`, rounded up ("Rounding" in docs/RULES.md). `v` has to be from 0 to 2^62 − 1, and
/// `ppm` at most 1,000,000; the result is from 0 to `v`.
#[tactic(auto, using(crate::proofs::Products::ppm_up_least, crate::proofs::Products::ppm_up_most), unfolding(crate::specs::Rounding::ppm_up))]
pub fn ppm_up(v: i128, ppm: u32) -> i128
    requires not_negative { pos 0 ≤ℤ v }
    requires small { v <ℤ pos (2 ^ 62) }
    requires parts { ppm ≤ 1_000_000 }
    ensures value { result ≡ parts_up v ppm }
    ensures least { pos 0 ≤ℤ result }
    ensures most { result ≤ℤ v }
{
    ceil_div(product(v, ppm as i128), 1_000_000)
}
