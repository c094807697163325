//! Quotients by a positive number, rounded down, up and toward zero.

ghost use Rattle.std.specs.Prelude.{◌≡◌, ◌≤◌, ◌<ℤ◌, pos, unsigned_abs};
ghost use Rattle.dx_num.specs.Rounding.{floor_div as floor, ceil_div as ceiling, trunc_div as truncation};

/// `a / b` rounded down: the greatest whole number of which `b` times it is at most `a`.
pub fn floor_div(a: i128, b: i128) -> i128
    requires { pos 0 <ℤ b }
    ensures value { result ≡ floor a b }
    ensures small { unsigned_abs result ≤ unsigned_abs a }
{
    let q = a / b;
    if a % b < 0 { q - 1 } else { q }
}

/// `a / b` rounded up: the least whole number of which `b` times it is at least `a`.
pub fn ceil_div(a: i128, b: i128) -> i128
    requires { pos 0 <ℤ b }
    ensures value { result ≡ ceiling a b }
    ensures small { unsigned_abs result ≤ unsigned_abs a }
{
    let q = a / b;
    if a % b > 0 { q + 1 } else { q }
}

/// `a / b` rounded toward zero: the floor where `a` is not negative, the ceiling where it is.
#[tactic(auto, unfolding(crate::specs::Rounding::trunc_div))]
pub fn trunc_div(a: i128, b: i128) -> i128
    requires { pos 0 <ℤ b }
    ensures value { result ≡ truncation a b }
    ensures small { unsigned_abs result ≤ unsigned_abs a }
{
    a / b
}
