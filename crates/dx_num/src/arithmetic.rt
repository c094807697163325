//! Sums and products in `i128`, each under the condition by which it fits.

ghost use Rattle.std.specs.Prelude.{◌≡◌, ◌<◌, ◌≤◌, ◌+◌, ◌*◌, ◌^◌, ◌+ℤ◌, ◌-ℤ◌, ◌*ℤ◌, pos, neg_ℤ, unsigned_abs};

/// `a` times `b`, exactly. The product of both magnitudes has to be below 2^127; it is the magnitude of the result.
pub fn product(a: i128, b: i128) -> i128
    requires { unsigned_abs a * unsigned_abs b < 2 ^ 127 }
    ensures value { result ≡ a *ℤ b }
    ensures magnitude { unsigned_abs result ≡ unsigned_abs a * unsigned_abs b }
{
    a * b
}

/// `a` plus `b`, exactly. The sum of both magnitudes has to be below 2^127; the magnitude of the result is at most
/// that sum.
pub fn total(a: i128, b: i128) -> i128
    requires { unsigned_abs a + unsigned_abs b < 2 ^ 127 }
    ensures value { result ≡ a +ℤ b }
    ensures magnitude { unsigned_abs result ≤ unsigned_abs a + unsigned_abs b }
{
    a + b
}

/// `a` less `b`, exactly. The sum of both magnitudes has to be below 2^127; the magnitude of the result is at most
/// that sum.
pub fn difference(a: i128, b: i128) -> i128
    requires { unsigned_abs a + unsigned_abs b < 2 ^ 127 }
    ensures value { result ≡ a -ℤ b }
    ensures magnitude { unsigned_abs result ≤ unsigned_abs a + unsigned_abs b }
{
    a - b
}

/// `a` with its sign turned, and of the same magnitude, which has to be below 2^127: `a` is any `i128` but the least.
pub fn negative(a: i128) -> i128
    requires { unsigned_abs a < 2 ^ 127 }
    ensures value { result ≡ neg_ℤ a }
    ensures magnitude { unsigned_abs result ≡ unsigned_abs a }
{
    -a
}

/// The magnitude of `a`, which has to be below 2^127: `a` is any `i128` but the least.
pub fn magnitude(a: i128) -> i128
    requires { unsigned_abs a < 2 ^ 127 }
    ensures value { result ≡ pos (unsigned_abs a) }
    ensures magnitude { unsigned_abs result ≡ unsigned_abs a }
{
    a.abs()
}
