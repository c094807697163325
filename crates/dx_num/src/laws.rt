//! Laws of the definitions of rounding: each function's contract is a law, and its body is empty.
//!
//! They say what the words are by products alone, so that a reader need not trust a quotient of the library.

ghost use Rattle.dx_num.specs.Laws.{FloorIsExact, CeilingIsExact, TruncationIsExact, ScalingUpIsExact, ScalingDownIsFloor, PartsAreCeiling, ClampIsNearest};

/// `floor_div a b` is the one `q` with `b·q ≤ a < b·(q + 1)`, for a positive `b`.
pub fn floor_is_exact()
    ensures { FloorIsExact }
{}

/// `ceil_div a b` is the one `q` with `b·(q − 1) < a ≤ b·q`, for a positive `b`.
pub fn ceiling_is_exact()
    ensures { CeilingIsExact }
{}

/// `trunc_div a b` is the floor of an `a` that is not negative and the ceiling of one that is not positive.
pub fn truncation_is_exact()
    ensures { TruncationIsExact }
{}

/// `floor_ten a n` is `a·10^n`, for an `n` that is not negative.
pub fn scaling_up_is_exact()
    ensures { ScalingUpIsExact }
{}

/// `floor_ten a (−n)` is the floor of `a / 10^n`.
pub fn scaling_down_is_floor()
    ensures { ScalingDownIsFloor }
{}

/// `ppm_up v ppm` is the ceiling of `v·ppm / 1,000,000`.
pub fn parts_are_ceiling()
    ensures { PartsAreCeiling }
{}

/// `clamp v low high` is `v` between the two, and else the end that it passes.
pub fn clamp_is_nearest()
    ensures { ClampIsNearest }
{}
