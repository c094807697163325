//! How many operations a block or a queue may have.

ghost use Rattle.std.specs.Prelude.{◌≡◌, ◌^◌, ◌≤◌, length, sum_by};
ghost use Rattle.dx_spec.specs.Blocks.{fills_in as fills_of_op, has_too_many_ops as is_too_long};

use dx_types::Op;
use dx_types::limits::{MOST_FILLS, MOST_OPERATIONS};

/// The fills or offsets of an operation.
fn fills_in(op: &Op) -> usize
    ensures { result ≡ fills_of_op op.now }
{
    match op {
        Op::Match { fills, .. } | Op::Liquidate { fills, .. } => fills.len(),
        Op::Delever { offsets, .. } => offsets.len(),
        Op::Place(_) | Op::Remove(_) => 0,
    }
}

/// How many fills and offsets at most 1,024 operations have together ("Limits" in docs/RULES.md).
pub fn fills_of(ops: &[Op]) -> u128
    requires { length ops.now ≤ 1024 }
    ensures total { result ≡ sum_by fills_of_op ops.now }
    ensures most { result ≤ 2 ^ 74 }
{
    let mut fills = 0;
    for op in ops {
        fills += fills_in(op) as u128;
    }
    fills
}

/// Whether there are more operations, or fills and offsets together, than a block or a queue may have
/// ("Limits" in docs/RULES.md).
pub fn has_too_many_ops(ops: &[Op]) -> bool
    ensures { result ≡ is_too_long ops.now }
{
    ops.len() > MOST_OPERATIONS || fills_of(ops) > MOST_FILLS as u128
}
