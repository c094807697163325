//! How long a queue may be, and how many ids its operations may mention.

ghost use Rattle.std.specs.Prelude.{◌≡◌, ◌≤◌, ◌++◌, false, length, flat_map};
ghost use Rattle.dx_spec.specs.Blocks.{has_too_many_ops as is_too_long};
ghost use Rattle.dx_node_spec.specs.Queue.{mentioned};

use dx_operations::fills_of;
use dx_types::Op;
use dx_types::limits::{MOST_FILLS, MOST_OPERATIONS};

/// Whether operations behind others would pass the limits: 1,024 operations, or 4,096 fills and offsets
/// together ("Limits" in docs/RULES.md).
pub fn has_too_many(ops: &[Op], more: &[Op]) -> bool
    ensures { result ≡ is_too_long (ops.now ++ more.now) }
{
    if ops.len() > MOST_OPERATIONS || more.len() > MOST_OPERATIONS - ops.len() {
        return true;
    }
    fills_of(ops) + fills_of(more) > MOST_FILLS as u128
}

/// How many ids operations within the limits may mention at most: one for each fill, and one more for
/// each operation.
#[tactic(auto, using(crate::proofs::Room::mentions_within))]
pub(crate) fn room_for(ops: &[Op]) -> usize
    requires { is_too_long ops.now ≡ false }
    ensures { length (flat_map mentioned ops.now) ≤ result }
{
    fills_of(ops) as usize + ops.len()
}
