//! The last placed order of each id.

ghost use Rattle.std.specs.Prelude.{ℕ, ◌+◌, ◌<◌, ◌≤◌, length, fold};
ghost use Rattle.std.specs.FinMap.{insert as with_entry};
ghost use Rattle.dx_spec.specs.Operations.{Placed};
ghost use Rattle.dx_node_spec.specs.Queue.{with_placed};
ghost use Rattle.indexmap.specs.IndexMap.{spare};
ghost use Rattle.dx_queue.specs.Keys.{Agrees};

use crate::key::IdKey;
use dx_types::{Op, Order};
use indexmap::IndexMap;

/// Notes an order as the last one of its id, in room that is made.
fn note(placed: &mut IndexMap<IdKey, Order>, order: Order)
    requires { 0 < spare placed.old }
    ensures agrees { (m : Placed) → Agrees placed.old.entries m
        → Agrees placed.new.entries (with_entry m order.id order) }
    ensures room { spare placed.old ≤ spare placed.new + 1 }
{
    let _before = placed.insert(IdKey::of(order.id), order).unwrap();
}

/// Notes the order of an operation, if it places one, in room that is made.
fn note_op(placed: &mut IndexMap<IdKey, Order>, op: &Op)
    requires { 0 < spare placed.old }
    ensures agrees { (m : Placed) → Agrees placed.old.entries m → Agrees placed.new.entries (with_placed m op.now) }
    ensures room { spare placed.old ≤ spare placed.new + 1 }
{
    match op {
        Op::Place(order) => note(placed, *order),
        Op::Match { .. } | Op::Liquidate { .. } | Op::Delever { .. } | Op::Remove(_) => {}
    }
}

/// Notes the orders that operations place, from the first on, in room that is made.
pub(crate) fn note_orders(placed: &mut IndexMap<IdKey, Order>, ops: &[Op])
    requires { length ops.now ≤ spare placed.old }
    ensures { (m : Placed) → Agrees placed.old.entries m → Agrees placed.new.entries (fold with_placed m ops.now) }
{
    for op in ops {
        note_op(placed, op);
    }
}
