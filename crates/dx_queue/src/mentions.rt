//! The ids that operations mention, in the order of first mention.

ghost use Rattle.std.specs.Prelude.{◌≡◌, ◌+◌, ◌<◌, ◌≤◌, [], ◌∷◌, length, map, flat_map};
ghost use Rattle.dx_node_spec.specs.Queue.{mentioned};
ghost use Rattle.indexmap.specs.IndexSet.{spare};
ghost use Rattle.dx_queue.specs.Keys.{with_keys};

use crate::key::IdKey;
use dx_types::{Fill, Op, OrderId};
use indexmap::IndexSet;

/// Notes an id, if it is new, in room that is made.
fn note(named: &mut IndexSet<IdKey>, id: OrderId)
    requires { 0 < spare named.old }
    ensures keys { named.new.keys ≡ with_keys named.old.keys (id ∷ []) }
    ensures room { spare named.old ≤ spare named.new + 1 }
{
    let _is_new = named.insert(IdKey::of(id)).unwrap();
}

/// Notes the makers of fills, in their order.
fn note_makers(named: &mut IndexSet<IdKey>, fills: &[Fill])
    requires { length fills.now ≤ spare named.old }
    ensures keys { named.new.keys ≡ with_keys named.old.keys (map (λ f. f.maker) fills.now) }
    ensures room { spare named.old ≤ spare named.new + length fills.now }
{
    for fill in fills {
        note(named, fill.maker);
    }
}

/// Notes what an operation mentions.
fn note_op(named: &mut IndexSet<IdKey>, op: &Op)
    requires { length (mentioned op.now) ≤ spare named.old }
    ensures keys { named.new.keys ≡ with_keys named.old.keys (mentioned op.now) }
    ensures room { spare named.old ≤ spare named.new + length (mentioned op.now) }
{
    match op {
        Op::Match { taker, fills } => {
            note_makers(named, fills.as_slice());
            note(named, *taker);
        }
        Op::Liquidate { fills, .. } => note_makers(named, fills.as_slice()),
        Op::Remove(id) => note(named, *id),
        Op::Place(_) | Op::Delever { .. } => {}
    }
}

/// Notes the ids that operations mention, from the first on, in room that is made.
pub(crate) fn note_mentions(named: &mut IndexSet<IdKey>, ops: &[Op])
    requires { length (flat_map mentioned ops.now) ≤ spare named.old }
    ensures { named.new.keys ≡ with_keys named.old.keys (flat_map mentioned ops.now) }
{
    for op in ops {
        note_op(named, op);
    }
}
