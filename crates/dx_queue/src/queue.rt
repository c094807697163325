ghost use Rattle.std.specs.Prelude.{◌≡◌, ◌↔◌, ◌≤◌, [], ◌++◌, false, IsTrue, OnOk, is_ok, length, flat_map, slice_get, if◌then◌else◌};
ghost use Rattle.std.specs.FinMap as map;
ghost use Rattle.dx_spec.specs.Blocks.{has_too_many_ops};
ghost use Rattle.dx_node_spec.specs.Queue.{placed_by, mentioned, named_by};
ghost use Rattle.indexmap.specs.IndexMap.{spare as spare_places};
ghost use Rattle.indexmap.specs.IndexSet.{spare as spare_names};

use crate::fault::QueueFault;
use crate::key::IdKey;
use crate::limits::{has_too_many, room_for};
use crate::mentions::note_mentions;
use crate::places::note_orders;
use dx_types::{List, NoMemory, Op, Order, OrderId};
use indexmap::{IndexMap, IndexSet};
use std::alloc::Global;
use std::marker::Model;
use std::mem;

/// A node's own operations, in order: at most 1,024, with at most 4,096 fills and offsets together.
/// Contracts see the list.
#[derive(Debug, Drop)]
pub struct Queue {
    ops: List<Op>,
    /// The last placed order of each id.
    placed: IndexMap<IdKey, Order>,
    /// The ids that are mentioned, in the order of first mention.
    named: IndexSet<IdKey>,
}

impl Model for Queue {
    ghost use Rattle.std.specs.Prelude.{List as Items};
    ghost use Rattle.dx_types.specs.declared.Op.{Op as AnyOp};

    ghost Value = { Items AnyOp };

    ghost use Rattle.dx_queue.specs.Keys.{IsKept};

    ghost view = { λ q. q.ops };

    ghost invariant = { λ q. IsKept q.ops q.placed.entries q.named.keys };
}

/// Makes room for what operations within the limits place and mention. Both indexes stay as they are,
/// whatever the answer.
fn make_room(
    placed: &mut IndexMap<IdKey, Order>,
    named: &mut IndexSet<IdKey>,
    ops: &[Op],
) -> Result<(), NoMemory>
    requires { has_too_many_ops ops.now ≡ false }
    ensures placed { placed.new.entries ≡ placed.old.entries }
    ensures named { named.new.keys ≡ named.old.keys }
    ensures orders { OnOk result (length ops.now ≤ spare_places placed.new) }
    ensures mentions { OnOk result (length (flat_map mentioned ops.now) ≤ spare_names named.new) }
{
    placed.reserve(ops.len())?;
    named.reserve(room_for(ops))?;
    Ok(())
}

/// Puts all operations behind others, or none where there is no memory.
fn append(ops: &mut List<Op>, more: List<Op>) -> Result<(), NoMemory>
    ensures { ops.new ≡ (if is_ok result then ops.old ++ more else ops.old) }
{
    let alloc = ops.allocator();
    let mut items = mem::replace(ops, List::new(alloc)).into_vec();
    let mut more = more.into_vec();
    let appended = items.append(&mut more);
    *ops = List::from_vec(items);
    match appended {
        Ok(()) => Ok(()),
        Err(_) => Err(NoMemory),
    }
}

impl Queue {
    /// A queue without operations. It takes no memory.
    pub fn new(alloc: Global) -> Queue
        ensures { result ≡ [] }
    {
        Queue {
            ops: List::new(alloc),
            placed: IndexMap::new(alloc),
            named: IndexSet::new(alloc),
        }
    }

    /// Appends all operations, or none where it is refused.
    ///
    /// `Full` exactly where the queue would have more than 1,024 operations, or more than 4,096 fills
    /// and offsets together ("Limits" in docs/RULES.md); `NoMemory` where there is no memory.
    pub fn push(&mut self, ops: &List<Op>) -> Result<(), QueueFault>
        ensures full { (result ≡ Err QueueFault.Full) ↔ IsTrue (has_too_many_ops (self.old ++ ops.now)) }
        ensures ops { self.new ≡ (if is_ok result then self.old ++ ops.now else self.old) }
    {
        let more = ops.as_slice();
        if has_too_many(self.ops.as_slice(), more) {
            return Err(QueueFault::Full);
        }
        let copies = ops.try_clone()?;
        make_room(&mut self.placed, &mut self.named, more)?;
        append(&mut self.ops, copies)?;
        note_orders(&mut self.placed, more);
        note_mentions(&mut self.named, more);
        Ok(())
    }

    /// The last placed order of an id, if one is placed. It takes no memory.
    pub fn placed(&self, id: &OrderId) -> Option<Order>
        ensures { result ≡ map.get (placed_by self.now) id.now }
    {
        self.placed.get(&IdKey::of(*id)).copied()
    }

    /// The id of a number, which counts from 0, in the order of first mention. It takes no memory.
    pub fn named(&self, k: usize) -> Option<OrderId>
        ensures { result ≡ slice_get (named_by self.now) k }
    {
        self.named.get_index(k).map(|key| key.id())
    }

    /// How many ids the operations mention. It takes no memory.
    pub fn named_count(&self) -> usize
        ensures { result ≡ length (named_by self.now) }
    {
        self.named.len()
    }

    /// The operations, lent: they are within the limits. It takes no memory.
    pub fn ops(&self) -> &List<Op>
        ensures list { result.now ≡ self.now }
        ensures within { has_too_many_ops self.now ≡ false }
    {
        &self.ops
    }

    /// Takes all operations out. It takes no memory.
    pub fn clear(&mut self)
        ensures { self.new ≡ [] }
    {
        *self = Queue::new(self.ops.allocator());
    }
}
