//! What the queue gets: Places of the orders of a group of fills, and then the operation that has the fills.

ghost use Rattle.std.specs.Prelude.{◌≡◌, None, Some, [], ◌∷◌, ◌++◌, List as Items, IfOk, OnOk};
ghost use Rattle.std.specs.FinMap.{get as order_at};
ghost use Rattle.dx_types.specs.declared.Order.{Order as AnyOrder};
ghost use Rattle.dx_spec.specs.State.{State as AnyState};
ghost use Rattle.dx_spec.specs.Operations.{Placed};
ghost use Rattle.dx_node_spec.specs.Queue.{with_placed, placed_by, holds_order, places};
ghost use Rattle.dx_node_spec.specs.Taking.{fills_of as fills_in_group, makers_in, closed_match, within_limits};
ghost use Rattle.dx_match.specs.Seen.{group_of, seen, ended};
ghost use Rattle.dx_match.specs.Takers.{takers_of, op_of, closed_for, with_group};

use crate::faults::TakeFault;
use crate::taken::{Filled, Taken, Taker, Taking};
use dx_orders::{is_same_id, is_same_order};
use dx_queue::{Queue, has_too_many};
use dx_types::{Fill, List, NoMemory, Op, Order, OrderId};
use std::alloc::Global;
use std::mem;

/// The last placed order of an id after an operation, where `found` is the one before it.
fn placed_after(found: Option<Order>, op: &Op, id: &OrderId) -> Option<Order>
    ensures { (placed : Placed) → found ≡ order_at placed id.now
        → result ≡ order_at (with_placed placed op.now) id.now }
{
    match op {
        Op::Place(o) => {
            if is_same_id(*id, o.id) {
                Some(*o)
            } else {
                found
            }
        }
        Op::Match { .. } | Op::Liquidate { .. } | Op::Delever { .. } | Op::Remove(_) => found,
    }
}

/// The last placed order of an id in a queue with operations behind it.
fn last_placed(queue: &Queue, ops: &[Op], id: &OrderId) -> Option<Order>
    ensures { result ≡ order_at (placed_by (queue.now ++ ops.now)) id.now }
{
    let mut found = queue.placed(id);
    for op in ops {
        found = placed_after(found, op, id);
    }
    found
}

/// Whether a queue with operations behind it has placed an order as it is.
fn is_placed(queue: &Queue, ops: &[Op], order: &Order) -> bool
    ensures { result ≡ holds_order (placed_by (queue.now ++ ops.now)) order.now }
{
    match last_placed(queue, ops, &order.id) {
        Some(placed) => is_same_order(order, &placed),
        None => false,
    }
}

/// Places a short-term order that is not placed as it is.
fn add_place(queue: &Queue, ops: &mut List<Op>, order: &Order) -> Result<(), NoMemory>
    ensures { (rest : Items AnyOrder) → OnOk result (ops.new ++ places (placed_by (queue.now ++ ops.new)) rest
        ≡ ops.old ++ places (placed_by (queue.now ++ ops.old)) (order.now ∷ rest)) }
{
    if !order.id.is_short_term() {
        return Ok(());
    }
    if is_placed(queue, ops.as_slice(), order) {
        return Ok(());
    }
    ops.push(Op::Place(*order))
}

/// Places the makers of fills, in their order.
fn add_places(queue: &Queue, ops: &mut List<Op>, group: &[Filled]) -> Result<(), NoMemory>
    ensures { (rest : Items AnyOrder) → OnOk result (ops.new ++ places (placed_by (queue.now ++ ops.new)) rest
        ≡ ops.old ++ places (placed_by (queue.now ++ ops.old)) (makers_in (group_of group.now) ++ rest)) }
{
    for filled in group {
        add_place(queue, ops, &filled.maker)?;
    }
    Ok(())
}

/// The fills of a group by the ids of their makers.
fn fills_of(alloc: Global, group: &[Filled]) -> Result<List<Fill>, NoMemory>
    ensures { IfOk result (λ fills. fills ≡ fills_in_group (group_of group.now)) }
{
    let mut fills = List::new(alloc);
    for filled in group {
        fills.push(Fill {
            maker: filled.maker.id,
            amount: filled.amount,
        })?;
    }
    Ok(fills)
}

/// Places the order of a taker, where it is one.
fn add_taker(queue: &Queue, ops: &mut List<Op>, taker: &Taker) -> Result<(), NoMemory>
    ensures { OnOk result (ops.new ++ places (placed_by (queue.now ++ ops.new)) []
        ≡ ops.old ++ places (placed_by (queue.now ++ ops.old)) (takers_of taker.now)) }
{
    match taker {
        Taker::Placed(order) => add_place(queue, ops, order),
        Taker::Liquidated { .. } => Ok(()),
    }
}

/// The operation that has the fills of a taker.
fn operation(taker: &Taker, fills: List<Fill>) -> Op
    ensures { result ≡ op_of taker.now fills }
{
    match taker {
        Taker::Placed(order) => Op::Match {
            taker: order.id,
            fills,
        },
        Taker::Liquidated { who, market } => Op::Liquidate {
            who: *who,
            market: *market,
            fills,
        },
    }
}

/// Puts the operations of a group of fills behind others: a Place for each order that is not placed as it is, the
/// makers in the order of their fills and then the taker, and the operation that has the fills behind them.
fn add_group(
    queue: &Queue,
    taker: &Taker,
    ops: &mut List<Op>,
    group: &[Filled],
) -> Result<(), NoMemory>
    ensures { OnOk result (ops.new ≡ with_group queue.now taker.now ops.old (group_of group.now)) }
{
    add_places(queue, ops, group)?;
    add_taker(queue, ops, taker)?;
    let fills = fills_of(ops.allocator(), group)?;
    ops.push(operation(taker, fills))
}

/// Closes the group of a taking: its fills become operations. A group with no fill adds nothing.
pub(crate) fn close_group(queue: &Queue, taker: &Taker, taking: &mut Taking) -> Result<(), NoMemory>
    ensures ok { (s : AnyState)
        → OnOk result (seen s taking.new ≡ closed_for queue.now taker.now (seen s taking.old)) }
    ensures closed { OnOk result (taking.new.group ≡ []) }
    ensures filled { taking.new.filled ≡ taking.old.filled }
    ensures fills { taking.new.fills ≡ taking.old.fills }
    ensures offsets { taking.new.offsets ≡ taking.old.offsets }
{
    if taking.group.is_empty() {
        return Ok(());
    }
    let alloc = taking.ops.allocator();
    let group = mem::replace(&mut taking.group, List::new(alloc));
    add_group(queue, taker, &mut taking.ops, group.as_slice())
}

/// Ends a taking whose group is closed. `Full` exactly where the queue would pass its limits.
pub(crate) fn end(queue: &Queue, taking: Taking) -> Result<Taken, TakeFault>
    requires { taking.group ≡ [] }
    ensures ok { (s : AnyState) → IfOk result (λ t. within_limits queue.now (seen s taking) ≡ Some (ended s t)) }
    ensures full { (s : AnyState) → result ≡ Err TakeFault.Full → within_limits queue.now (seen s taking) ≡ None }
{
    if has_too_many(queue.ops().as_slice(), taking.ops.as_slice()) {
        return Err(TakeFault::Full);
    }
    Ok(Taken {
        ops: taking.ops,
        gone: taking.gone,
        filled: taking.filled,
        fills: taking.fills,
        offsets: taking.offsets,
        stop: taking.stop,
        over: taking.over,
    })
}

/// Closes the group of an order, and ends its taking. `Full` exactly where the queue would pass its limits, unless
/// there is no memory.
pub(crate) fn close(queue: &Queue, order: &Order, mut taking: Taking) -> Result<Taken, TakeFault>
    ensures ok { (s : AnyState) → IfOk result (λ t.
        within_limits queue.now (closed_match queue.now order.now (seen s taking)) ≡ Some (ended s t)) }
    ensures full { (s : AnyState) → result ≡ Err TakeFault.Full
        → within_limits queue.now (closed_match queue.now order.now (seen s taking)) ≡ None }
{
    close_group(queue, &Taker::Placed(*order), &mut taking)?;
    end(queue, taking)
}
