//! A maker whose account does not bear a fill.

ghost use Rattle.std.specs.Prelude.{◌≡◌, ℕ, false, is_ok, Result as Answer, OnOk};
ghost use Rattle.dx_types.specs.declared.OrderId.{OrderId as AnyOrderId};
ghost use Rattle.dx_spec.specs.State.{State as AnyState, filled_of as filled_in};
ghost use Rattle.dx_spec.specs.Orders.{is_same_id};
ghost use Rattle.dx_spec.specs.Operations.{remove_step};
ghost use Rattle.dx_node_spec.specs.Taking.{leaves, with_removed, refused_maker};
ghost use Rattle.dx_ledger.specs.Marks.{KeepsMarks};
ghost use Rattle.dx_accounts.specs.Faults.{IsFaultOf};
ghost use Rattle.dx_accounts.specs.Steady.{IsSteady};
ghost use Rattle.dx_match.specs.Seen.{seen};
ghost use Rattle.dx_match.specs.Takers.{closed_for, with_removal};
ghost use Rattle.dx_match.specs.Conditions.{KeepsOthers, SameHoldings};

use crate::closing::close_group;
use crate::taken::{Taker, Taking};
use dx_accounts::remove_order;
use dx_ledger::{Branch, OpFault};
use dx_queue::Queue;
use dx_types::{NoMemory, Op, Order, OrderId};

/// A maker leaves the book.
pub(crate) fn leave(taking: &mut Taking, maker: &Order) -> Result<(), NoMemory>
    ensures ok { (s : AnyState) → OnOk result (seen s taking.new ≡ leaves maker.now.id (seen s taking.old)) }
    ensures filled { taking.new.filled ≡ taking.old.filled }
    ensures fills { taking.new.fills ≡ taking.old.fills }
    ensures offsets { taking.new.offsets ≡ taking.old.offsets }
{
    taking.gone.push(maker.id)
}

/// Puts the removal of an order behind the group, which it closes.
fn add_removal(
    queue: &Queue,
    taker: &Taker,
    id: &OrderId,
    taking: &mut Taking,
) -> Result<(), NoMemory>
    ensures ok { (s t : AnyState) → OnOk result (seen t taking.new
        ≡ with_removal queue.now taker.now id.now t (seen s taking.old)) }
    ensures filled { taking.new.filled ≡ taking.old.filled }
    ensures fills { taking.new.fills ≡ taking.old.fills }
    ensures offsets { taking.new.offsets ≡ taking.old.offsets }
{
    close_group(queue, taker, taking)?;
    taking.ops.push(Op::Remove(*id))
}

/// What a refused removal leads to: nothing, where a test refuses it.
fn not_removed(fault: OpFault) -> Result<(), NoMemory>
    ensures { (step : Answer AnyState ℕ) → IsFaultOf step fault → OnOk result (is_ok step ≡ false) }
{
    match fault {
        OpFault::NoMemory => Err(NoMemory),
        OpFault::Code { .. } => Ok(()),
    }
}

/// Removes a stateful maker where that is good, behind the group that the removal closes.
fn remove_maker<L: Branch>(
    ledger: &mut L,
    queue: &Queue,
    taker: &Taker,
    id: &OrderId,
    taking: &mut Taking,
) -> Result<(), NoMemory>
    requires { IsSteady (L.content ledger.old) }
    ensures ok { OnOk result (seen (L.content ledger.new) taking.new
        ≡ with_removed (closed_for queue.now taker.now) id.now (seen (L.content ledger.old) taking.old)
        (remove_step (L.content ledger.old) id.now)) }
    ensures kept { OnOk result (KeepsOthers id.now (L.content ledger.old) (L.content ledger.new)) }
    ensures holdings { OnOk result (SameHoldings (L.content ledger.old) (L.content ledger.new)) }
    ensures record { (other : AnyOrderId) → is_same_id other id.now ≡ false
        → OnOk result (filled_in (L.content ledger.new) other ≡ filled_in (L.content ledger.old) other) }
    ensures filled { taking.new.filled ≡ taking.old.filled }
    ensures fills { taking.new.fills ≡ taking.old.fills }
    ensures offsets { taking.new.offsets ≡ taking.old.offsets }
    ensures marks { KeepsMarks L.stands L.marked ledger.old ledger.new }
    ensures beside { L.beside ledger.new ≡ L.beside ledger.old }
{
    match remove_order(ledger, id) {
        Ok(()) => add_removal(queue, taker, id, taking),
        Err(fault) => not_removed(fault),
    }
}

/// A maker whose account does not bear a fill leaves the book. A stateful one is removed where its account does
/// not cover it, behind the group of fills that its removal closes.
#[tactic(auto, unfolding(dx_node_spec::specs::Taking::refused_maker))]
pub(crate) fn refuse_maker<L: Branch>(
    ledger: &mut L,
    queue: &Queue,
    taker: &Taker,
    maker: &Order,
    taking: &mut Taking,
) -> Result<(), NoMemory>
    requires { IsSteady (L.content ledger.old) }
    ensures ok { OnOk result (seen (L.content ledger.new) taking.new
        ≡ refused_maker (closed_for queue.now taker.now) maker.now (seen (L.content ledger.old) taking.old)) }
    ensures kept { OnOk result (KeepsOthers maker.now.id (L.content ledger.old) (L.content ledger.new)) }
    ensures holdings { OnOk result (SameHoldings (L.content ledger.old) (L.content ledger.new)) }
    ensures record { (other : AnyOrderId) → is_same_id other maker.now.id ≡ false
        → OnOk result (filled_in (L.content ledger.new) other ≡ filled_in (L.content ledger.old) other) }
    ensures filled { taking.new.filled ≡ taking.old.filled }
    ensures fills { taking.new.fills ≡ taking.old.fills }
    ensures offsets { taking.new.offsets ≡ taking.old.offsets }
    ensures marks { KeepsMarks L.stands L.marked ledger.old ledger.new }
    ensures beside { L.beside ledger.new ≡ L.beside ledger.old }
{
    leave(taking, maker)?;
    if maker.id.is_short_term() {
        return Ok(());
    }
    remove_maker(ledger, queue, taker, &maker.id, taking)
}
