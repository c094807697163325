//! One maker.

ghost use Rattle.std.specs.Prelude.{◌≡◌, ℕ, ◌+◌, ◌^◌, ◌<◌, ◌≤◌, false, [], ◌∷◌, Result as Answer, Err as Refused, OnOk, fold};
ghost use Rattle.dx_spec.specs.State.{State as AnyState, filled_of as filled_in};
ghost use Rattle.dx_spec.specs.Fills.{fill_step};
ghost use Rattle.dx_spec.specs.Orders.{is_same_id as is_one_id};
ghost use Rattle.dx_node_spec.specs.Book.{left as left_in, without};
ghost use Rattle.dx_node_spec.specs.Taking.{with_fill, looked_again, try_maker as tried_with, take_one};
ghost use Rattle.dx_ledger.specs.Marks.{KeepsMarks};
ghost use Rattle.dx_accounts.specs.Faults.{IsFaultOf};
ghost use Rattle.dx_accounts.specs.Steady.{IsSteady};
ghost use Rattle.dx_trade.specs.Conditions.{IsTradable};
ghost use Rattle.dx_match.specs.Seen.{seen};
ghost use Rattle.dx_fill.specs.Conditions.{CanFillBoth};
ghost use Rattle.dx_match.specs.Conditions.{KeepsOthers};
ghost use Rattle.dx_match.specs.Stages.{is_over as over, tried, take_maker as taken_from};

use crate::reducing::{amount_to_try, closes_nothing, look_again};
use crate::removing::{leave, refuse_maker};
use crate::taken::{Filled, Taker, Taking};
use dx_fill::fill;
use dx_ledger::{Branch, Ledger, OpFault};
use dx_orders::{is_same_account, is_same_id};
use dx_queue::Queue;
use dx_trade::{Refusal, filled_of};
use dx_types::{NoMemory, Order};

/// What is left of an order: base quantums ("Book" in docs/RULES.md).
pub fn left<L: Ledger>(ledger: &L, order: &Order) -> u64
    ensures { result ≡ left_in (L.content ledger.now) order.now }
{
    order.size.saturating_sub(filled_of(ledger, &order.id))
}

/// Whether an order takes no more: its taking is over, it is stopped, or it has nothing left.
pub(crate) fn is_over<L: Ledger>(ledger: &L, order: &Order, taking: &Taking) -> bool
    ensures { result ≡ over order.now (seen (L.content ledger.now) taking.now) }
{
    taking.over || taking.stop != 0 || left(ledger, order) == 0
}

/// Notes a fill that was made.
#[tactic(auto, unfolding(dx_node_spec::specs::Taking::with_fill))]
pub(crate) fn note_fill<L: Ledger>(
    ledger: &L,
    taking: &mut Taking,
    maker: &Order,
    amount: u64,
) -> Result<(), NoMemory>
    requires fills { taking.old.fills + 1 < 2 ^ 32 }
    requires filled { taking.old.filled + amount < 2 ^ 64 }
    ensures ok { (s : AnyState) → OnOk result (seen (L.content ledger.now) taking.new
        ≡ with_fill maker.now amount (L.content ledger.now) (seen s taking.old)) }
    ensures filled { OnOk result (taking.new.filled ≡ taking.old.filled + amount) }
    ensures fills { OnOk result (taking.new.fills ≡ taking.old.fills + 1) }
    ensures offsets { OnOk result (taking.new.offsets ≡ taking.old.offsets) }
{
    taking.group.push(Filled {
        maker: *maker,
        amount,
    })?;
    taking.filled += amount;
    taking.fills += 1;
    if left(ledger, maker) == 0 {
        return leave(taking, maker);
    }
    Ok(())
}

/// What a code leads to that refuses a fill: a maker whose account does not bear it leaves the book, and any
/// other code stops the order.
fn note_code<L: Branch>(
    ledger: &mut L,
    queue: &Queue,
    order: &Order,
    maker: &Order,
    taking: &mut Taking,
    code: u32,
) -> Result<(), NoMemory>
    requires { IsSteady (L.content ledger.old) }
    ensures ok { (amount : ℕ) → OnOk result (seen (L.content ledger.new) taking.new
        ≡ tried queue.now order.now maker.now amount (seen (L.content ledger.old) taking.old) (Refused code)) }
    ensures kept { OnOk result (KeepsOthers maker.now.id (L.content ledger.old) (L.content ledger.new)) }
    ensures record { is_one_id order.now.id maker.now.id ≡ false
        → OnOk result (filled_in (L.content ledger.new) order.now.id ≡ filled_in (L.content ledger.old) order.now.id) }
    ensures filled { OnOk result (taking.new.filled ≡ taking.old.filled) }
    ensures fills { OnOk result (taking.new.fills ≡ taking.old.fills) }
    ensures marks { KeepsMarks L.stands L.marked ledger.old ledger.new }
    ensures beside { L.beside ledger.new ≡ L.beside ledger.old }
{
    if code == Refusal::MakerRisk.number() {
        return refuse_maker(ledger, queue, &Taker::Placed(*order), maker, taking);
    }
    taking.stop = code;
    Ok(())
}

/// What a refused fill leads to.
fn note_refusal<L: Branch>(
    ledger: &mut L,
    queue: &Queue,
    order: &Order,
    maker: &Order,
    taking: &mut Taking,
    fault: OpFault,
) -> Result<(), NoMemory>
    requires { IsSteady (L.content ledger.old) }
    ensures ok { (amount : ℕ) (step : Answer AnyState ℕ) → IsFaultOf step fault
        → OnOk result (seen (L.content ledger.new) taking.new
        ≡ tried queue.now order.now maker.now amount (seen (L.content ledger.old) taking.old) step) }
    ensures kept { OnOk result (KeepsOthers maker.now.id (L.content ledger.old) (L.content ledger.new)) }
    ensures record { is_one_id order.now.id maker.now.id ≡ false
        → OnOk result (filled_in (L.content ledger.new) order.now.id ≡ filled_in (L.content ledger.old) order.now.id) }
    ensures filled { OnOk result (taking.new.filled ≡ taking.old.filled) }
    ensures fills { OnOk result (taking.new.fills ≡ taking.old.fills) }
    ensures marks { KeepsMarks L.stands L.marked ledger.old ledger.new }
    ensures beside { L.beside ledger.new ≡ L.beside ledger.old }
{
    match fault {
        OpFault::NoMemory => Err(NoMemory),
        OpFault::Code { code, .. } => note_code(ledger, queue, order, maker, taking, code),
    }
}

/// Fills the order against a maker by an amount of base quantums, and notes what that leads to.
fn try_fill<L: Branch>(
    ledger: &mut L,
    queue: &Queue,
    order: &Order,
    maker: &Order,
    amount: u64,
    taking: &mut Taking,
) -> Result<(), NoMemory>
    requires fillable { CanFillBoth (L.content ledger.old) order.now maker.now }
    requires other { is_one_id maker.now.id order.now.id ≡ false }
    requires within { taking.old.filled ≤ filled_in (L.content ledger.old) order.now.id }
    requires room { taking.old.filled + amount < 2 ^ 64 }
    requires fills { taking.old.fills + 1 < 2 ^ 32 }
    ensures ok { OnOk result (seen (L.content ledger.new) taking.new
        ≡ tried queue.now order.now maker.now amount (seen (L.content ledger.old) taking.old)
        (fill_step (L.content ledger.old) order.now maker.now amount)) }
    ensures kept { OnOk result (KeepsOthers maker.now.id (L.content ledger.old) (L.content ledger.new)) }
    ensures within { OnOk result (taking.new.filled ≤ filled_in (L.content ledger.new) order.now.id) }
    ensures fills { OnOk result (taking.new.fills ≤ taking.old.fills + 1) }
    ensures marks { KeepsMarks L.stands L.marked ledger.old ledger.new }
    ensures beside { L.beside ledger.new ≡ L.beside ledger.old }
{
    match fill(ledger, order, maker, amount) {
        Ok(()) => note_fill(ledger, taking, maker, amount),
        Err(fault) => note_refusal(ledger, queue, order, maker, taking, fault),
    }
}

/// Tries a fill of a maker by the amount that the order can take of it, and looks at the maker again.
fn try_maker<L: Branch>(
    ledger: &mut L,
    queue: &Queue,
    order: &Order,
    maker: &Order,
    taking: &mut Taking,
) -> Result<(), NoMemory>
    requires fillable { CanFillBoth (L.content ledger.old) order.now maker.now }
    requires other { is_one_id maker.now.id order.now.id ≡ false }
    requires within { taking.old.filled ≤ filled_in (L.content ledger.old) order.now.id }
    requires fills { taking.old.fills + 1 < 2 ^ 32 }
    ensures ok { OnOk result (seen (L.content ledger.new) taking.new ≡ looked_again order.now maker.now
        (tried_with queue.now order.now (seen (L.content ledger.old) taking.old) maker.now)) }
    ensures kept { OnOk result (KeepsOthers maker.now.id (L.content ledger.old) (L.content ledger.new)) }
    ensures within { OnOk result (taking.new.filled ≤ filled_in (L.content ledger.new) order.now.id) }
    ensures fills { OnOk result (taking.new.fills ≤ taking.old.fills + 1) }
    ensures marks { KeepsMarks L.stands L.marked ledger.old ledger.new }
    ensures beside { L.beside ledger.new ≡ L.beside ledger.old }
{
    let amount = amount_to_try(ledger, order, maker);
    try_fill(ledger, queue, order, maker, amount, taking)?;
    look_again(ledger, order, maker, taking);
    Ok(())
}

/// Takes a maker: one of the order's own account leaves the book. A reduce-only order with nothing to close takes no
/// more. Of any other a fill is tried.
fn take_maker<L: Branch>(
    ledger: &mut L,
    queue: &Queue,
    order: &Order,
    maker: &Order,
    taking: &mut Taking,
) -> Result<(), NoMemory>
    requires fillable { CanFillBoth (L.content ledger.old) order.now maker.now }
    requires other { is_one_id maker.now.id order.now.id ≡ false }
    requires within { taking.old.filled ≤ filled_in (L.content ledger.old) order.now.id }
    requires fills { taking.old.fills + 1 < 2 ^ 32 }
    ensures ok { OnOk result (seen (L.content ledger.new) taking.new
        ≡ taken_from queue.now order.now (seen (L.content ledger.old) taking.old) maker.now) }
    ensures kept { OnOk result (KeepsOthers maker.now.id (L.content ledger.old) (L.content ledger.new)) }
    ensures within { OnOk result (taking.new.filled ≤ filled_in (L.content ledger.new) order.now.id) }
    ensures fills { OnOk result (taking.new.fills ≤ taking.old.fills + 1) }
    ensures marks { KeepsMarks L.stands L.marked ledger.old ledger.new }
    ensures beside { L.beside ledger.new ≡ L.beside ledger.old }
{
    if is_same_account(maker.id.who, order.id.who) {
        return leave(taking, maker);
    }
    if closes_nothing(ledger, order) {
        taking.over = true;
        return Ok(());
    }
    try_maker(ledger, queue, order, maker, taking)
}

/// Takes a maker that the order crosses, unless it has the order's own id.
pub(crate) fn take<L: Branch>(
    ledger: &mut L,
    queue: &Queue,
    order: &Order,
    maker: &Order,
    taking: &mut Taking,
) -> Result<(), NoMemory>
    requires fillable { CanFillBoth (L.content ledger.old) order.now maker.now }
    requires goes_on { over order.now (seen (L.content ledger.old) taking.old) ≡ false }
    requires within { taking.old.filled ≤ filled_in (L.content ledger.old) order.now.id }
    requires fills { taking.old.fills + 1 < 2 ^ 32 }
    ensures ok { OnOk result (seen (L.content ledger.new) taking.new
        ≡ fold (take_one queue.now order.now) (seen (L.content ledger.old) taking.old)
        (without (maker.now ∷ []) order.now.id)) }
    ensures kept { OnOk result (KeepsOthers maker.now.id (L.content ledger.old) (L.content ledger.new)) }
    ensures own { OnOk result (IsTradable (L.content ledger.new) order.now) }
    ensures within { OnOk result (taking.new.filled ≤ filled_in (L.content ledger.new) order.now.id) }
    ensures fills { OnOk result (taking.new.fills ≤ taking.old.fills + 1) }
    ensures marks { KeepsMarks L.stands L.marked ledger.old ledger.new }
    ensures beside { L.beside ledger.new ≡ L.beside ledger.old }
{
    if is_same_id(maker.id, order.id) {
        return Ok(());
    }
    take_maker(ledger, queue, order, maker, taking)
}
