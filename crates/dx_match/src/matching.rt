//! All makers of an order.

ghost use Rattle.std.specs.Prelude.{◌≡◌, ℕ, None, Some, IsTrue, IfOk, OnOk, OnErr, fold};
ghost use Rattle.dx_types.specs.declared.SubaccountId.{SubaccountId as AnySubaccountId};
ghost use Rattle.dx_spec.specs.State.{is_kept};
ghost use Rattle.dx_spec.specs.Balance.{Balanced};
ghost use Rattle.dx_node_spec.specs.Book.{makers_of};
ghost use Rattle.dx_node_spec.specs.Taking.{nothing_taken, take_one, take_order};
ghost use Rattle.dx_sound.specs.Within.{SoundWithin, SameBase};
ghost use Rattle.dx_ledger.specs.Marks.{KeepsMarks};
ghost use Rattle.dx_accounts.specs.Steady.{IsSteady};
ghost use Rattle.dx_trade.specs.Conditions.{IsTradable};
ghost use Rattle.dx_match.specs.Seen.{seen, ended};
ghost use Rattle.dx_match.specs.Conditions.{IsBookFor, KeepsState};

use crate::closing::close;
use crate::faults::TakeFault;
use crate::stepping::{is_over, take};
use crate::taken::{Taken, Taking, start};
use dx_book::{Book, uncounted};
use dx_ledger::Branch;
use dx_orders::crosses;
use dx_queue::Queue;
use dx_types::{NoMemory, Order};
use std::alloc::Global;

/// Takes the makers of an order, the best price first and then the earliest, until the order takes no more or
/// none crosses it.
fn take_all<L: Branch>(
    alloc: Global,
    ledger: &mut L,
    book: &Book,
    queue: &Queue,
    order: &Order,
) -> Result<Taking, NoMemory>
    requires steady { IsSteady (L.content ledger.old) }
    requires order { IsTradable (L.content ledger.old) order.now }
    requires book { IsBookFor (L.content ledger.old) book.now.orders }
    ensures ok { IfOk result (λ t. seen (L.content ledger.new) t
        ≡ fold (take_one queue.now order.now) (nothing_taken (L.content ledger.old))
        (makers_of book.now.orders order.now)) }
    ensures kept { OnOk result (KeepsState (L.content ledger.old) (L.content ledger.new)) }
    ensures marks { KeepsMarks L.stands L.marked ledger.old ledger.new }
    ensures beside { L.beside ledger.new ≡ L.beside ledger.old }
{
    let mut taking = start(alloc);
    let mut next = uncounted::first(book, order.id.market, !order.buy);
    for _number in 0..book.len() {
        let Some(key) = next else {
            return Ok(taking);
        };
        let maker = uncounted::order(book, key);
        if is_over(ledger, order, &taking) {
            return Ok(taking);
        }
        if !crosses(order, &maker) {
            return Ok(taking);
        }
        take(ledger, queue, order, &maker, &mut taking)?;
        next = uncounted::next(book, key);
    }
    Ok(taking)
}

/// Takes, and leaves what it has written where nothing comes of it.
fn try_match<L: Branch>(
    alloc: Global,
    ledger: &mut L,
    book: &Book,
    queue: &Queue,
    order: &Order,
) -> Result<Taken, TakeFault>
    requires steady { IsSteady (L.content ledger.old) }
    requires order { IsTradable (L.content ledger.old) order.now }
    requires book { IsBookFor (L.content ledger.old) book.now.orders }
    ensures ok { IfOk result (λ t. take_order (L.content ledger.old) book.now.orders queue.now order.now
        ≡ Some (ended (L.content ledger.new) t)) }
    ensures full { result ≡ Err TakeFault.Full
        → take_order (L.content ledger.old) book.now.orders queue.now order.now ≡ None }
    ensures kept { OnOk result (KeepsState (L.content ledger.old) (L.content ledger.new)) }
    ensures marks { KeepsMarks L.stands L.marked ledger.old ledger.new }
    ensures beside { L.beside ledger.new ≡ L.beside ledger.old }
{
    let taking = take_all(alloc, ledger, book, queue, order)?;
    close(queue, order, taking)
}

/// Takes for an order what a book offers ("Taking" and "What the queue gets" in docs/RULES.md).
///
/// The order takes the orders of the other side that it crosses, the best price first and then the earliest,
/// each at its own price, by the lesser of what is left of both. A maker of the order's own account leaves the
/// book, and so does one with nothing left and one whose account does not bear the fill: where a stateful one
/// may be removed, its removal is an operation too. Any other refusal stops the order with its code. A reduce-only
/// order takes no more than its account has to close, and ends at a maker of another account where that is
/// nothing (`over`). The order of the same id in the book stands aside. `order` need not be in the book, and the
/// book and the queue stay as they are: the caller takes `gone` out and pushes `ops`.
///
/// `Full` where the queue would have more than 1,024 operations, or more than 4,096 fills and offsets
/// together; `NoMemory` where there is none. The content is then as before.
pub fn match_order<L: Branch>(
    alloc: Global,
    ledger: &mut L,
    book: &Book,
    queue: &Queue,
    order: &Order,
) -> Result<Taken, TakeFault>
    requires steady { IsSteady (L.content ledger.old) }
    requires order { IsTradable (L.content ledger.old) order.now }
    requires book { IsBookFor (L.content ledger.old) book.now.orders }
    ensures ok { IfOk result (λ t. take_order (L.content ledger.old) book.now.orders queue.now order.now
        ≡ Some (ended (L.content ledger.new) t)) }
    ensures full { result ≡ Err TakeFault.Full
        → take_order (L.content ledger.old) book.now.orders queue.now order.now ≡ None }
    ensures err { OnErr result (L.content ledger.new ≡ L.content ledger.old) }
    ensures steady { OnOk result (IsSteady (L.content ledger.new)) }
    ensures balanced { OnOk result (Balanced (L.content ledger.new)) }
    ensures within { (most : ℕ) → SoundWithin most (L.content ledger.old)
        → OnOk result (SoundWithin most (L.content ledger.new)) }
    ensures base { OnOk result (SameBase (L.content ledger.old) (L.content ledger.new)) }
    ensures accounts { (who : AnySubaccountId) → IsTrue (is_kept (L.content ledger.old) who)
        → OnOk result (IsTrue (is_kept (L.content ledger.new) who)) }
    ensures marks { KeepsMarks L.stands L.marked ledger.old ledger.new }
    ensures beside { L.beside ledger.new ≡ L.beside ledger.old }
{
    let mark = ledger.mark()?;
    match try_match(alloc, ledger, book, queue, order) {
        Ok(taken) => Ok(taken),
        Err(fault) => {
            ledger.rollback(mark);
            Err(fault)
        }
    }
}
