//! An account is swept.

ghost use Rattle.std.specs.Prelude.{◌≡◌, ℕ, ◌≤◌, None, Some, [], length, IsTrue, IfOk, OnOk, OnErr, fold};
ghost use Rattle.std.specs.List.{range_with_len};
ghost use Rattle.dx_types.specs.declared.SubaccountId.{SubaccountId as AnySubaccountId};
ghost use Rattle.dx_spec.specs.State.{is_kept};
ghost use Rattle.dx_spec.specs.Balance.{Balanced};
ghost use Rattle.dx_node_spec.specs.Taking.{within_limits};
ghost use Rattle.dx_node_spec.specs.Sweeping.{liquidate_market as liquidated_in, delever_market as delevered_in, sweep_parts as parts_of, sweep_account};
ghost use Rattle.dx_sound.specs.Within.{SoundWithin, SameBase};
ghost use Rattle.dx_ledger.specs.Marks.{KeepsMarks};
ghost use Rattle.dx_accounts.specs.Steady.{IsSteady};
ghost use Rattle.dx_match.specs.Seen.{seen, ended};
ghost use Rattle.dx_match.specs.Conditions.{IsBookFor, KeepsState, IsSettleable};

use crate::closing::end;
use crate::faults::TakeFault;
use crate::liquidating::liquidate_market;
use crate::offsetting::delever_market;
use crate::settling::can_settle;
use crate::taken::{Taken, Taking, start};
use dx_book::Book;
use dx_ledger::{Branch, Ledger};
use dx_queue::Queue;
use dx_types::{NoMemory, SubaccountId};
use std::alloc::Global;

/// How many markets there are.
fn market_count<L: Ledger>(ledger: &L) -> u32
    requires { IsSteady (L.content ledger.now) }
    ensures count { result ≡ length (L.content ledger.now).markets }
    ensures few { result ≤ 32 }
{
    ledger.params().markets.len() as u32
}

/// Liquidates an account in each market, by number.
fn liquidate_all<L: Branch>(
    ledger: &mut L,
    book: &Book,
    queue: &Queue,
    who: SubaccountId,
    taking: &mut Taking,
) -> Result<(), NoMemory>
    requires steady { IsSteady (L.content ledger.old) }
    requires book { IsBookFor (L.content ledger.old) book.now.orders }
    requires settles { IsSettleable (L.content ledger.old) who }
    requires group { taking.old.group ≡ [] }
    requires filled { taking.old.filled ≡ 0 }
    requires fills { taking.old.fills ≡ 0 }
    ensures ok { OnOk result (seen (L.content ledger.new) taking.new
        ≡ fold (liquidated_in book.now.orders queue.now who) (seen (L.content ledger.old) taking.old)
        (range_with_len 0 (length (L.content ledger.old).markets))) }
    ensures kept { OnOk result (KeepsState (L.content ledger.old) (L.content ledger.new)) }
    ensures settles { OnOk result (IsSettleable (L.content ledger.new) who) }
    ensures group { OnOk result (taking.new.group ≡ []) }
    ensures offsets { OnOk result (taking.new.offsets ≡ taking.old.offsets) }
    ensures marks { KeepsMarks L.stands L.marked ledger.old ledger.new }
    ensures beside { L.beside ledger.new ≡ L.beside ledger.old }
{
    'markets: for market in 0..market_count(ledger) {
        liquidate_market(ledger, book, queue, who, market, taking)?;
    }
    Ok(())
}

/// Offsets an account in each market, by number.
fn delever_all<L: Branch>(
    alloc: Global,
    ledger: &mut L,
    who: SubaccountId,
    taking: &mut Taking,
) -> Result<(), NoMemory>
    requires steady { IsSteady (L.content ledger.old) }
    requires settles { IsSettleable (L.content ledger.old) who }
    requires group { taking.old.group ≡ [] }
    requires offsets { taking.old.offsets ≡ 0 }
    ensures ok { OnOk result (seen (L.content ledger.new) taking.new
        ≡ fold (delevered_in who) (seen (L.content ledger.old) taking.old)
        (range_with_len 0 (length (L.content ledger.old).markets))) }
    ensures kept { OnOk result (KeepsState (L.content ledger.old) (L.content ledger.new)) }
    ensures group { OnOk result (taking.new.group ≡ []) }
    ensures marks { KeepsMarks L.stands L.marked ledger.old ledger.new }
    ensures beside { L.beside ledger.new ≡ L.beside ledger.old }
{
    'markets: for market in 0..market_count(ledger) {
        delever_market(alloc, ledger, who, market, taking)?;
    }
    Ok(())
}

/// Liquidates an account that can be settled, and then offsets it.
fn sweep_parts<L: Branch>(
    alloc: Global,
    ledger: &mut L,
    book: &Book,
    queue: &Queue,
    who: SubaccountId,
) -> Result<Taking, NoMemory>
    requires steady { IsSteady (L.content ledger.old) }
    requires book { IsBookFor (L.content ledger.old) book.now.orders }
    requires settles { IsSettleable (L.content ledger.old) who }
    ensures ok { IfOk result (λ t. seen (L.content ledger.new) t
        ≡ record (parts_of (L.content ledger.old) book.now.orders queue.now who) { stop = 0 }) }
    ensures group { IfOk result (λ t. t.group ≡ []) }
    ensures kept { OnOk result (KeepsState (L.content ledger.old) (L.content ledger.new)) }
    ensures marks { KeepsMarks L.stands L.marked ledger.old ledger.new }
    ensures beside { L.beside ledger.new ≡ L.beside ledger.old }
{
    let mut taking = start(alloc);
    liquidate_all(ledger, book, queue, who, &mut taking)?;
    delever_all(alloc, ledger, who, &mut taking)?;
    taking.stop = 0;
    Ok(taking)
}

/// Sweeps an account; one that can't be settled gives nothing.
fn sweep<L: Branch>(
    alloc: Global,
    ledger: &mut L,
    book: &Book,
    queue: &Queue,
    who: SubaccountId,
) -> Result<Taking, NoMemory>
    requires steady { IsSteady (L.content ledger.old) }
    requires book { IsBookFor (L.content ledger.old) book.now.orders }
    ensures ok { IfOk result (λ t. sweep_account (L.content ledger.old) book.now.orders queue.now who
        ≡ within_limits queue.now (seen (L.content ledger.new) t)) }
    ensures group { IfOk result (λ t. t.group ≡ []) }
    ensures kept { OnOk result (KeepsState (L.content ledger.old) (L.content ledger.new)) }
    ensures marks { KeepsMarks L.stands L.marked ledger.old ledger.new }
    ensures beside { L.beside ledger.new ≡ L.beside ledger.old }
{
    let can = can_settle(ledger, who)?;
    if can {
        return sweep_parts(alloc, ledger, book, queue, who);
    }
    Ok(start(alloc))
}

/// Sweeps, and leaves what it has written where nothing comes of it.
fn try_sweep<L: Branch>(
    alloc: Global,
    ledger: &mut L,
    book: &Book,
    queue: &Queue,
    who: SubaccountId,
) -> Result<Taken, TakeFault>
    requires steady { IsSteady (L.content ledger.old) }
    requires book { IsBookFor (L.content ledger.old) book.now.orders }
    ensures ok { IfOk result (λ t. sweep_account (L.content ledger.old) book.now.orders queue.now who
        ≡ Some (ended (L.content ledger.new) t)) }
    ensures full { result ≡ Err TakeFault.Full
        → sweep_account (L.content ledger.old) book.now.orders queue.now who ≡ None }
    ensures kept { OnOk result (KeepsState (L.content ledger.old) (L.content ledger.new)) }
    ensures marks { KeepsMarks L.stands L.marked ledger.old ledger.new }
    ensures beside { L.beside ledger.new ≡ L.beside ledger.old }
{
    let taking = sweep(alloc, ledger, book, queue, who)?;
    end(queue, taking)
}

/// Sweeps an account ("Sweep" in docs/RULES.md).
///
/// Market by market, by rising number, its position is liquidated while it has less than its maintenance
/// requirement: the orders that close it are taken at any price, the best first and then the earliest, each by the
/// lesser of the position and of what is left of it. A maker of the account itself leaves the book, and so does
/// one with nothing left and one whose account does not bear the fill: where a stateful one may be removed, its
/// removal is an operation too. Any other refusal ends the market. Then, market by market, its position is offset
/// while it has less than nothing: against the accounts with a position of the opposite sign, the greatest first,
/// and of equals the least account. One that does not bear it is passed over, and any other refusal ends the
/// market. An account that can't be settled gives nothing, and so does one that is not kept.
///
/// The book and the queue stay as they are: the caller takes `gone` out and pushes `ops`.
///
/// `Full` where the queue would have more than 1,024 operations, or more than 4,096 fills and offsets
/// together; `NoMemory` where there is none. The content is then as before.
pub fn match_liquidation<L: Branch>(
    alloc: Global,
    ledger: &mut L,
    book: &Book,
    queue: &Queue,
    who: SubaccountId,
) -> Result<Taken, TakeFault>
    requires steady { IsSteady (L.content ledger.old) }
    requires book { IsBookFor (L.content ledger.old) book.now.orders }
    ensures ok { IfOk result (λ t. sweep_account (L.content ledger.old) book.now.orders queue.now who
        ≡ Some (ended (L.content ledger.new) t)) }
    ensures full { result ≡ Err TakeFault.Full
        → sweep_account (L.content ledger.old) book.now.orders queue.now who ≡ None }
    ensures err { OnErr result (L.content ledger.new ≡ L.content ledger.old) }
    ensures steady { OnOk result (IsSteady (L.content ledger.new)) }
    ensures balanced { OnOk result (Balanced (L.content ledger.new)) }
    ensures within { (most : ℕ) → SoundWithin most (L.content ledger.old)
        → OnOk result (SoundWithin most (L.content ledger.new)) }
    ensures base { OnOk result (SameBase (L.content ledger.old) (L.content ledger.new)) }
    ensures accounts { (kept : AnySubaccountId) → IsTrue (is_kept (L.content ledger.old) kept)
        → OnOk result (IsTrue (is_kept (L.content ledger.new) kept)) }
    ensures marks { KeepsMarks L.stands L.marked ledger.old ledger.new }
    ensures beside { L.beside ledger.new ≡ L.beside ledger.old }
{
    let mark = ledger.mark()?;
    match try_sweep(alloc, ledger, book, queue, who) {
        Ok(taken) => Ok(taken),
        Err(fault) => {
            ledger.rollback(mark);
            Err(fault)
        }
    }
}
