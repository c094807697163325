//! An account is liquidated in a market.

ghost use Rattle.std.specs.Prelude.{◌≡◌, ◌≢◌, ℕ, ◌+◌, ◌^◌, ◌<◌, ◌≤◌, [], unsigned_abs, Result as Answer, Err as Refused, OnOk, fold};
ghost use Rattle.dx_spec.specs.State.{State as AnyState};
ghost use Rattle.dx_spec.specs.Accounts.{is_long as is_long_size};
ghost use Rattle.dx_spec.specs.Liquidation.{liquidate_step};
ghost use Rattle.dx_node_spec.specs.Book.{side_of};
ghost use Rattle.dx_node_spec.specs.Sweeping.{size_of as size_within, liquidate_one, liquidate_market as liquidated_in};
ghost use Rattle.dx_ledger.specs.Marks.{KeepsMarks};
ghost use Rattle.dx_accounts.specs.Faults.{IsFaultOf};
ghost use Rattle.dx_accounts.specs.Steady.{IsSteady};
ghost use Rattle.dx_trade.specs.Conditions.{IsTradable};
ghost use Rattle.dx_book.specs.Held.{most_held};
ghost use Rattle.dx_match.specs.Seen.{seen};
ghost use Rattle.dx_match.specs.Conditions.{KeepsThose, KeepsOthers, IsSettleable};
ghost use Rattle.dx_match.specs.Sweeps.{is_closed as closed_up, tried_closing, close_maker as closed_by, AreTradableIn};

use crate::closing::close_group;
use crate::removing::{leave, refuse_maker};
use crate::settling::settled_risk;
use crate::stepping::{left, note_fill};
use crate::taken::{Taker, Taking};
use dx_book::{Book, uncounted};
use dx_ledger::{Branch, Ledger, OpFault};
use dx_liquidation::liquidate;
use dx_margin::liquidatable;
use dx_queue::Queue;
use dx_trade::{Refusal, size_of};
use dx_types::{NoMemory, Order, SubaccountId};

/// Whether an account's position in a market is long.
pub(crate) fn is_long<L: Ledger>(ledger: &L, who: SubaccountId, market: u32) -> bool
    ensures { result ≡ is_long_size (size_within (L.content ledger.now) who market) }
{
    size_of(ledger, who, market) > 0
}

/// The magnitude of an account's position in a market: base quantums.
pub(crate) fn magnitude<L: Ledger>(ledger: &L, who: SubaccountId, market: u32) -> u64
    ensures { result ≡ unsigned_abs (size_within (L.content ledger.now) who market) }
{
    size_of(ledger, who, market).unsigned_abs()
}

/// Whether no more of an account's position in a market is closed: it is stopped, the account is not liquidatable,
/// or has no position there.
fn is_closed<L: Ledger>(ledger: &L, who: SubaccountId, market: u32, stop: u32) -> bool
    requires steady { IsSteady (L.content ledger.now) }
    requires settles { IsSettleable (L.content ledger.now) who }
    ensures { result ≡ closed_up (L.content ledger.now) who market stop }
{
    stop != 0 || !liquidatable(&settled_risk(ledger, who)) || magnitude(ledger, who, market) == 0
}

/// What a code leads to that refuses a fill of a liquidation: a maker whose account does not bear it leaves the
/// book, and so does an order of the account itself. Any other code ends the market.
fn note_code<L: Branch>(
    ledger: &mut L,
    queue: &Queue,
    who: SubaccountId,
    market: u32,
    maker: &Order,
    taking: &mut Taking,
    code: u32,
) -> Result<(), NoMemory>
    requires steady { IsSteady (L.content ledger.old) }
    requires settles { IsSettleable (L.content ledger.old) who }
    ensures ok { (amount : ℕ) → OnOk result (seen (L.content ledger.new) taking.new ≡ tried_closing queue.now who
        market maker.now amount (seen (L.content ledger.old) taking.old) (Refused code)) }
    ensures kept { OnOk result (KeepsOthers maker.now.id (L.content ledger.old) (L.content ledger.new)) }
    ensures settles { OnOk result (IsSettleable (L.content ledger.new) who) }
    ensures size { OnOk result (size_within (L.content ledger.new) who market
        ≡ size_within (L.content ledger.old) who market) }
    ensures filled { OnOk result (taking.new.filled ≡ taking.old.filled) }
    ensures fills { OnOk result (taking.new.fills ≡ taking.old.fills) }
    ensures offsets { OnOk result (taking.new.offsets ≡ taking.old.offsets) }
    ensures marks { KeepsMarks L.stands L.marked ledger.old ledger.new }
    ensures beside { L.beside ledger.new ≡ L.beside ledger.old }
{
    if code == Refusal::MakerRisk.number() {
        return refuse_maker(
            ledger,
            queue,
            &Taker::Liquidated { who, market },
            maker,
            taking,
        );
    }
    if code == Refusal::SelfTrade.number() {
        return leave(taking, maker);
    }
    taking.stop = code;
    Ok(())
}

/// What a refused fill of a liquidation leads to.
fn note_refusal<L: Branch>(
    ledger: &mut L,
    queue: &Queue,
    who: SubaccountId,
    market: u32,
    maker: &Order,
    taking: &mut Taking,
    fault: OpFault,
) -> Result<(), NoMemory>
    requires steady { IsSteady (L.content ledger.old) }
    requires settles { IsSettleable (L.content ledger.old) who }
    ensures ok { (amount : ℕ) (step : Answer AnyState ℕ) → IsFaultOf step fault
        → OnOk result (seen (L.content ledger.new) taking.new
        ≡ tried_closing queue.now who market maker.now amount (seen (L.content ledger.old) taking.old) step) }
    ensures kept { OnOk result (KeepsOthers maker.now.id (L.content ledger.old) (L.content ledger.new)) }
    ensures settles { OnOk result (IsSettleable (L.content ledger.new) who) }
    ensures size { OnOk result (size_within (L.content ledger.new) who market
        ≡ size_within (L.content ledger.old) who market) }
    ensures filled { OnOk result (taking.new.filled ≡ taking.old.filled) }
    ensures fills { OnOk result (taking.new.fills ≡ taking.old.fills) }
    ensures offsets { OnOk result (taking.new.offsets ≡ taking.old.offsets) }
    ensures marks { KeepsMarks L.stands L.marked ledger.old ledger.new }
    ensures beside { L.beside ledger.new ≡ L.beside ledger.old }
{
    match fault {
        OpFault::NoMemory => Err(NoMemory),
        OpFault::Code { code, .. } => note_code(ledger, queue, who, market, maker, taking, code),
    }
}

/// Lets a maker close an amount of base quantums of the position, and notes what that leads to.
fn try_close<L: Branch>(
    ledger: &mut L,
    queue: &Queue,
    who: SubaccountId,
    market: u32,
    maker: &Order,
    amount: u64,
    taking: &mut Taking,
) -> Result<(), NoMemory>
    requires steady { IsSteady (L.content ledger.old) }
    requires maker { IsTradable (L.content ledger.old) maker.now }
    requires settles { IsSettleable (L.content ledger.old) who }
    requires room { taking.old.filled + amount < 2 ^ 64 }
    requires fills { taking.old.fills + 1 < 2 ^ 32 }
    ensures ok { OnOk result (seen (L.content ledger.new) taking.new
        ≡ tried_closing queue.now who market maker.now amount (seen (L.content ledger.old) taking.old)
        (liquidate_step (L.content ledger.old) who market maker.now amount)) }
    ensures kept { OnOk result (KeepsOthers maker.now.id (L.content ledger.old) (L.content ledger.new)) }
    ensures settles { OnOk result (IsSettleable (L.content ledger.new) who) }
    ensures size { OnOk result (taking.new.filled + unsigned_abs (size_within (L.content ledger.new) who market)
        ≡ taking.old.filled + unsigned_abs (size_within (L.content ledger.old) who market)) }
    ensures fills { OnOk result (taking.new.fills ≤ taking.old.fills + 1) }
    ensures offsets { OnOk result (taking.new.offsets ≡ taking.old.offsets) }
    ensures marks { KeepsMarks L.stands L.marked ledger.old ledger.new }
    ensures beside { L.beside ledger.new ≡ L.beside ledger.old }
{
    match liquidate(ledger, who, market, maker, amount) {
        Ok(()) => note_fill(ledger, taking, maker, amount),
        Err(fault) => note_refusal(ledger, queue, who, market, maker, taking, fault),
    }
}

/// Lets a maker close what it can of the position: the lesser of the position and of what is left of the maker.
fn close_maker<L: Branch>(
    ledger: &mut L,
    queue: &Queue,
    who: SubaccountId,
    market: u32,
    maker: &Order,
    taking: &mut Taking,
) -> Result<(), NoMemory>
    requires steady { IsSteady (L.content ledger.old) }
    requires maker { IsTradable (L.content ledger.old) maker.now }
    requires settles { IsSettleable (L.content ledger.old) who }
    requires room { taking.old.filled + unsigned_abs (size_within (L.content ledger.old) who market) < 2 ^ 64 }
    requires fills { taking.old.fills + 1 < 2 ^ 32 }
    ensures ok { OnOk result (seen (L.content ledger.new) taking.new
        ≡ closed_by queue.now who market (seen (L.content ledger.old) taking.old) maker.now) }
    ensures kept { OnOk result (KeepsOthers maker.now.id (L.content ledger.old) (L.content ledger.new)) }
    ensures settles { OnOk result (IsSettleable (L.content ledger.new) who) }
    ensures size { OnOk result (taking.new.filled + unsigned_abs (size_within (L.content ledger.new) who market)
        ≡ taking.old.filled + unsigned_abs (size_within (L.content ledger.old) who market)) }
    ensures fills { OnOk result (taking.new.fills ≤ taking.old.fills + 1) }
    ensures offsets { OnOk result (taking.new.offsets ≡ taking.old.offsets) }
    ensures marks { KeepsMarks L.stands L.marked ledger.old ledger.new }
    ensures beside { L.beside ledger.new ≡ L.beside ledger.old }
{
    let amount = magnitude(ledger, who, market).min(left(ledger, maker));
    try_close(ledger, queue, who, market, maker, amount, taking)
}

/// Closes the position against the orders of a side of a market, the best price first and then the earliest, until
/// no more of it is closed.
fn close_side<L: Branch>(
    ledger: &mut L,
    book: &Book,
    queue: &Queue,
    who: SubaccountId,
    market: u32,
    buy: bool,
    taking: &mut Taking,
) -> Result<(), NoMemory>
    requires steady { IsSteady (L.content ledger.old) }
    requires makers { AreTradableIn market (L.content ledger.old) book.now.orders }
    requires settles { IsSettleable (L.content ledger.old) who }
    requires room { taking.old.filled + unsigned_abs (size_within (L.content ledger.old) who market) < 2 ^ 64 }
    requires fills { taking.old.fills + most_held < 2 ^ 32 }
    ensures ok { OnOk result (seen (L.content ledger.new) taking.new
        ≡ fold (liquidate_one queue.now who market) (seen (L.content ledger.old) taking.old)
        (side_of book.now.orders market buy)) }
    ensures kept { OnOk result (KeepsThose (λ id. id.market ≢ market) (L.content ledger.old) (L.content ledger.new)) }
    ensures settles { OnOk result (IsSettleable (L.content ledger.new) who) }
    ensures filled { OnOk result (taking.new.filled
        ≤ taking.old.filled + unsigned_abs (size_within (L.content ledger.old) who market)) }
    ensures fills { OnOk result (taking.new.fills ≤ taking.old.fills + most_held) }
    ensures offsets { OnOk result (taking.new.offsets ≡ taking.old.offsets) }
    ensures marks { KeepsMarks L.stands L.marked ledger.old ledger.new }
    ensures beside { L.beside ledger.new ≡ L.beside ledger.old }
{
    let mut next = uncounted::first(book, market, buy);
    for _number in 0..book.len() {
        let Some(key) = next else {
            return Ok(());
        };
        if is_closed(ledger, who, market, taking.stop) {
            return Ok(());
        }
        let maker = uncounted::order(book, key);
        close_maker(ledger, queue, who, market, &maker, taking)?;
        next = uncounted::next(book, key);
    }
    Ok(())
}

/// Liquidates an account in a market: the orders of the side that closes its position are taken at any price.
#[tactic(auto, unfolding(dx_node_spec::specs::Sweeping::liquidate_market))]
pub(crate) fn liquidate_market<L: Branch>(
    ledger: &mut L,
    book: &Book,
    queue: &Queue,
    who: SubaccountId,
    market: u32,
    taking: &mut Taking,
) -> Result<(), NoMemory>
    requires steady { IsSteady (L.content ledger.old) }
    requires makers { AreTradableIn market (L.content ledger.old) book.now.orders }
    requires settles { IsSettleable (L.content ledger.old) who }
    requires room { taking.old.filled + unsigned_abs (size_within (L.content ledger.old) who market) < 2 ^ 64 }
    requires fills { taking.old.fills + most_held < 2 ^ 32 }
    ensures ok { OnOk result (seen (L.content ledger.new) taking.new
        ≡ liquidated_in book.now.orders queue.now who (seen (L.content ledger.old) taking.old) market) }
    ensures closed { OnOk result (taking.new.group ≡ []) }
    ensures kept { OnOk result (KeepsThose (λ id. id.market ≢ market) (L.content ledger.old) (L.content ledger.new)) }
    ensures settles { OnOk result (IsSettleable (L.content ledger.new) who) }
    ensures filled { OnOk result (taking.new.filled
        ≤ taking.old.filled + unsigned_abs (size_within (L.content ledger.old) who market)) }
    ensures fills { OnOk result (taking.new.fills ≤ taking.old.fills + most_held) }
    ensures offsets { OnOk result (taking.new.offsets ≡ taking.old.offsets) }
    ensures marks { KeepsMarks L.stands L.marked ledger.old ledger.new }
    ensures beside { L.beside ledger.new ≡ L.beside ledger.old }
{
    taking.stop = 0;
    let long = is_long(ledger, who, market);
    close_side(ledger, book, queue, who, market, long, taking)?;
    close_group(queue, &Taker::Liquidated { who, market }, taking)
}
