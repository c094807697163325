//! An account's position in a market is offset against other accounts.

ghost use Rattle.std.specs.Prelude.{◌≡◌, ℕ, ◌+◌, ◌^◌, ◌<◌, ◌≤◌, [], ◌∷◌, ◌++◌, length, Result as Answer, Err as Refused, OnOk, fold};
ghost use Rattle.dx_types.specs.declared.Offset.{Offset as AnyOffset};
ghost use Rattle.dx_spec.specs.State.{State as AnyState};
ghost use Rattle.dx_spec.specs.Bounds.{most_accounts};
ghost use Rattle.dx_spec.specs.Deleveraging.{is_negative as is_negative_risk, delever_step};
ghost use Rattle.dx_node_spec.specs.Sweeping.{after_offset, offset_one, delever_market as delevered_in};
ghost use Rattle.dx_ledger.specs.Marks.{KeepsMarks};
ghost use Rattle.dx_accounts.specs.Faults.{IsFaultOf};
ghost use Rattle.dx_accounts.specs.Steady.{IsSteady};
ghost use Rattle.dx_match.specs.Seen.{seen};
ghost use Rattle.dx_match.specs.Conditions.{KeepsState, IsSettleable};
ghost use Rattle.dx_match.specs.Sweeps.{offsets_seen, is_offset as offset_up, offset_other as offset_by, with_offsets};

use crate::liquidating::{is_long, magnitude};
use crate::settling::settled_risk;
use crate::taken::Taking;
use dx_delever::delever;
use dx_ledger::{Branch, Ledger, OpFault};
use dx_trade::Refusal;
use dx_types::{List, NoMemory, Offset, Op, Risk, SubaccountId};
use std::alloc::Global;

/// How far the offsets of a market are.
#[derive(Debug, Drop)]
pub(crate) struct Offsetting {
    /// The offsets that were good, in order.
    pub(crate) done: List<Offset>,
    /// The code that ended them, or 0.
    pub(crate) stop: u32,
}

/// Whether an account has less than nothing, and a maintenance requirement.
#[tactic(auto, unfolding(dx_spec::specs::Deleveraging::is_negative))]
fn is_negative(risk: &Risk) -> bool
    ensures { result ≡ is_negative_risk risk.now }
{
    risk.tnc < 0 && risk.mmr > 0
}

/// Whether no more of an account's position in a market is offset: it is stopped, the account has not less than
/// nothing, or has no position there.
fn is_offset<L: Ledger>(ledger: &L, who: SubaccountId, market: u32, stop: u32) -> bool
    requires steady { IsSteady (L.content ledger.now) }
    requires settles { IsSettleable (L.content ledger.now) who }
    ensures { result ≡ offset_up (L.content ledger.now) who market stop }
{
    stop != 0 || !is_negative(&settled_risk(ledger, who)) || magnitude(ledger, who, market) == 0
}

/// Notes an offset that was good.
fn note_offset(offsets: &mut Offsetting, offset: &Offset) -> Result<(), NoMemory>
    ensures ok { (t : AnyState) → OnOk result (offsets_seen t offsets.new
        ≡ record { state = t; done = offsets.old.done ++ offset.now ∷ []; stop = 0 }) }
    ensures count { OnOk result (length offsets.new.done ≡ length offsets.old.done + 1) }
{
    offsets.stop = 0;
    offsets.done.push(*offset)
}

/// What a code leads to that refuses an offset: an account that does not bear it is passed over, and any other
/// code ends the market.
fn note_code(offsets: &mut Offsetting, code: u32)
    ensures ok { (s : AnyState) (offset : AnyOffset) → offsets_seen s offsets.new
        ≡ after_offset offset (offsets_seen s offsets.old) (Refused code) }
    ensures done { offsets.new.done ≡ offsets.old.done }
{
    if code == Refusal::OffsetRisk.number() {
        return;
    }
    offsets.stop = code;
}

/// What a refused offset leads to.
fn note_refusal(offsets: &mut Offsetting, fault: OpFault) -> Result<(), NoMemory>
    ensures ok { (s : AnyState) (offset : AnyOffset) (step : Answer AnyState ℕ) → IsFaultOf step fault
        → OnOk result (offsets_seen s offsets.new ≡ after_offset offset (offsets_seen s offsets.old) step) }
    ensures done { offsets.new.done ≡ offsets.old.done }
{
    match fault {
        OpFault::NoMemory => Err(NoMemory),
        OpFault::Code { code, .. } => {
            note_code(offsets, code);
            Ok(())
        }
    }
}

/// Lets another account take over an amount of the position, and notes what that leads to.
fn try_offset<L: Branch>(
    ledger: &mut L,
    who: SubaccountId,
    market: u32,
    offset: &Offset,
    offsets: &mut Offsetting,
) -> Result<(), NoMemory>
    requires steady { IsSteady (L.content ledger.old) }
    requires settles { IsSettleable (L.content ledger.old) who }
    ensures ok { OnOk result (offsets_seen (L.content ledger.new) offsets.new
        ≡ after_offset offset.now (offsets_seen (L.content ledger.old) offsets.old)
        (delever_step (L.content ledger.old) who market offset.now)) }
    ensures kept { OnOk result (KeepsState (L.content ledger.old) (L.content ledger.new)) }
    ensures settles { OnOk result (IsSettleable (L.content ledger.new) who) }
    ensures count { OnOk result (length offsets.new.done ≤ length offsets.old.done + 1) }
    ensures marks { KeepsMarks L.stands L.marked ledger.old ledger.new }
    ensures beside { L.beside ledger.new ≡ L.beside ledger.old }
{
    match delever(ledger, who, market, offset) {
        Ok(()) => note_offset(offsets, offset),
        Err(fault) => note_refusal(offsets, fault),
    }
}

/// Lets another account take over what it can of the position: the lesser of both positions.
fn offset_other<L: Branch>(
    ledger: &mut L,
    who: SubaccountId,
    market: u32,
    other: &Offset,
    offsets: &mut Offsetting,
) -> Result<(), NoMemory>
    requires steady { IsSteady (L.content ledger.old) }
    requires settles { IsSettleable (L.content ledger.old) who }
    ensures ok { OnOk result (offsets_seen (L.content ledger.new) offsets.new
        ≡ offset_by who market (offsets_seen (L.content ledger.old) offsets.old) other.now) }
    ensures kept { OnOk result (KeepsState (L.content ledger.old) (L.content ledger.new)) }
    ensures settles { OnOk result (IsSettleable (L.content ledger.new) who) }
    ensures count { OnOk result (length offsets.new.done ≤ length offsets.old.done + 1) }
    ensures marks { KeepsMarks L.stands L.marked ledger.old ledger.new }
    ensures beside { L.beside ledger.new ≡ L.beside ledger.old }
{
    let amount = magnitude(ledger, who, market).min(other.amount);
    let offset = Offset {
        who: other.who,
        amount,
    };
    try_offset(ledger, who, market, &offset, offsets)
}

/// Offsets the position against other accounts, in their order, until no more of it is offset.
fn offset_all<L: Branch>(
    ledger: &mut L,
    who: SubaccountId,
    market: u32,
    others: &[Offset],
    offsets: &mut Offsetting,
) -> Result<(), NoMemory>
    requires steady { IsSteady (L.content ledger.old) }
    requires settles { IsSettleable (L.content ledger.old) who }
    ensures ok { OnOk result (offsets_seen (L.content ledger.new) offsets.new
        ≡ fold (offset_one who market) (offsets_seen (L.content ledger.old) offsets.old) others.now) }
    ensures kept { OnOk result (KeepsState (L.content ledger.old) (L.content ledger.new)) }
    ensures settles { OnOk result (IsSettleable (L.content ledger.new) who) }
    ensures count { OnOk result (length offsets.new.done ≤ length offsets.old.done + length others.now) }
    ensures marks { KeepsMarks L.stands L.marked ledger.old ledger.new }
    ensures beside { L.beside ledger.new ≡ L.beside ledger.old }
{
    for other in others {
        if is_offset(ledger, who, market, offsets.stop) {
            return Ok(());
        }
        offset_other(ledger, who, market, other, offsets)?;
    }
    Ok(())
}

/// Puts the offsets of a market behind the operations as one operation, where there are any.
#[tactic(auto, unfolding(crate::specs::Sweeps::with_offsets))]
fn add_offsets(
    who: SubaccountId,
    market: u32,
    offsets: Offsetting,
    taking: &mut Taking,
) -> Result<(), NoMemory>
    requires { taking.old.offsets + length offsets.done < 2 ^ 32 }
    ensures ok { (s t : AnyState) → OnOk result (seen t taking.new
        ≡ with_offsets who market (seen s taking.old) (offsets_seen t offsets)) }
    ensures count { OnOk result (taking.new.offsets ≡ taking.old.offsets + length offsets.done) }
    ensures group { taking.new.group ≡ taking.old.group }
{
    if offsets.done.is_empty() {
        return Ok(());
    }
    taking.offsets += offsets.done.len() as u32;
    taking.ops.push(Op::Delever {
        who,
        market,
        offsets: offsets.done,
    })
}

/// Offsets an account's position in a market against the accounts with a position of the opposite sign, the
/// greatest first, and of equals the least account.
pub(crate) fn delever_market<L: Branch>(
    alloc: Global,
    ledger: &mut L,
    who: SubaccountId,
    market: u32,
    taking: &mut Taking,
) -> Result<(), NoMemory>
    requires steady { IsSteady (L.content ledger.old) }
    requires settles { IsSettleable (L.content ledger.old) who }
    requires offsets { taking.old.offsets + most_accounts < 2 ^ 32 }
    ensures ok { OnOk result (seen (L.content ledger.new) taking.new
        ≡ delevered_in who (seen (L.content ledger.old) taking.old) market) }
    ensures kept { OnOk result (KeepsState (L.content ledger.old) (L.content ledger.new)) }
    ensures settles { OnOk result (IsSettleable (L.content ledger.new) who) }
    ensures group { OnOk result (taking.new.group ≡ taking.old.group) }
    ensures offsets { OnOk result (taking.new.offsets ≤ taking.old.offsets + most_accounts) }
    ensures marks { KeepsMarks L.stands L.marked ledger.old ledger.new }
    ensures beside { L.beside ledger.new ≡ L.beside ledger.old }
{
    let others = ledger.holders(market, !is_long(ledger, who, market))?;
    let mut offsets = Offsetting {
        done: List::new(alloc),
        stop: 0,
    };
    offset_all(ledger, who, market, others.as_slice(), &mut offsets)?;
    add_offsets(who, market, offsets, taking)
}
