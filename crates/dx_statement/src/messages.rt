//! The messages of a block that is known to be good, told one by one.

ghost use Rattle.std.specs.Prelude.{◌≡◌, ◌≤◌, ◌==◌, ◌++◌, length, Ok, OnOk};
ghost use Rattle.dx_spec.specs.State.{State, account_of as account_in};
ghost use Rattle.dx_spec.specs.Balance.{Balanced};
ghost use Rattle.dx_spec.specs.Messages.{message as message_of, message_step};
ghost use Rattle.dx_ledger.specs.Marks.{KeepsMarks};
ghost use Rattle.dx_rules.specs.Stages.{IsReady};
ghost use Rattle.dx_lines.specs.Lines.{if_good, account_lines, both_lines, by_transfer, message_lines, messages_lines};
ghost use Rattle.dx_statement.specs.Telling.{CanSettle, BothSettle, HasRoom};

use crate::looking::look;
use crate::telling::tell;
use dx_ledger::Branch;
use dx_lines::Line;
use dx_msgs::message;
use dx_types::{List, Msg, NoMemory, SubaccountId};

/// The cause of a line of a deposit.
const DEPOSIT: u32 = 1;
/// The cause of a line of a withdrawal.
const WITHDRAWAL: u32 = 2;
/// The cause of a line of a transfer.
const TRANSFER: u32 = 3;

/// Whether a message with this result was carried out.
fn is_done(code: u32) -> bool
    ensures { result ≡ (code == 0) }
{
    code == 0
}

/// Carries out a message of one account, and tells what it changed.
fn tell_one<L: Branch>(
    l: &mut L,
    time: u32,
    m: &Msg,
    who: SubaccountId,
    cause: u32,
    lines: &mut List<Line>,
) -> Result<(), NoMemory>
    requires room { HasRoom time (L.content l.old) }
    requires settles { (t : State) → message_step (L.content l.old) time m.now ≡ Ok t
        → CanSettle (L.content l.old).markets (account_in (L.content l.old) who) }
    ensures state { OnOk result ((message_of (L.content l.old) time m.now).0 ≡ L.content l.new) }
    ensures told { OnOk result (lines.new ≡ lines.old ++ if_good (message_step (L.content l.old) time m.now)
        (λ t. account_lines (L.content l.old) t who cause 0)) }
    ensures balanced { OnOk result (Balanced (L.content l.new)) }
    ensures marks { KeepsMarks L.stands L.marked l.old l.new }
    ensures beside { L.beside l.new ≡ L.beside l.old }
{
    let looked = look(l, who);
    let code = message(l, time, m)?;
    if !is_done(code) {
        return Ok(());
    }
    tell(l, &looked, who, cause, 0, lines)?;
    Ok(())
}

/// Carries out a message of two accounts, and tells what it changed of both.
fn tell_two<L: Branch>(
    l: &mut L,
    time: u32,
    m: &Msg,
    from: SubaccountId,
    to: SubaccountId,
    lines: &mut List<Line>,
) -> Result<(), NoMemory>
    requires room { HasRoom time (L.content l.old) }
    requires settles { (t : State) → message_step (L.content l.old) time m.now ≡ Ok t
        → BothSettle (L.content l.old) from to }
    ensures state { OnOk result ((message_of (L.content l.old) time m.now).0 ≡ L.content l.new) }
    ensures told { OnOk result (lines.new ≡ lines.old ++ if_good (message_step (L.content l.old) time m.now)
        (λ t. both_lines (L.content l.old) t from to by_transfer 0)) }
    ensures balanced { OnOk result (Balanced (L.content l.new)) }
    ensures marks { KeepsMarks L.stands L.marked l.old l.new }
    ensures beside { L.beside l.new ≡ L.beside l.old }
{
    let first = look(l, from);
    let second = look(l, to);
    let code = message(l, time, m)?;
    if !is_done(code) {
        return Ok(());
    }
    tell(l, &first, from, TRANSFER, 0, lines)?;
    tell(l, &second, to, TRANSFER, 0, lines)?;
    Ok(())
}

/// Carries out a message that changes no account.
fn tell_none<L: Branch>(l: &mut L, time: u32, m: &Msg) -> Result<(), NoMemory>
    requires room { HasRoom time (L.content l.old) }
    ensures state { OnOk result ((message_of (L.content l.old) time m.now).0 ≡ L.content l.new) }
    ensures balanced { OnOk result (Balanced (L.content l.new)) }
    ensures marks { KeepsMarks L.stands L.marked l.old l.new }
    ensures beside { L.beside l.new ≡ L.beside l.old }
{
    message(l, time, m)?;
    Ok(())
}

/// Carries out a message, and tells it where it is good.
fn tell_message<L: Branch>(
    l: &mut L,
    time: u32,
    m: &Msg,
    lines: &mut List<Line>,
) -> Result<(), NoMemory>
    requires room { HasRoom time (L.content l.old) }
    ensures state { OnOk result ((message_of (L.content l.old) time m.now).0 ≡ L.content l.new) }
    ensures told { OnOk result (lines.new ≡ lines.old ++ if_good (message_step (L.content l.old) time m.now)
        (message_lines m.now (L.content l.old))) }
    ensures balanced { OnOk result (Balanced (L.content l.new)) }
    ensures marks { KeepsMarks L.stands L.marked l.old l.new }
    ensures beside { L.beside l.new ≡ L.beside l.old }
{
    match m {
        Msg::Deposit { who, .. } => tell_one(l, time, m, *who, DEPOSIT, lines),
        Msg::Withdraw { who, .. } => tell_one(l, time, m, *who, WITHDRAWAL, lines),
        Msg::Transfer { from, to, .. } => tell_two(l, time, m, *from, *to, lines),
        Msg::PlaceStateful(_) => tell_none(l, time, m),
        Msg::CancelStateful(_) => tell_none(l, time, m),
        Msg::PlaceConditional { .. } => tell_none(l, time, m),
    }
}

/// Carries the messages of a block out, at the time of the block in seconds, and tells what each good one
/// changed.
///
/// `NoMemory` where there is none. What was carried out and told before it stays so: the caller marks the ledger
/// and rolls it back.
pub(crate) fn tell_messages<L: Branch>(
    l: &mut L,
    time: u32,
    msgs: &[Msg],
    lines: &mut List<Line>,
) -> Result<(), NoMemory>
    requires ready { IsReady (L.content l.old) }
    requires later { (L.content l.old).clock.time ≤ time }
    requires few { length msgs.now ≤ 256 }
    ensures told { OnOk result (lines.new ≡ lines.old ++ messages_lines (L.content l.old) time msgs.now) }
    ensures marks { KeepsMarks L.stands L.marked l.old l.new }
    ensures beside { L.beside l.new ≡ L.beside l.old }
{
    for m in msgs {
        tell_message(l, time, m, lines)?;
    }
    Ok(())
}
