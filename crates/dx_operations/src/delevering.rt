//! Deleveragings of a block: the offsets of an account below zero, in order.

ghost use Rattle.std.specs.Prelude.{◌≡◌, ◌<◌, ◌≤◌, ◌^◌, length, IfErr, OnOk};
ghost use Rattle.dx_spec.specs.Step.{try_each};
ghost use Rattle.dx_spec.specs.Blocks.{most_fills};
ghost use Rattle.dx_spec.specs.Operations.{deleveraging_offset, deleveraging_step};
ghost use Rattle.dx_ledger.specs.Marks.{KeepsMarks};
ghost use Rattle.dx_accounts.specs.Steady.{IsSteady};
ghost use Rattle.dx_operations.specs.Refusals.{IsFailureOf};
ghost use Rattle.dx_operations.specs.Midway.{KeepsMidway};

use crate::numbers::{fault_at, is_empty};
use crate::refusals::OpRefusal;
use dx_delever::delever;
use dx_ledger::{Branch, OpFault};
use dx_types::{Offset, SubaccountId};

/// The offset of a number in a deleveraging.
#[tactic(auto, unfolding(dx_spec::specs::Operations::deleveraging_offset))]
fn offset_at<L: Branch>(
    l: &mut L,
    who: SubaccountId,
    market: u32,
    number: usize,
    offset: &Offset,
) -> Result<(), OpFault>
    requires number { number < 2 ^ 32 }
    requires steady { IsSteady (L.content l.old) }
    ensures ok { OnOk result (deleveraging_offset who market number offset.now (L.content l.old)
        ≡ Ok (L.content l.new)) }
    ensures fault { IfErr result (IsFailureOf (deleveraging_offset who market number offset.now (L.content l.old))) }
    ensures steady { OnOk result (IsSteady (L.content l.new)) }
    ensures midway { OnOk result (KeepsMidway (L.content l.old) (L.content l.new)) }
    ensures marks { KeepsMarks L.stands L.marked l.old l.new }
    ensures beside { L.beside l.new ≡ L.beside l.old }
{
    match delever(l, who, market, offset) {
        Ok(()) => Ok(()),
        Err(fault) => Err(fault_at(number, fault)),
    }
}

/// All offsets of a deleveraging, in order.
#[tactic(auto, using(crate::proofs::Standing::keeps_itself))]
fn offset_all<L: Branch>(
    l: &mut L,
    who: SubaccountId,
    market: u32,
    offsets: &[Offset],
) -> Result<(), OpFault>
    requires few { length offsets.now ≤ most_fills }
    requires steady { IsSteady (L.content l.old) }
    ensures ok { OnOk result (try_each (deleveraging_offset who market) 0 offsets.now (L.content l.old)
        ≡ Ok (L.content l.new)) }
    ensures fault { IfErr result (IsFailureOf (try_each (deleveraging_offset who market) 0 offsets.now
        (L.content l.old))) }
    ensures midway { OnOk result (KeepsMidway (L.content l.old) (L.content l.new)) }
    ensures marks { KeepsMarks L.stands L.marked l.old l.new }
    ensures beside { L.beside l.new ≡ L.beside l.old }
{
    for (number, offset) in offsets.iter().enumerate() {
        offset_at(l, who, market, number, offset)?;
    }
    Ok(())
}

/// Lets other accounts take over the position that an account below zero has in a market, in order
/// ("Delever" in docs/RULES.md).
///
/// `Code` with the number of the first bad offset and its code: 28 at offset 0 where there is none, then for
/// each offset the code of `dx_delever`. `NoMemory` where there is none. What was taken over before a fault
/// stays so.
#[tactic(auto, unfolding(dx_spec::specs::Operations::deleveraging_step))]
pub(crate) fn delever_account<L: Branch>(
    l: &mut L,
    who: SubaccountId,
    market: u32,
    offsets: &[Offset],
) -> Result<(), OpFault>
    requires few { length offsets.now ≤ most_fills }
    requires steady { IsSteady (L.content l.old) }
    ensures ok { OnOk result (deleveraging_step (L.content l.old) who market offsets.now ≡ Ok (L.content l.new)) }
    ensures fault { IfErr result (IsFailureOf (deleveraging_step (L.content l.old) who market offsets.now)) }
    ensures midway { OnOk result (KeepsMidway (L.content l.old) (L.content l.new)) }
    ensures marks { KeepsMarks L.stands L.marked l.old l.new }
    ensures beside { L.beside l.new ≡ L.beside l.old }
{
    if is_empty(offsets) {
        return Err(OpFault::from(OpRefusal::EmptyMatch));
    }
    offset_all(l, who, market, offsets)
}
