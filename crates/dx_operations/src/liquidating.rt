//! Liquidations of a block: the fills of an account that lacks margin, in order.

ghost use Rattle.std.specs.Prelude.{◌≡◌, ◌<◌, ◌≤◌, ◌^◌, length, IfErr, OnOk};
ghost use Rattle.dx_types.specs.Keys.{order_id_cmp};
ghost use Rattle.dx_maps.specs.Tables.{map_of};
ghost use Rattle.dx_spec.specs.Step.{try_each};
ghost use Rattle.dx_spec.specs.Blocks.{most_fills};
ghost use Rattle.dx_spec.specs.Operations.{liquidation_fill, liquidation_step};
ghost use Rattle.dx_ledger.specs.Marks.{KeepsMarks};
ghost use Rattle.dx_accounts.specs.Faults.{IsFaultOf};
ghost use Rattle.dx_operations.specs.Refusals.{IsFailureOf};
ghost use Rattle.dx_operations.specs.Midway.{IsMidway};
ghost use Rattle.dx_operations.specs.Stages.{close_by as closing_of_maker};

use crate::numbers::{fault_at, is_empty};
use crate::orders::order_of;
use crate::refusals::OpRefusal;
use dx_ledger::{Branch, OpFault};
use dx_liquidation::liquidate;
use dx_types::{Fill, Order, OrderId, SubaccountId};
use std::collections::BTreeMap;

/// Lets the order of a maker's id close a part of an account's position. `Code` with 4 where there is none,
/// or with that of the liquidation's first test that fails.
fn close_by<L: Branch>(
    l: &mut L,
    placed: &BTreeMap<OrderId, Order>,
    height: u32,
    who: SubaccountId,
    market: u32,
    f: &Fill,
) -> Result<(), OpFault>
    requires { IsMidway height (L.content l.old) (map_of order_id_cmp placed.now) }
    ensures ok { OnOk result (closing_of_maker (L.content l.old) (map_of order_id_cmp placed.now) who market f.now
        ≡ Ok (L.content l.new)) }
    ensures code { IfErr result (IsFaultOf (closing_of_maker (L.content l.old)
        (map_of order_id_cmp placed.now) who market f.now)) }
    ensures midway { OnOk result (IsMidway height (L.content l.new) (map_of order_id_cmp placed.now)) }
    ensures marks { KeepsMarks L.stands L.marked l.old l.new }
    ensures beside { L.beside l.new ≡ L.beside l.old }
{
    let Some(maker) = order_of(l, placed, height, f.maker) else {
        return Err(OpFault::from(OpRefusal::UnknownMaker));
    };
    liquidate(l, who, market, &maker, f.amount)
}

/// The fill of a number in a liquidation.
#[tactic(auto, unfolding(dx_spec::specs::Operations::liquidation_fill))]
fn close_at<L: Branch>(
    l: &mut L,
    placed: &BTreeMap<OrderId, Order>,
    height: u32,
    who: SubaccountId,
    market: u32,
    number: usize,
    f: &Fill,
) -> Result<(), OpFault>
    requires number { number < 2 ^ 32 }
    requires midway { IsMidway height (L.content l.old) (map_of order_id_cmp placed.now) }
    ensures ok { OnOk result (liquidation_fill (map_of order_id_cmp placed.now) who market number f.now
        (L.content l.old) ≡ Ok (L.content l.new)) }
    ensures fault { IfErr result (IsFailureOf (liquidation_fill
        (map_of order_id_cmp placed.now) who market number f.now (L.content l.old))) }
    ensures midway { OnOk result (IsMidway height (L.content l.new) (map_of order_id_cmp placed.now)) }
    ensures marks { KeepsMarks L.stands L.marked l.old l.new }
    ensures beside { L.beside l.new ≡ L.beside l.old }
{
    match close_by(l, placed, height, who, market, f) {
        Ok(()) => Ok(()),
        Err(fault) => Err(fault_at(number, fault)),
    }
}

/// All fills of a liquidation, in order.
fn close_all<L: Branch>(
    l: &mut L,
    placed: &BTreeMap<OrderId, Order>,
    height: u32,
    who: SubaccountId,
    market: u32,
    fills: &[Fill],
) -> Result<(), OpFault>
    requires few { length fills.now ≤ most_fills }
    requires midway { IsMidway height (L.content l.old) (map_of order_id_cmp placed.now) }
    ensures ok { OnOk result (try_each (liquidation_fill (map_of order_id_cmp placed.now) who market) 0 fills.now
        (L.content l.old) ≡ Ok (L.content l.new)) }
    ensures fault { IfErr result (IsFailureOf (try_each (liquidation_fill
        (map_of order_id_cmp placed.now) who market) 0 fills.now (L.content l.old))) }
    ensures midway { OnOk result (IsMidway height (L.content l.new) (map_of order_id_cmp placed.now)) }
    ensures marks { KeepsMarks L.stands L.marked l.old l.new }
    ensures beside { L.beside l.new ≡ L.beside l.old }
{
    for (number, f) in fills.iter().enumerate() {
        close_at(l, placed, height, who, market, number, f)?;
    }
    Ok(())
}

/// Lets makers close the position that an account has in a market, in order ("Liquidate" in docs/RULES.md).
///
/// `Code` with the number of the first bad fill and its code: 28 at fill 0 where there is no fill, then for
/// each fill 4 where there is no order of the maker's id, or the code of `dx_liquidation`. `NoMemory` where
/// there is none. What was filled before a fault stays filled.
#[tactic(auto, unfolding(dx_spec::specs::Operations::liquidation_step))]
pub(crate) fn liquidate_account<L: Branch>(
    l: &mut L,
    placed: &BTreeMap<OrderId, Order>,
    height: u32,
    who: SubaccountId,
    market: u32,
    fills: &[Fill],
) -> Result<(), OpFault>
    requires few { length fills.now ≤ most_fills }
    requires midway { IsMidway height (L.content l.old) (map_of order_id_cmp placed.now) }
    ensures ok { OnOk result (liquidation_step (L.content l.old)
        (map_of order_id_cmp placed.now) who market fills.now ≡ Ok (L.content l.new)) }
    ensures fault { IfErr result (IsFailureOf (liquidation_step (L.content l.old)
        (map_of order_id_cmp placed.now) who market fills.now)) }
    ensures midway { OnOk result (IsMidway height (L.content l.new) (map_of order_id_cmp placed.now)) }
    ensures marks { KeepsMarks L.stands L.marked l.old l.new }
    ensures beside { L.beside l.new ≡ L.beside l.old }
{
    if is_empty(fills) {
        return Err(OpFault::from(OpRefusal::EmptyMatch));
    }
    close_all(l, placed, height, who, market, fills)
}
