//! Matches of a block: the fills of a taker, in order.

ghost use Rattle.std.specs.Prelude.{◌≡◌, ◌<◌, ◌≤◌, ◌^◌, length, IfErr, OnOk};
ghost use Rattle.dx_types.specs.Keys.{order_id_cmp};
ghost use Rattle.dx_maps.specs.Tables.{map_of};
ghost use Rattle.dx_spec.specs.Step.{try_each};
ghost use Rattle.dx_spec.specs.Blocks.{most_fills};
ghost use Rattle.dx_spec.specs.Operations.{match_fill, match_step};
ghost use Rattle.dx_ledger.specs.Marks.{KeepsMarks};
ghost use Rattle.dx_accounts.specs.Faults.{IsFaultOf};
ghost use Rattle.dx_trade.specs.Conditions.{IsTradable};
ghost use Rattle.dx_operations.specs.Refusals.{IsFailureOf};
ghost use Rattle.dx_operations.specs.Midway.{IsMidway};
ghost use Rattle.dx_operations.specs.Stages.{fill_by as fill_of_maker};

use crate::numbers::{fault_at, is_empty};
use crate::orders::order_of;
use crate::refusals::OpRefusal;
use dx_fill::fill;
use dx_ledger::{Branch, OpFault};
use dx_orders::is_post_only;
use dx_types::{Fill, Order, OrderId};
use std::collections::BTreeMap;

/// Fills a taker against the order of a maker's id. `Code` with 4 where there is none, or with that of the
/// fill's first test that fails.
fn fill_by<L: Branch>(
    l: &mut L,
    placed: &BTreeMap<OrderId, Order>,
    height: u32,
    taker: &Order,
    f: &Fill,
) -> Result<(), OpFault>
    requires midway { IsMidway height (L.content l.old) (map_of order_id_cmp placed.now) }
    requires taker { IsTradable (L.content l.old) taker.now }
    ensures ok { OnOk result (fill_of_maker (L.content l.old) (map_of order_id_cmp placed.now) taker.now f.now
        ≡ Ok (L.content l.new)) }
    ensures code { IfErr result (IsFaultOf (fill_of_maker (L.content l.old)
        (map_of order_id_cmp placed.now) taker.now f.now)) }
    ensures midway { OnOk result (IsMidway height (L.content l.new) (map_of order_id_cmp placed.now)) }
    ensures taker { OnOk result (IsTradable (L.content l.new) taker.now) }
    ensures marks { KeepsMarks L.stands L.marked l.old l.new }
    ensures beside { L.beside l.new ≡ L.beside l.old }
{
    let Some(maker) = order_of(l, placed, height, f.maker) else {
        return Err(OpFault::from(OpRefusal::UnknownMaker));
    };
    fill(l, taker, &maker, f.amount)
}

/// The fill of a number in a match.
#[tactic(auto, unfolding(dx_spec::specs::Operations::match_fill))]
fn fill_at<L: Branch>(
    l: &mut L,
    placed: &BTreeMap<OrderId, Order>,
    height: u32,
    taker: &Order,
    number: usize,
    f: &Fill,
) -> Result<(), OpFault>
    requires number { number < 2 ^ 32 }
    requires midway { IsMidway height (L.content l.old) (map_of order_id_cmp placed.now) }
    requires taker { IsTradable (L.content l.old) taker.now }
    ensures ok { OnOk result (match_fill (map_of order_id_cmp placed.now) taker.now number f.now (L.content l.old)
        ≡ Ok (L.content l.new)) }
    ensures fault { IfErr result (IsFailureOf (match_fill (map_of order_id_cmp placed.now) taker.now number f.now
        (L.content l.old))) }
    ensures midway { OnOk result (IsMidway height (L.content l.new) (map_of order_id_cmp placed.now)) }
    ensures taker { OnOk result (IsTradable (L.content l.new) taker.now) }
    ensures marks { KeepsMarks L.stands L.marked l.old l.new }
    ensures beside { L.beside l.new ≡ L.beside l.old }
{
    match fill_by(l, placed, height, taker, f) {
        Ok(()) => Ok(()),
        Err(fault) => Err(fault_at(number, fault)),
    }
}

/// All fills of a taker, in order.
fn fill_all<L: Branch>(
    l: &mut L,
    placed: &BTreeMap<OrderId, Order>,
    height: u32,
    taker: &Order,
    fills: &[Fill],
) -> Result<(), OpFault>
    requires few { length fills.now ≤ most_fills }
    requires midway { IsMidway height (L.content l.old) (map_of order_id_cmp placed.now) }
    requires taker { IsTradable (L.content l.old) taker.now }
    ensures ok { OnOk result (try_each (match_fill (map_of order_id_cmp placed.now) taker.now) 0 fills.now
        (L.content l.old) ≡ Ok (L.content l.new)) }
    ensures fault { IfErr result (IsFailureOf (try_each (match_fill
        (map_of order_id_cmp placed.now) taker.now) 0 fills.now (L.content l.old))) }
    ensures midway { OnOk result (IsMidway height (L.content l.new) (map_of order_id_cmp placed.now)) }
    ensures marks { KeepsMarks L.stands L.marked l.old l.new }
    ensures beside { L.beside l.new ≡ L.beside l.old }
{
    for (number, f) in fills.iter().enumerate() {
        fill_at(l, placed, height, taker, number, f)?;
    }
    Ok(())
}

/// Fills the taker of an id against makers, in order ("Match" in docs/RULES.md).
///
/// `Code` with the number of the first bad fill and its code, in this order: 28 where there is no fill, 3
/// where there is no order of the taker's id, 29 where the taker only rests, each at fill 0, then for each
/// fill 4 where there is no order of the maker's id, or the code of `dx_fill`. `NoMemory` where there is none.
/// What was filled before a fault stays filled.
#[tactic(auto, unfolding(dx_spec::specs::Operations::match_step))]
pub(crate) fn match_orders<L: Branch>(
    l: &mut L,
    placed: &BTreeMap<OrderId, Order>,
    height: u32,
    taker: OrderId,
    fills: &[Fill],
) -> Result<(), OpFault>
    requires few { length fills.now ≤ most_fills }
    requires midway { IsMidway height (L.content l.old) (map_of order_id_cmp placed.now) }
    ensures ok { OnOk result (match_step (L.content l.old) (map_of order_id_cmp placed.now) taker fills.now
        ≡ Ok (L.content l.new)) }
    ensures fault { IfErr result (IsFailureOf (match_step (L.content l.old)
        (map_of order_id_cmp placed.now) taker fills.now)) }
    ensures midway { OnOk result (IsMidway height (L.content l.new) (map_of order_id_cmp placed.now)) }
    ensures marks { KeepsMarks L.stands L.marked l.old l.new }
    ensures beside { L.beside l.new ≡ L.beside l.old }
{
    if is_empty(fills) {
        return Err(OpFault::from(OpRefusal::EmptyMatch));
    }
    let Some(order) = order_of(l, placed, height, taker) else {
        return Err(OpFault::from(OpRefusal::UnknownTaker));
    };
    if is_post_only(order.kind) {
        return Err(OpFault::from(OpRefusal::BadRole));
    }
    fill_all(l, placed, height, &order, fills)
}
