//! All operations of a block, in order.

ghost use Rattle.std.specs.Prelude.{◌≡◌, ◌+◌, ◌<◌, ◌≤◌, ◌^◌, All, length, IsFalse, OnOk, IfErr};
ghost use Rattle.dx_types.specs.Keys.{order_id_cmp};
ghost use Rattle.dx_maps.specs.Tables.{map_of};
ghost use Rattle.dx_spec.specs.Balance.{Balanced};
ghost use Rattle.dx_spec.specs.Step.{try_each};
ghost use Rattle.dx_spec.specs.Operations.{op_step, op_at, ops_step};
ghost use Rattle.dx_spec.specs.Blocks.{most_fills, most_operations, fills_in, has_too_many_ops};
ghost use Rattle.dx_ledger.specs.Marks.{KeepsMarks};
ghost use Rattle.dx_accounts.specs.Steady.{IsSteady};
ghost use Rattle.dx_operations.specs.Faults.{Refuses};
ghost use Rattle.dx_operations.specs.Refusals.{IsFailureOf, bad_at as bad_of_number};
ghost use Rattle.dx_operations.specs.Midway.{IsMidway};

use crate::delevering::delever_account;
use crate::faults::BlockFault;
use crate::liquidating::liquidate_account;
use crate::matching::match_orders;
use crate::placing::place;
use dx_accounts::remove_order;
use dx_ledger::{Branch, OpFault};
use dx_types::{Bad, Op, Order, OrderId};
use std::alloc::Global;
use std::collections::BTreeMap;

/// The number of the operations among the parts of a block.
const OPERATIONS_PART: u32 = 1;

/// Carries out an operation.
fn apply_operation<L: Branch>(
    l: &mut L,
    placed: &mut BTreeMap<OrderId, Order>,
    height: u32,
    op: &Op,
) -> Result<(), OpFault>
    requires midway { IsMidway height (L.content l.old) (map_of order_id_cmp placed.old) }
    requires few { fills_in op.now ≤ most_fills }
    ensures ok { OnOk result (op_step height op.now
        (record { state = L.content l.old; placed = map_of order_id_cmp placed.old })
        ≡ Ok (record { state = L.content l.new; placed = map_of order_id_cmp placed.new })) }
    ensures fault { IfErr result (IsFailureOf (op_step height op.now
        (record { state = L.content l.old; placed = map_of order_id_cmp placed.old }))) }
    ensures midway { OnOk result (IsMidway height (L.content l.new) (map_of order_id_cmp placed.new)) }
    ensures marks { KeepsMarks L.stands L.marked l.old l.new }
    ensures beside { L.beside l.new ≡ L.beside l.old }
{
    match op {
        Op::Place(o) => place(l, placed, height, o),
        Op::Match { taker, fills } => match_orders(l, placed, height, *taker, fills.as_slice()),
        Op::Liquidate { who, market, fills } => {
            liquidate_account(l, placed, height, *who, *market, fills.as_slice())
        }
        Op::Delever {
            who,
            market,
            offsets,
        } => delever_account(l, *who, *market, offsets.as_slice()),
        Op::Remove(id) => remove_order(l, id),
    }
}

/// The fault of the operation of a number.
fn bad_at(number: usize, fault: OpFault) -> BlockFault
    requires { number < 2 ^ 32 }
    ensures { result ≡ bad_of_number number fault }
{
    match fault {
        OpFault::NoMemory => BlockFault::NoMemory,
        OpFault::Code { fill, code } => BlockFault::Bad(Bad {
            part: OPERATIONS_PART,
            index: number as u32,
            fill,
            code,
        }),
    }
}

/// Carries out the operation of a number.
fn apply_at<L: Branch>(
    l: &mut L,
    placed: &mut BTreeMap<OrderId, Order>,
    height: u32,
    number: usize,
    op: &Op,
) -> Result<(), BlockFault>
    requires midway { IsMidway height (L.content l.old) (map_of order_id_cmp placed.old) }
    requires few { fills_in op.now ≤ most_fills }
    requires number { number < 2 ^ 32 }
    ensures ok { OnOk result (op_at height number op.now
        (record { state = L.content l.old; placed = map_of order_id_cmp placed.old })
        ≡ Ok (record { state = L.content l.new; placed = map_of order_id_cmp placed.new })) }
    ensures bad { IfErr result (λ fault. Refuses fault (op_at height number op.now
        (record { state = L.content l.old; placed = map_of order_id_cmp placed.old }))) }
    ensures midway { OnOk result (IsMidway height (L.content l.new) (map_of order_id_cmp placed.new)) }
    ensures marks { KeepsMarks L.stands L.marked l.old l.new }
    ensures beside { L.beside l.new ≡ L.beside l.old }
{
    match apply_operation(l, placed, height, op) {
        Ok(()) => Ok(()),
        Err(fault) => Err(bad_at(number, fault)),
    }
}

/// Carries out all operations, in order.
fn apply_all<L: Branch>(
    l: &mut L,
    placed: &mut BTreeMap<OrderId, Order>,
    height: u32,
    ops: &[Op],
) -> Result<(), BlockFault>
    requires midway { IsMidway height (L.content l.old) (map_of order_id_cmp placed.old) }
    requires few { length ops.now ≤ most_operations }
    requires short { All (λ op. fills_in op ≤ most_fills) ops.now }
    ensures ok { OnOk result (try_each (op_at height) 0 ops.now
        (record { state = L.content l.old; placed = map_of order_id_cmp placed.old })
        ≡ Ok (record { state = L.content l.new; placed = map_of order_id_cmp placed.new })) }
    ensures bad { IfErr result (λ fault. Refuses fault (try_each (op_at height) 0 ops.now
        (record { state = L.content l.old; placed = map_of order_id_cmp placed.old }))) }
    ensures midway { OnOk result (IsMidway height (L.content l.new) (map_of order_id_cmp placed.new)) }
    ensures marks { KeepsMarks L.stands L.marked l.old l.new }
    ensures beside { L.beside l.new ≡ L.beside l.old }
{
    for (number, op) in ops.iter().enumerate() {
        apply_at(l, placed, height, number, op)?;
    }
    Ok(())
}

/// Carries out the operations of the block of a height, in order: orders are placed and matched, accounts are
/// liquidated and deleveraged, and stateful orders are removed ("Place", "Match", "Liquidate", "Delever" and
/// "Remove" in docs/RULES.md). The height is the ledger's and 1. They are no more than a block may have
/// ([`crate::has_too_many_ops`]), as the test of a block's header says.
///
/// `Bad` with the first bad operation, the number of its fill or offset, and the code; `NoMemory` where there
/// is none. What was carried out before a fault stays done: the caller marks the ledger and rolls it back.
pub fn apply_operations<L: Branch>(
    alloc: Global,
    l: &mut L,
    height: u32,
    ops: &[Op],
) -> Result<(), BlockFault>
    requires steady { IsSteady (L.content l.old) }
    requires next { height ≡ (L.content l.old).clock.height + 1 }
    requires few { IsFalse (has_too_many_ops ops.now) }
    ensures ok { OnOk result (ops_step (L.content l.old) height ops.now ≡ Ok (L.content l.new)) }
    ensures bad { IfErr result (λ fault. Refuses fault (ops_step (L.content l.old) height ops.now)) }
    ensures balanced { OnOk result (Balanced (L.content l.new)) }
    ensures marks { KeepsMarks L.stands L.marked l.old l.new }
    ensures beside { L.beside l.new ≡ L.beside l.old }
{
    let mut placed = BTreeMap::new(alloc);
    apply_all(l, &mut placed, height, ops)
}
