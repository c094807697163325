//! Orders that a block places.

ghost use Rattle.std.specs.Prelude.{◌≡◌, true, false, not, IfErr, OnOk, OnErr};
ghost use Rattle.std.specs.Option.{option_map_or};
ghost use Rattle.std.specs.FinMap.{get as order_at, insert as with_order};
ghost use Rattle.dx_types.specs.Keys.{order_id_cmp};
ghost use Rattle.dx_maps.specs.Tables.{map_of};
ghost use Rattle.dx_spec.specs.State.{is_kept as kept_in};
ghost use Rattle.dx_spec.specs.Orders.{newer as is_newer};
ghost use Rattle.dx_spec.specs.Operations.{is_good_order as good_order, place_step};
ghost use Rattle.dx_accounts.specs.Faults.{IsFaultOf};
ghost use Rattle.dx_operations.specs.Refusals.{code_of};
ghost use Rattle.dx_operations.specs.Midway.{IsMidway};

use crate::refusals::OpRefusal;
use dx_hash::newer;
use dx_ledger::{Ledger, OpFault};
use dx_maps::{get_copy, insert};
use dx_orders::check_order;
use dx_trade::filled_of;
use dx_types::{NoMemory, Order, OrderId, SubaccountId};
use std::collections::BTreeMap;

/// Whether an account is kept.
fn is_kept<L: Ledger>(l: &L, who: SubaccountId) -> bool
    ensures { result ≡ kept_in (L.content l.now) who }
{
    l.account(who).is_some()
}

/// Whether an order passes the tests of a short-term order at a height ("Short-term order tests" in
/// docs/RULES.md).
fn is_good_order<L: Ledger>(l: &L, height: u32, o: &Order) -> bool
    ensures { result ≡ good_order (L.content l.now) height o.now }
{
    let known = is_kept(l, o.id.who);
    let filled = filled_of(l, &o.id);
    check_order(l.params(), known, height, filled, o).is_ok()
}

/// Whether an order of the id is placed that the order is not newer than ("Replacement (newer)" in
/// docs/RULES.md).
fn has_as_new(placed: &BTreeMap<OrderId, Order>, o: &Order) -> bool
    ensures { result ≡ option_map_or (λ p. not (is_newer o.now p)) (order_at
        (map_of order_id_cmp placed.now) o.now.id) false }
{
    match get_copy(placed, o.id) {
        Some(p) => !newer(o, &p),
        None => false,
    }
}

/// Tests an order that is to be placed. The refusal is the first that fails: `BadOrder`, or `NotNewer` where
/// an order of its id is placed that is as new.
#[tactic(auto, unfolding(dx_spec::specs::Operations::place_step))]
fn check_placing<L: Ledger>(
    l: &L,
    placed: &BTreeMap<OrderId, Order>,
    height: u32,
    o: &Order,
) -> Result<(), OpRefusal>
    ensures ok { OnOk result (place_step (L.content l.now) (map_of order_id_cmp placed.now) height o.now
        ≡ Ok (with_order (map_of order_id_cmp placed.now) o.now.id o.now)) }
    ensures refused { IfErr result (λ r. place_step (L.content l.now) (map_of order_id_cmp placed.now) height o.now
        ≡ Err (code_of r)) }
    ensures good { OnOk result (good_order (L.content l.now) height o.now ≡ true) }
{
    if !is_good_order(l, height, o) {
        return Err(OpRefusal::BadOrder);
    }
    if has_as_new(placed, o) {
        return Err(OpRefusal::NotNewer);
    }
    Ok(())
}

/// Keeps an order under its id, in the place of one that stands there.
fn keep(placed: &mut BTreeMap<OrderId, Order>, o: &Order) -> Result<(), NoMemory>
    ensures ok { OnOk result (map_of order_id_cmp placed.new
        ≡ with_order (map_of order_id_cmp placed.old) o.now.id o.now) }
    ensures err { OnErr result (map_of order_id_cmp placed.new ≡ map_of order_id_cmp placed.old) }
{
    match insert(placed, o.id, *o) {
        Ok(()) => Ok(()),
        Err(_) => Err(NoMemory),
    }
}

/// Places an order under its id; one that it is newer than makes room for it ("Place" in docs/RULES.md).
///
/// `Code` at fill 0 with 1 where the order fails its tests, 2 where an order of its id is placed that is as
/// new. `NoMemory` where there is none. The placed orders are as before at every refusal.
pub(crate) fn place<L: Ledger>(
    l: &L,
    placed: &mut BTreeMap<OrderId, Order>,
    height: u32,
    o: &Order,
) -> Result<(), OpFault>
    requires { IsMidway height (L.content l.now) (map_of order_id_cmp placed.old) }
    ensures ok { OnOk result (place_step (L.content l.now) (map_of order_id_cmp placed.old) height o.now
        ≡ Ok (map_of order_id_cmp placed.new)) }
    ensures code { IfErr result (IsFaultOf (place_step (L.content l.now)
        (map_of order_id_cmp placed.old) height o.now)) }
    ensures err { OnErr result (map_of order_id_cmp placed.new ≡ map_of order_id_cmp placed.old) }
    ensures midway { OnOk result (IsMidway height (L.content l.now) (map_of order_id_cmp placed.new)) }
{
    check_placing(l, placed, height, o)?;
    keep(placed, o)?;
    Ok(())
}
