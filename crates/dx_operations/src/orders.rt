//! The order of an id, between the operations of a block.

ghost use Rattle.std.specs.Prelude.{◌≡◌, IfSome};
ghost use Rattle.dx_types.specs.Keys.{order_id_cmp};
ghost use Rattle.dx_maps.specs.Tables.{map_of};
ghost use Rattle.dx_spec.specs.Operations.{order_of as order_in};
ghost use Rattle.dx_trade.specs.Conditions.{IsTradable};
ghost use Rattle.dx_operations.specs.Midway.{IsMidway};

use dx_ledger::Ledger;
use dx_maps::get_copy;
use dx_types::{Order, OrderId};
use std::collections::BTreeMap;

/// The order of an id: a short-term one as the block has placed it, any other as it stands in the state
/// ("Order of an id" in docs/RULES.md).
fn find_order<L: Ledger>(l: &L, placed: &BTreeMap<OrderId, Order>, id: OrderId) -> Option<Order>
    ensures { result ≡ order_in (L.content l.now) (map_of order_id_cmp placed.now) id }
{
    if id.is_short_term() {
        get_copy(placed, id)
    } else {
        l.stateful(&id)
    }
}

/// The order of an id, between the operations of the block of a height, where each order that is found may be
/// traded.
#[tactic(auto, using(crate::proofs::Standing::found_tradable))]
pub(crate) fn order_of<L: Ledger>(
    l: &L,
    placed: &BTreeMap<OrderId, Order>,
    height: u32,
    id: OrderId,
) -> Option<Order>
    requires { IsMidway height (L.content l.now) (map_of order_id_cmp placed.now) }
    ensures order { result ≡ order_in (L.content l.now) (map_of order_id_cmp placed.now) id }
    ensures tradable { IfSome result (IsTradable (L.content l.now)) }
{
    find_order(l, placed, id)
}
