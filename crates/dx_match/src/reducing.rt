//! What a reduce-only order can close.

ghost use Rattle.std.specs.Prelude.{◌≡◌, ◌≤◌};
ghost use Rattle.dx_node_spec.specs.Book.{left as left_in};
ghost use Rattle.dx_node_spec.specs.Taking.{amount_to_try as amount_tried, closes_nothing as closes_none, looked_again};
ghost use Rattle.dx_match.specs.Seen.{seen};

use crate::stepping::left;
use crate::taken::Taking;
use dx_ledger::Ledger;
use dx_orders::is_reduce_only;
use dx_trade::closable_by;
use dx_types::Order;

/// How much of a maker an order tries to take: base quantums. It is the lesser of what is left of both, and no more
/// than its account has to close where the order is reduce-only ("Taking" in docs/RULES.md).
pub(crate) fn amount_to_try<L: Ledger>(ledger: &L, order: &Order, maker: &Order) -> u64
    ensures value { result ≡ amount_tried (L.content ledger.now) order.now maker.now }
    ensures most { result ≤ left_in (L.content ledger.now) order.now }
{
    let lesser = left(ledger, order).min(left(ledger, maker));
    if is_reduce_only(order.kind) {
        lesser.min(closable_by(ledger, order))
    } else {
        lesser
    }
}

/// Whether an order is reduce-only and its account has nothing that it can close.
pub(crate) fn closes_nothing<L: Ledger>(ledger: &L, order: &Order) -> bool
    ensures { result ≡ closes_none (L.content ledger.now) order.now }
{
    is_reduce_only(order.kind) && closable_by(ledger, order) == 0
}

/// Looks again at a maker whose fill was tried: where it has something left and a reduce-only order has nothing left
/// to close, the taking is over.
#[tactic(auto, unfolding(dx_node_spec::specs::Taking::looked_again))]
pub(crate) fn look_again<L: Ledger>(ledger: &L, order: &Order, maker: &Order, taking: &mut Taking)
    ensures ok { seen (L.content ledger.now) taking.new
        ≡ looked_again order.now maker.now (seen (L.content ledger.now) taking.old) }
    ensures filled { taking.new.filled ≡ taking.old.filled }
    ensures fills { taking.new.fills ≡ taking.old.fills }
{
    if closes_nothing(ledger, order) && left(ledger, maker) != 0 {
        taking.over = true;
    }
}
