//! What leaves a book after a block.

ghost use Rattle.std.specs.Prelude.{◌≡◌, ◌≤◌, true, not, ◌==◌, if◌then◌else◌, nat_le, ◌+◌, filter, IfSome};
ghost use Rattle.dx_spec.specs.State.{is_short_term};
ghost use Rattle.dx_node_spec.specs.Book.{left as left_in};
ghost use Rattle.dx_node_spec.specs.Commits.{holds_as_is as has_as_is, stays as stays_in};
ghost use Rattle.dx_book.specs.Held.{named};
ghost use Rattle.dx_book.specs.declared.key.OrderKey.{OrderKey as Key};

use crate::listing::{holds_as_is, is_listed};
use dx_book::{Book, OrderTest};
use dx_ledger::Ledger;
use dx_trade::filled_of;
use dx_types::{List, Order};

/// Whether an order has not ended: a short-term one may be in the next block, and any other stands as it is.
fn is_open<L: Ledger>(ledger: &L, order: &Order) -> bool
    ensures { result ≡ (if is_short_term order.now.id
        then nat_le ((L.content ledger.now).clock.height + 1) order.now.until
        else has_as_is (L.content ledger.now) order.now) }
{
    if order.id.is_short_term() {
        ledger.clock().height < order.until
    } else {
        holds_as_is(ledger, order)
    }
}

/// Whether something is left of an order.
fn has_left<L: Ledger>(ledger: &L, order: &Order) -> bool
    ensures { result ≡ not (left_in (L.content ledger.now) order.now == 0) }
{
    order.size.saturating_sub(filled_of(ledger, &order.id)) != 0
}

/// Whether an order stays in the book.
fn stays<L: Ledger>(list: &[Order], ledger: &L, order: &Order) -> bool
    ensures { result ≡ stays_in list.now (L.content ledger.now) order.now }
{
    !is_listed(list, order.id) && is_open(ledger, order) && has_left(ledger, order)
}

/// The test of the orders that stay in the book.
#[derive(Drop)]
struct Staying<'a, L: Ledger> {
    /// The list to place again.
    list: &'a [Order],
    /// The state after the block.
    ledger: &'a L,
}

impl<L: Ledger> OrderTest for Staying<'_, L> {
    ghost passes = { λ t. stays_in t.list.now (L.content t.ledger.now) };

    fn passes(&self, order: &Order) -> bool {
        stays(self.list, self.ledger, order)
    }
}

/// Takes out of a book what leaves it after a block ("After a commit" in docs/RULES.md): the orders of the ids on the
/// list to place again, short-term orders that end below the next height, stateful orders that the ledger does not
/// have as they are, and orders with nothing left. The others keep their order and their keys, and no room is lost.
/// It takes no memory.
pub fn purge<L: Ledger>(book: &mut Book, list: &List<Order>, ledger: &L)
    ensures orders { book.new.orders ≡ filter (stays_in list.now (L.content ledger.now)) book.old.orders }
    ensures spare { book.old.spare ≤ book.new.spare }
    ensures keys { (key : Key) → IfSome (named book.old key)
        (λ o. stays_in list.now (L.content ledger.now) o ≡ true → named book.new key ≡ Some o) }
{
    book.retain(&Staying {
        list: list.as_slice(),
        ledger,
    });
}
