//! The orders of a book, read by their keys.

ghost use Rattle.std.specs.Prelude.{◌≡◌, ◌+◌, ◌<◌, ◌≤◌, length, slice_index, slice_get, Some, IsSome, IfSome, IfOk, find, option_map};
ghost use Rattle.dx_arena.specs.Nodes.{node_at};
ghost use Rattle.dx_spec.specs.State.{is_short_term};
ghost use Rattle.dx_node_spec.specs.Book.{resting};
ghost use Rattle.dx_book.specs.Ways.{next_of, after_of_account as earliest_after};
ghost use Rattle.dx_book.specs.Held.{item_at, item_at_key};
ghost use Rattle.dx_book.specs.Standing.{items_in, orders_in, IsBook};
ghost use Rattle.dx_book.specs.Walking.{of_who, from_key};

use crate::best::best_behind;
use crate::names::level_of;
use crate::parts::Parts;
use crate::table::get;
use dx_arena::{Arena, Node, Steps};
use dx_types::{List, NoMemory, Order, OrderId, SubaccountId};
use std::marker::Brand;
use std::sync::ledger::{Blank, Ledger};

/// The node of a held key, by a counter of its own.
fn look_with<L: Ledger>(arena: &Arena, key: usize, blank: Blank) -> Node
    requires name { blank.name ≡ L.name }
    requires parts { blank.parts ≡ L.parts }
    requires some { blank.parts ≡ 1 }
    requires held { IsSome (node_at arena.now key) }
    ensures { node_at arena.now key ≡ Some result }
{
    let mut steps = Steps::<L>::new(blank);
    *arena.visit(key, &mut steps)
}

/// The node of a held key, whose visit nobody counts.
pub(crate) fn look(arena: &Arena, key: usize) -> Node
    requires { IsSome (node_at arena.now key) }
    ensures { node_at arena.now key ≡ Some result }
{
    look_with::<Brand>(arena, key, Blank::new(1))
}

/// The key at a place among all orders.
pub(crate) fn key_at(parts: &Parts, place: usize) -> usize
    requires { place < length parts.now.arrivals.items }
    ensures { result ≡ slice_index parts.now.arrivals.items place }
{
    parts.arrivals[place]
}

/// The order at a place among all, if there is one.
pub(crate) fn order_at(parts: &Parts, place: usize) -> Option<Order>
    requires { IsBook parts.now }
    ensures { result ≡ slice_get (orders_in parts.now) place }
{
    if place < parts.arrivals.len() {
        return Some(look(&parts.arena, key_at(parts, place)).order);
    }
    None
}

/// The id of the earliest short-term order of an account from a key of its chain on.
pub(crate) fn short_term_from(
    parts: &Parts,
    who: SubaccountId,
    from: Option<usize>,
) -> Option<OrderId>
    requires book { IsBook parts.now }
    requires from { IfSome from (λ key. IsSome (item_at key (of_who who (items_in parts.now)))) }
    ensures { result ≡ option_map (λ x. x.order.id)
        (find (λ x. is_short_term x.order.id) (from_key from (of_who who (items_in parts.now)))) }
{
    let _account = who;
    let mut next = from;
    for _number in 0..parts.arrivals.len() {
        let Some(key) = next else {
            return None;
        };
        let node = look(&parts.arena, key);
        if node.order.id.is_short_term() {
            return Some(node.order.id);
        }
        next = node.account.after;
    }
    None
}

/// The key of the order behind that of a held key, on its side. At most one step.
pub(crate) fn key_behind<L: Ledger>(
    parts: &Parts,
    key: usize,
    steps: &mut Steps<L>,
) -> Option<usize>
    requires book { IsBook parts.now }
    requires held { IsSome (item_at key (items_in parts.now)) }
    ensures held { IfSome result (λ k. IsSome (item_at k (items_in parts.now))) }
    ensures order { IfSome (item_at key (items_in parts.now)) (λ x.
        option_map (λ y. y.order) (item_at_key result (items_in parts.now))
        ≡ next_of (orders_in parts.now) x.order) }
    ensures steps { steps.new ≤ steps.old + 1 }
{
    let node = *parts.arena.visit(key, steps);
    if let Some(after) = node.level.after {
        return Some(after);
    }
    best_behind(parts.levels.as_slice(), level_of(&node.order))
}

/// The order of an id, if it is held.
pub(crate) fn order_of(parts: &Parts, id: &OrderId) -> Option<Order>
    requires { IsBook parts.now }
    ensures { result ≡ resting (orders_in parts.now) id.now }
{
    match get(parts.ids.as_slice(), *id) {
        Some(key) => Some(look(&parts.arena, key).order),
        None => None,
    }
}

/// The id of the next short-term order of the account of an id, where its order is held.
pub(crate) fn after_of(parts: &Parts, id: &OrderId) -> Option<OrderId>
    requires { IsBook parts.now }
    ensures { result ≡ earliest_after (orders_in parts.now) id.now }
{
    match get(parts.ids.as_slice(), *id) {
        Some(key) => {
            let node = look(&parts.arena, key);
            short_term_from(parts, id.who, node.account.after)
        }
        None => None,
    }
}

/// The orders in order of arrival.
pub(crate) fn list_of(parts: &Parts) -> Result<List<Order>, NoMemory>
    requires { IsBook parts.now }
    ensures { IfOk result (λ list. list ≡ orders_in parts.now) }
{
    let mut list = List::new(*parts.arrivals.allocator());
    for number in 0..parts.arrivals.len() {
        let key = key_at(parts, number);
        let node = look(&parts.arena, key);
        list.push(node.order)?;
    }
    Ok(list)
}

/// The id of an order, if there is one.
pub(crate) fn id_of(order: Option<Order>) -> Option<OrderId>
    ensures { result ≡ option_map (λ o. o.id) order }
{
    order.map(|order| order.id)
}
