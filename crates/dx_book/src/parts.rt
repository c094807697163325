//! The parts of a book, and an order put in or taken out.

ghost use Rattle.std.specs.Prelude.{ℕ, ◌≡◌, ◌+◌, ◌≤◌, [], ◌∷◌, ◌++◌, not, ◌==◌, None, Some, IsSome, OnOk, T as Holds, length, filter, option_map, vec_capacity, if◌then◌else◌};
ghost use Rattle.std.specs.Ordering.{eq_by_cmp};
ghost use Rattle.std.specs.FinMap.Entries.{is_sorted, find as row_of};
ghost use Rattle.dx_spec.specs.Orders.{is_same_id as is_one_id};
ghost use Rattle.dx_node_spec.specs.Book.{resting};
ghost use Rattle.dx_book.specs.Chains.{ends_without as ends_less};
ghost use Rattle.dx_book.specs.Held.{item_at};
ghost use Rattle.dx_book.specs.Standing.{items_in, orders_in, IsBook, HasRoom, IsRoomier};

use crate::arrivals::{forget, later};
use crate::ends::{Ends, ends_put, ends_without, last_of};
use crate::linking::{link_in, link_out};
use crate::names::{Expiry, Level, Name, expiry_of, level_of};
use crate::table::{get, put, take_out};
use dx_arena::{Arena, Links, Steps};
use dx_types::{NoMemory, Order, OrderId, SubaccountId};
use std::alloc::Global;
use std::sync::ledger::Ledger;

/// The nodes, and the tables by which they are found.
#[derive(Debug, Drop)]
pub(crate) struct Parts {
    pub(crate) arena: Arena,
    /// The keys of all orders, the earliest first.
    pub(crate) arrivals: Vec<usize>,
    /// The number of arrival of each key. No order that came later has a lower one.
    pub(crate) numbers: Vec<(usize, u64)>,
    /// The number of the next arrival.
    pub(crate) next: u64,
    /// The key of each id.
    pub(crate) ids: Vec<(OrderId, usize)>,
    /// The ends of each chain.
    pub(crate) levels: Vec<(Level, Ends)>,
    pub(crate) accounts: Vec<(SubaccountId, Ends)>,
    pub(crate) expiries: Vec<(Expiry, Ends)>,
}

/// Puts an order behind all others, in room that is made and where its id is not held, and answers its
/// key. At most three steps, and no memory.
pub(crate) fn put_in<L: Ledger>(parts: &mut Parts, order: &Order, steps: &mut Steps<L>) -> usize
    requires book { IsBook parts.old }
    requires room { HasRoom 1 parts.old }
    requires absent { resting (orders_in parts.old) order.now.id ≡ None }
    ensures book { IsBook parts.new }
    ensures items { items_in parts.new
        ≡ items_in parts.old ++ record { key = result; order = order.now } ∷ [] }
    ensures room { (spare : ℕ) → HasRoom (spare + 1) parts.old → HasRoom spare parts.new }
    ensures steps { steps.new ≤ steps.old + 3 }
{
    let level = get(parts.levels.as_slice(), level_of(order));
    let account = get(parts.accounts.as_slice(), order.id.who);
    let expiry = get(parts.expiries.as_slice(), expiry_of(order));
    let key = link_in(
        &mut parts.arena,
        order,
        last_of(level),
        last_of(account),
        last_of(expiry),
        steps,
    );
    put(&mut parts.levels, level_of(order), ends_put(level, key));
    put(&mut parts.accounts, order.id.who, ends_put(account, key));
    put(&mut parts.expiries, expiry_of(order), ends_put(expiry, key));
    put(&mut parts.ids, order.id, key);
    put(&mut parts.numbers, key, parts.next);
    parts.next = later(parts.next);
    parts.arrivals.push_reserved(key);
    key
}

/// Takes a key with these links out of the ends of its chain.
fn shorten<N: Name>(rows: &mut Vec<(N, Ends)>, name: N, links: Links)
    requires { Holds (is_sorted N.order rows.old.items) }
    ensures sorted { Holds (is_sorted N.order rows.new.items) }
    ensures rows { (n : N) → row_of N.order n rows.new.items ≡ (if eq_by_cmp N.order n name
        then ends_less (row_of N.order name rows.old.items) links else row_of N.order n rows.old.items) }
    ensures length { length rows.new.items ≤ length rows.old.items }
    ensures capacity { vec_capacity rows.new ≡ vec_capacity rows.old }
{
    match ends_without(get(rows.as_slice(), name), links) {
        Some(ends) => put(rows, name, ends),
        None => take_out(rows, name),
    }
}

/// Takes the order of a held key out, and answers it. At most six steps, and no memory.
pub(crate) fn take<L: Ledger>(parts: &mut Parts, key: usize, steps: &mut Steps<L>) -> Order
    requires book { IsBook parts.old }
    requires held { IsSome (item_at key (items_in parts.old)) }
    ensures order { option_map (λ x. x.order) (item_at key (items_in parts.old)) ≡ Some result }
    ensures book { IsBook parts.new }
    ensures items { items_in parts.new ≡ filter (λ x. not (x.key == key)) (items_in parts.old) }
    ensures room { (spare : ℕ) → HasRoom spare parts.old → HasRoom spare parts.new }
    ensures steps { steps.new ≤ steps.old + 6 }
{
    let node = link_out(&mut parts.arena, key, steps);
    shorten(&mut parts.levels, level_of(&node.order), node.level);
    shorten(&mut parts.accounts, node.order.id.who, node.account);
    shorten(&mut parts.expiries, expiry_of(&node.order), node.expiry);
    take_out(&mut parts.ids, node.order.id);
    forget(&mut parts.arrivals, &mut parts.numbers, key);
    node.order
}

/// Takes the order of an id out, and answers it, if it is held. At most six steps, and no memory.
pub(crate) fn take_id<L: Ledger>(
    parts: &mut Parts,
    id: &OrderId,
    steps: &mut Steps<L>,
) -> Option<Order>
    requires { IsBook parts.old }
    ensures removed { result ≡ resting (orders_in parts.old) id.now }
    ensures book { IsBook parts.new }
    ensures items { items_in parts.new ≡ filter (λ x. not (is_one_id x.order.id id.now)) (items_in parts.old) }
    ensures room { (spare : ℕ) → HasRoom spare parts.old → HasRoom spare parts.new }
    ensures steps { steps.new ≤ steps.old + 6 }
{
    match get(parts.ids.as_slice(), *id) {
        Some(key) => Some(take(parts, key, steps)),
        None => None,
    }
}

/// Makes room for one row at least.
fn reserve_row<T>(rows: &mut Vec<T>) -> Result<(), NoMemory>
    ensures rows { rows.new.items ≡ rows.old.items }
    ensures capacity { vec_capacity rows.old ≤ vec_capacity rows.new }
    ensures room { OnOk result (1 + length rows.new.items ≤ vec_capacity rows.new) }
{
    match rows.reserve(1) {
        Ok(()) => Ok(()),
        Err(_) => Err(NoMemory),
    }
}

/// Makes room for one order at least in each part. The orders stay as they are, whatever the answer.
pub(crate) fn make_room(parts: &mut Parts) -> Result<(), NoMemory>
    ensures same { IsRoomier parts.old parts.new }
    ensures room { OnOk result (HasRoom 1 parts.new) }
{
    parts.arena.reserve()?;
    reserve_row(&mut parts.arrivals)?;
    reserve_row(&mut parts.numbers)?;
    reserve_row(&mut parts.ids)?;
    reserve_row(&mut parts.levels)?;
    reserve_row(&mut parts.accounts)?;
    reserve_row(&mut parts.expiries)?;
    Ok(())
}

/// Parts without orders. It takes no memory.
pub(crate) fn no_parts(alloc: Global) -> Parts
    ensures book { IsBook result }
    ensures items { items_in result ≡ [] }
    ensures room { HasRoom 0 result }
{
    Parts {
        arena: Arena::new(alloc),
        arrivals: Vec::new(alloc),
        numbers: Vec::new(alloc),
        next: 0,
        ids: Vec::new(alloc),
        levels: Vec::new(alloc),
        accounts: Vec::new(alloc),
        expiries: Vec::new(alloc),
    }
}
