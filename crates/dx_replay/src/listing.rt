//! The list to place again.

ghost use Rattle.std.specs.Prelude.{◌≡◌, ◌++◌, List as Items, IfOk, OnOk, slice_get};
ghost use Rattle.std.specs.List.{list_any, filter_map, cons_option};
ghost use Rattle.dx_types.specs.declared.Order.{Order as AnyOrder};
ghost use Rattle.dx_spec.specs.Orders.{is_same_id as is_one_id};
ghost use Rattle.dx_node_spec.specs.Queue.{named_by};
ghost use Rattle.dx_node_spec.specs.Node.{Node};
ghost use Rattle.dx_node_spec.specs.Commits.{holds_as_is as has_as_is, placed_by_message, with_new, triggered_orders, again_after};
ghost use Rattle.dx_replay.specs.Parts.{again_of, newly, new_orders};

use dx_book::Book;
use dx_ledger::Ledger;
use dx_orders::{is_same_id, is_same_order};
use dx_queue::Queue;
use dx_types::{List, Msg, NoMemory, Order, OrderId};
use std::alloc::Global;

/// The result of a good message.
const DONE: u32 = 0;

/// Whether a ledger has a stateful order as it is.
pub(crate) fn holds_as_is<L: Ledger>(ledger: &L, order: &Order) -> bool
    ensures { result ≡ has_as_is (L.content ledger.now) order.now }
{
    match ledger.stateful(&order.id) {
        Some(standing) => is_same_order(order, &standing),
        None => false,
    }
}

/// Whether a list has an order of an id.
pub(crate) fn is_listed(list: &[Order], id: OrderId) -> bool
    ensures { result ≡ list_any (λ p. is_one_id p.id id) list.now }
{
    list.iter().any(|order| is_same_id(order.id, id))
}

/// The order of an id that a queue mentions: a short-term one as it rests, else as it was placed last; any other as
/// the ledger has it.
fn mentioned_order<L: Ledger>(queue: &Queue, book: &Book, after: &L, id: &OrderId) -> Option<Order>
    ensures { result ≡ again_of queue.now book.now.orders (L.content after.now) id.now }
{
    if !id.is_short_term() {
        return after.stateful(id);
    }
    match book.find(id) {
        Some(order) => Some(order),
        None => queue.placed(id),
    }
}

/// Puts an order, if there is one, behind others.
fn add_found(list: &mut List<Order>, found: Option<Order>) -> Result<(), NoMemory>
    ensures { (rest : Items AnyOrder) → OnOk result (list.new ++ rest ≡ list.old ++ cons_option found rest) }
{
    match found {
        Some(order) => list.push(order),
        None => Ok(()),
    }
}

/// The orders that a queue mentions, in the order of first mention.
fn mentioned_orders<L: Ledger>(
    alloc: Global,
    queue: &Queue,
    book: &Book,
    after: &L,
) -> Result<List<Order>, NoMemory>
    ensures { IfOk result (λ list. list
        ≡ filter_map (again_of queue.now book.now.orders (L.content after.now)) (named_by queue.now)) }
{
    let mut list = List::new(alloc);
    for number in 0..queue.named_count() {
        let id = queue.named(number).unwrap();
        add_found(&mut list, mentioned_order(queue, book, after, &id))?;
    }
    Ok(list)
}

/// The order that a message let stand at once, if its result is good.
fn placed_order(msg: &Msg, code: u32) -> Option<Order>
    ensures { result ≡ placed_by_message (msg.now, code) }
{
    if code != DONE {
        return None;
    }
    match msg {
        Msg::PlaceStateful(order) => Some(*order),
        Msg::Deposit { .. }
        | Msg::Withdraw { .. }
        | Msg::Transfer { .. }
        | Msg::CancelStateful(_)
        | Msg::PlaceConditional { .. } => None,
    }
}

/// The same, if the ledger has the order as it is.
fn new_order<L: Ledger>(after: &L, msg: &Msg, code: u32) -> Option<Order>
    ensures { result ≡ newly (L.content after.now) msg.now code }
{
    let Some(order) = placed_order(msg, code) else {
        return None;
    };
    if holds_as_is(after, &order) {
        Some(order)
    } else {
        None
    }
}

/// Puts an order, if there is one, behind those of a list that does not name its id.
fn add_new(list: &mut List<Order>, found: Option<Order>) -> Result<(), NoMemory>
    ensures { (rest : Items AnyOrder)
        → OnOk result (with_new list.new rest ≡ with_new list.old (cons_option found rest)) }
{
    let Some(order) = found else {
        return Ok(());
    };
    if is_listed(list.as_slice(), order.id) {
        return Ok(());
    }
    list.push(order)
}

/// The result of a number, if there is one.
fn result_at(results: &[u32], number: usize) -> Option<u32>
    ensures { result ≡ slice_get results.now number }
{
    results.get(number).copied()
}

/// Puts the orders that good messages placed behind a list that does not name them. A message without a result is
/// not good.
fn add_placed<L: Ledger>(
    after: &L,
    list: &mut List<Order>,
    msgs: &[Msg],
    results: &[u32],
) -> Result<(), NoMemory>
    ensures { OnOk result (list.new ≡ with_new list.old (new_orders (L.content after.now) msgs.now results.now)) }
{
    for (number, msg) in msgs.iter().enumerate() {
        let Some(code) = result_at(results, number) else {
            return Ok(());
        };
        add_new(list, new_order(after, msg, code))?;
    }
    Ok(())
}

/// Puts the orders that were triggered, as the ledger has them, behind a list that does not name them.
fn add_triggered<L: Ledger>(
    after: &L,
    list: &mut List<Order>,
    triggered: &[OrderId],
) -> Result<(), NoMemory>
    ensures { OnOk result (list.new ≡ with_new list.old (triggered_orders (L.content after.now) triggered.now)) }
{
    for id in triggered {
        add_new(list, after.stateful(id))?;
    }
    Ok(())
}

/// The orders that a node places again after a block ("After a commit" in docs/RULES.md), in their order, with at most
/// one of each id.
///
/// First come the orders whose ids the node's operations mention, in the order of first mention: a short-term one as
/// it rests, else as it was placed last, and any other as the ledger after the block has it. An id of neither adds
/// nothing. Behind them come the orders that the block's good messages placed, in order, where the ledger has that
/// very order and the list does not name its id, and then the orders of `triggered`, in order, as the ledger has them,
/// where the list does not name them. `results` are the results of the messages by place; a message without a result
/// is not good. `triggered` are the ids of the orders that the block triggered.
///
/// `NoMemory` where there is none for the list.
pub fn again<L: Ledger>(
    alloc: Global,
    queue: &Queue,
    book: &Book,
    after: &L,
    msgs: &List<Msg>,
    results: &List<u32>,
    triggered: &List<OrderId>,
) -> Result<List<Order>, NoMemory>
    ensures { IfOk result (λ list. (p : Node) → p.queue ≡ queue.now → p.book ≡ book.now.orders
        → list ≡ again_after p (L.content after.now) msgs.now results.now triggered.now) }
{
    let mut list = mentioned_orders(alloc, queue, book, after)?;
    add_placed(after, &mut list, msgs.as_slice(), results.as_slice())?;
    add_triggered(after, &mut list, triggered.as_slice())?;
    Ok(list)
}
