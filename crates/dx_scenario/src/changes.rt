//! Reads the lines of a feed, and writes them.

ghost use Rattle.std.specs.Prelude.{◌≡◌, ◌≤◌, IfOk, string_bytes};
ghost use Rattle.serde_json.specs.View.{view};
ghost use Rattle.dx_scenario.specs.Parts.{Finds, Reads};
ghost use Rattle.dx_scenario.specs.Changes.{last_node, change_named, change_word, clear_in, gone_in, left_in, add_in, change_behind, change_in, change_of, id_data, order_data, change_data, change_text, HasIdWidths, HasOrderWidths, HasWidths, IsReadAs, ChangesAreRead};
ghost use Rattle.dx_spec.specs.Orders.{byte_of_kind};

use crate::fault::LineFault;
use crate::names::order_id_part;
use crate::orders::order_part;
use crate::parts::{closed, u32_within, u64_part};
use crate::value::value_of;
use dx_feed::Change;
use dx_types::{Kind, Order, OrderId, Shown};
use serde_json::{Value, json};
use std::alloc::{AllocError, Global};

/// The last node that a feed may be of.
const LAST_NODE: u32 = 15;

/// The words of a feed.
#[derive(Clone, Copy, Debug, PartialEq, Eq)]
pub enum ChangeWord {
    /// The list of a node is empty now.
    Clear,
    /// An order has gone.
    Gone,
    /// Another amount is left of an order.
    Left,
    /// An order came.
    Add,
}

/// The word of a text, if it is one.
fn change_named(text: &str) -> Option<ChangeWord>
    ensures { result ≡ change_named text.now }
{
    if text == "clear" {
        return Some(ChangeWord::Clear);
    }
    if text == "gone" {
        return Some(ChangeWord::Gone);
    }
    if text == "left" {
        return Some(ChangeWord::Left);
    }
    if text == "add" {
        return Some(ChangeWord::Add);
    }
    None
}

/// The word of a line, its first element.
fn change_word(line: &Value) -> Result<ChangeWord, LineFault>
    ensures { Finds result (change_word (view line.now)) }
{
    line.get(0)
        .and_then(Value::as_str)
        .and_then(change_named)
        .ok_or(LineFault::Bad { field: 0 })
}

#[tactic(auto, unfolding(crate::specs::Changes::clear_in))]
fn clear_in(line: &Value) -> Result<Change, LineFault>
    ensures { Finds result (clear_in (view line.now)) }
{
    closed(line, 0, 2)?;
    Ok(Change::Clear)
}

#[tactic(auto, unfolding(crate::specs::Changes::gone_in))]
fn gone_in(line: &Value) -> Result<Change, LineFault>
    ensures { Finds result (gone_in (view line.now)) }
{
    let id = order_id_part(line, 0, 2)?;
    closed(line, 0, 3)?;
    Ok(Change::Gone(id))
}

#[tactic(auto, unfolding(crate::specs::Changes::left_in))]
fn left_in(line: &Value) -> Result<Change, LineFault>
    ensures { Finds result (left_in (view line.now)) }
{
    let id = order_id_part(line, 0, 2)?;
    let left = u64_part(line, 0, 3)?;
    closed(line, 0, 4)?;
    Ok(Change::Left { id, left })
}

#[tactic(auto, unfolding(crate::specs::Changes::add_in))]
fn add_in(line: &Value) -> Result<Change, LineFault>
    ensures { Finds result (add_in (view line.now)) }
{
    let order = order_part(line, 0, 2)?;
    let left = u64_part(line, 0, 3)?;
    closed(line, 0, 4)?;
    Ok(Change::Add(Shown { order, left }))
}

#[tactic(auto, unfolding(crate::specs::Changes::change_behind))]
fn change_behind(line: &Value, word: ChangeWord) -> Result<Change, LineFault>
    ensures { Finds result (change_behind (view line.now) word) }
{
    match word {
        ChangeWord::Clear => clear_in(line),
        ChangeWord::Gone => gone_in(line),
        ChangeWord::Left => left_in(line),
        ChangeWord::Add => add_in(line),
    }
}

#[tactic(auto, unfolding(crate::specs::Changes::change_in))]
fn change_in(line: &Value) -> Result<(u32, Change), LineFault>
    ensures read { Finds result (change_in (view line.now)) }
    ensures node { IfOk result (λ told. told.0 ≤ last_node) }
{
    let word = change_word(line)?;
    let node = u32_within(line, 0, 1, 0, LAST_NODE)?;
    let change = change_behind(line, word)?;
    Ok((node, change))
}

/// The node, from 0 to 15, and the change of a line of a feed, which has no newline. Any JSON of one of the four forms
/// is read, whatever blanks it has.
///
/// # Errors
///
/// `Bad` with the field 0 exactly where the line has none of the four forms ("Feeds" in docs/FORMAT.md), and `NoMemory`
/// where there was no memory to read it.
pub fn read_change(alloc: Global, line: &[u8]) -> Result<(u32, Change), LineFault>
    ensures read { Reads result (change_of line.now) }
    ensures node { IfOk result (λ told. told.0 ≤ last_node) }
{
    let value = value_of(alloc, line)?;
    change_in(&value)
}

/// The number of a kind.
fn number_of(kind: Kind) -> u32
    ensures { result ≡ byte_of_kind kind }
{
    match kind {
        Kind::Gtc => 0,
        Kind::Ioc => 1,
        Kind::PostOnly => 2,
        Kind::ReduceIoc => 3,
    }
}

/// The number is of its type.
fn has_width(number: &u64)
    ensures { number.now ≤ 18_446_744_073_709_551_615 }
{
    let _number = *number;
}

/// The numbers of an id are of their types.
fn has_id_widths(id: &OrderId)
    ensures { HasIdWidths id.now }
{
    let _owner = id.who.owner;
    let _number = id.who.number;
    let _client = id.client;
    let _flags = id.flags;
    let _market = id.market;
}

/// The numbers of an order are of their types.
fn has_order_widths(o: &Order)
    ensures { HasOrderWidths o.now }
{
    has_id_widths(&o.id);
    let _size = o.size;
    let _subticks = o.subticks;
    let _until = o.until;
}

/// The numbers of a change are of their types.
fn has_widths(change: &Change)
    ensures { HasWidths change.now }
{
    match change {
        Change::Clear => {}
        Change::Gone(id) => has_id_widths(id),
        Change::Left { id, left } => {
            has_id_widths(id);
            has_width(left);
        }
        Change::Add(shown) => {
            has_order_widths(&shown.order);
            has_width(&shown.left);
        }
    }
}

/// An order's id as a value.
fn id_value(alloc: Global, id: OrderId) -> Result<Value, AllocError>
    ensures { IfOk result (λ v. view v ≡ id_data id) }
{
    json!(in alloc; [id.who.owner, id.who.number, id.client, id.flags, id.market])
}

/// An order as a value.
fn order_value(alloc: Global, o: &Order) -> Result<Value, AllocError>
    ensures { IfOk result (λ v. view v ≡ order_data o.now) }
{
    let id = o.id;
    let side = u32::from(o.buy);
    let kind = number_of(o.kind);
    json!(in alloc; [
        id.who.owner, id.who.number, id.client, id.flags, id.market,
        side, o.size, o.subticks, o.until, kind
    ])
}

/// The value of a line.
fn change_value(alloc: Global, node: u32, change: &Change) -> Result<Value, AllocError>
    ensures { IfOk result (λ v. view v ≡ change_data node change.now) }
{
    match change {
        Change::Clear => json!(in alloc; ["clear", node]),
        Change::Gone(id) => {
            let id = id_value(alloc, *id)?;
            json!(in alloc; ["gone", node, id])
        }
        Change::Left { id, left } => {
            let id = id_value(alloc, *id)?;
            json!(in alloc; ["left", node, id, *left])
        }
        Change::Add(shown) => {
            let order = order_value(alloc, &shown.order)?;
            json!(in alloc; ["add", node, order, shown.left])
        }
    }
}

/// The line of a change of a node, without its newline: compact JSON. Read again, it is that change of that node.
pub fn change_text(alloc: Global, node: u32, change: &Change) -> Result<String, AllocError>
    ensures text { IfOk result (λ line. string_bytes line ≡ change_text node change.now) }
    ensures reads_back { IfOk result (λ line. IsReadAs node change.now (string_bytes line)) }
{
    has_widths(change);
    let value = change_value(alloc, node, change)?;
    value.to_string(alloc)
}

/// The line of a change of one of the nodes 0 to 15, without its newline, is read as that change of that node.
pub fn changes_are_read()
    ensures { ChangesAreRead }
{}
