//! What stands behind the word of a line, by the word: the parts of an event in their order.

ghost use Rattle.serde_json.specs.View.{view};
ghost use Rattle.dx_scenario.specs.Parts.{Finds, Reads};
ghost use Rattle.dx_scenario.specs.Behind.{lone_node, node_and_account, node_and_slot, place_event, cancel_event, message_event, feed_event, propose_event, handed_event, show_event, node_and_id, best_event, resume_event};

use crate::blocks::block_in;
use crate::event::Event;
use crate::fault::LineFault;
use crate::messages::msg_part;
use crate::names::{order_id_part, short_term_id_part, subaccount_part};
use crate::orders::order_part;
use crate::parts::{line_ends, line_u32, node_part, slot_part, u64_part};
use dx_types::{OrderId, SubaccountId};
use serde_json::Value;
use std::alloc::Global;

/// What stands behind `audit`, `digest`, `restart` and `snap`: node.
#[tactic(auto, unfolding(crate::specs::Behind::lone_node))]
pub fn lone_node(line: &Value, nodes: u32) -> Result<u32, LineFault>
    ensures { Finds result (lone_node nodes (view line.now)) }
{
    let node = node_part(line, nodes)?;
    line_ends(line, 2)?;
    Ok(node)
}

/// What stands behind `cancelall`, `sweep`, `balance` and `spec`: node and account.
#[tactic(auto, unfolding(crate::specs::Behind::node_and_account))]
pub fn node_and_account(line: &Value, nodes: u32) -> Result<(u32, SubaccountId), LineFault>
    ensures { Finds result (node_and_account nodes (view line.now)) }
{
    let node = node_part(line, nodes)?;
    let who = subaccount_part(line, 2, 2)?;
    line_ends(line, 3)?;
    Ok((node, who))
}

/// What stands behind `check` and `commit`: node and slot.
#[tactic(auto, unfolding(crate::specs::Behind::node_and_slot))]
pub fn node_and_slot(line: &Value, nodes: u32) -> Result<(u32, u32), LineFault>
    ensures { Finds result (node_and_slot nodes (view line.now)) }
{
    let node = node_part(line, nodes)?;
    let slot = slot_part(line, 2)?;
    line_ends(line, 3)?;
    Ok((node, slot))
}

/// What stands behind `place`: node and order.
#[tactic(auto, unfolding(crate::specs::Behind::place_event))]
pub fn place_event(line: &Value, nodes: u32) -> Result<Event, LineFault>
    ensures { Finds result (place_event nodes (view line.now)) }
{
    let node = node_part(line, nodes)?;
    let order = order_part(line, 2, 2)?;
    line_ends(line, 3)?;
    Ok(Event::Place { node, order })
}

/// What stands behind `cancel`: node, a short-term order's id without its flags, and until.
#[tactic(auto, unfolding(crate::specs::Behind::cancel_event))]
pub fn cancel_event(line: &Value, nodes: u32) -> Result<Event, LineFault>
    ensures { Finds result (cancel_event nodes (view line.now)) }
{
    let node = node_part(line, nodes)?;
    let id = short_term_id_part(line, 2, 2)?;
    let until = line_u32(line, 3)?;
    line_ends(line, 4)?;
    Ok(Event::Cancel { node, id, until })
}

/// What stands behind `message`: node and message.
#[tactic(auto, unfolding(crate::specs::Behind::message_event))]
pub fn message_event(line: &Value, nodes: u32) -> Result<Event, LineFault>
    ensures { Finds result (message_event nodes (view line.now)) }
{
    let node = node_part(line, nodes)?;
    let msg = msg_part(line, 2, 2)?;
    line_ends(line, 3)?;
    Ok(Event::Message { node, msg })
}

/// What stands behind `feed`: node, market and price.
#[tactic(auto, unfolding(crate::specs::Behind::feed_event))]
pub fn feed_event(line: &Value, nodes: u32) -> Result<Event, LineFault>
    ensures { Finds result (feed_event nodes (view line.now)) }
{
    let node = node_part(line, nodes)?;
    let market = line_u32(line, 2)?;
    let price = u64_part(line, 3, 3)?;
    line_ends(line, 4)?;
    Ok(Event::Feed {
        node,
        market,
        price,
    })
}

/// What stands behind `propose`: node, slot and time.
#[tactic(auto, unfolding(crate::specs::Behind::propose_event))]
pub fn propose_event(line: &Value, nodes: u32) -> Result<Event, LineFault>
    ensures { Finds result (propose_event nodes (view line.now)) }
{
    let node = node_part(line, nodes)?;
    let slot = slot_part(line, 2)?;
    let time = line_u32(line, 3)?;
    line_ends(line, 4)?;
    Ok(Event::Propose { node, slot, time })
}

/// What stands behind `block`: slot and block.
#[tactic(auto, unfolding(crate::specs::Behind::handed_event))]
pub fn handed_event(alloc: Global, line: &Value) -> Result<Event, LineFault>
    ensures { Reads result (handed_event (view line.now)) }
{
    let slot = slot_part(line, 1)?;
    let block = block_in(alloc, line)?;
    line_ends(line, 8)?;
    Ok(Event::Handed { slot, block })
}

/// What stands behind `show`: slot.
#[tactic(auto, unfolding(crate::specs::Behind::show_event))]
pub fn show_event(line: &Value) -> Result<Event, LineFault>
    ensures { Finds result (show_event (view line.now)) }
{
    let slot = slot_part(line, 1)?;
    line_ends(line, 2)?;
    Ok(Event::Show { slot })
}

/// What stands behind `filled` and `waits`: node and order id.
#[tactic(auto, unfolding(crate::specs::Behind::node_and_id))]
pub fn node_and_id(line: &Value, nodes: u32) -> Result<(u32, OrderId), LineFault>
    ensures { Finds result (node_and_id nodes (view line.now)) }
{
    let node = node_part(line, nodes)?;
    let id = order_id_part(line, 2, 2)?;
    line_ends(line, 3)?;
    Ok((node, id))
}

/// What stands behind `best`: node and market.
#[tactic(auto, unfolding(crate::specs::Behind::best_event))]
pub fn best_event(line: &Value, nodes: u32) -> Result<Event, LineFault>
    ensures { Finds result (best_event nodes (view line.now)) }
{
    let node = node_part(line, nodes)?;
    let market = line_u32(line, 2)?;
    line_ends(line, 3)?;
    Ok(Event::Best { node, market })
}

/// What stands behind `resume`: node and height.
#[tactic(auto, unfolding(crate::specs::Behind::resume_event))]
pub fn resume_event(line: &Value, nodes: u32) -> Result<Event, LineFault>
    ensures { Finds result (resume_event nodes (view line.now)) }
{
    let node = node_part(line, nodes)?;
    let height = line_u32(line, 2)?;
    line_ends(line, 3)?;
    Ok(Event::Resume { node, height })
}
