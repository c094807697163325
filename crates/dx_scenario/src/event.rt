//! The event of a line: its word says which, and its parts are read from the left.

ghost use Rattle.std.specs.Prelude.{◌≡◌, ◌<◌, IfOk};
ghost use Rattle.serde_json.specs.View.{view};
ghost use Rattle.dx_scenario.specs.Parts.{Reads};
ghost use Rattle.dx_scenario.specs.Events.{word_of, event_behind, event_of, IsOf};

use crate::behind::{
    best_event, cancel_event, feed_event, handed_event, lone_node, message_event, node_and_account,
    node_and_id, node_and_slot, place_event, propose_event, resume_event, show_event,
};
use crate::fault::LineFault;
use crate::parts::word_part;
use crate::value::value_of;
use dx_print::Word;
use dx_types::{Block, Msg, Order, OrderId, SubaccountId};
use serde_json::Value;
use std::alloc::Global;

/// What a line asks for, from the second line on. Nodes and markets count from 0, and slots are 0 to
/// 255. No rule of the exchange is tested yet: a number may be any of its type.
#[derive(Debug, PartialEq, Eq, Drop)]
pub enum Event {
    /// A node takes a short-term order.
    Place {
        /// The node.
        node: u32,
        /// The order.
        order: Order,
    },
    /// A node cancels a short-term order.
    Cancel {
        /// The node.
        node: u32,
        /// The order's id, with flags 0.
        id: OrderId,
        /// The last height at which the cancel counts.
        until: u32,
    },
    /// A node cancels all resting short-term orders of an account.
    CancelAll {
        /// The node.
        node: u32,
        /// The account.
        who: SubaccountId,
    },
    /// A node takes a message into its pool.
    Message {
        /// The node.
        node: u32,
        /// The message.
        msg: Msg,
    },
    /// A node gets its own price of a market.
    Feed {
        /// The node.
        node: u32,
        /// The market.
        market: u32,
        /// The price, in the market's price unit.
        price: u64,
    },
    /// A node liquidates and deleverages an account.
    Sweep {
        /// The node.
        node: u32,
        /// The account.
        who: SubaccountId,
    },
    /// A node makes a block and puts it into a slot.
    Propose {
        /// The node.
        node: u32,
        /// The slot.
        slot: u32,
        /// The block's time, in seconds.
        time: u32,
    },
    /// A block is put into a slot.
    Handed {
        /// The slot.
        slot: u32,
        /// The block.
        block: Block,
    },
    /// The bytes of a slot's block.
    Show {
        /// The slot.
        slot: u32,
    },
    /// A node tests the block of a slot.
    Check {
        /// The node.
        node: u32,
        /// The slot.
        slot: u32,
    },
    /// A node commits the block of a slot.
    Commit {
        /// The node.
        node: u32,
        /// The slot.
        slot: u32,
    },
    /// A node tells an account's committed balance.
    Balance {
        /// The node.
        node: u32,
        /// The account.
        who: SubaccountId,
    },
    /// A node tells an account's balance after its queue.
    Spec {
        /// The node.
        node: u32,
        /// The account.
        who: SubaccountId,
    },
    /// A node tells the filled amounts of an order.
    Filled {
        /// The node.
        node: u32,
        /// The order's id.
        id: OrderId,
    },
    /// A node tells the best orders of a market.
    Best {
        /// The node.
        node: u32,
        /// The market.
        market: u32,
    },
    /// A node adds up its committed state.
    Audit {
        /// The node.
        node: u32,
    },
    /// A node hashes its committed state.
    Digest {
        /// The node.
        node: u32,
    },
    /// A node starts again from its kept blocks.
    Restart {
        /// The node.
        node: u32,
    },
    /// A node tells for which trigger an order waits in its committed state.
    Waits {
        /// The node.
        node: u32,
        /// The order's id.
        id: OrderId,
    },
    /// A node's committed state is kept as a snapshot.
    Snap {
        /// The node.
        node: u32,
    },
    /// A node starts again from its snapshot at a height and the later blocks.
    Resume {
        /// The node.
        node: u32,
        /// The height.
        height: u32,
    },
}

impl Event {
    /// The word of the event, which stands in its line and in its reply.
    pub fn word(&self) -> Word
        ensures { result ≡ word_of self.now }
    {
        match self {
            Event::Place { .. } => Word::Place,
            Event::Cancel { .. } => Word::Cancel,
            Event::CancelAll { .. } => Word::CancelAll,
            Event::Message { .. } => Word::Message,
            Event::Feed { .. } => Word::Feed,
            Event::Sweep { .. } => Word::Sweep,
            Event::Propose { .. } => Word::Propose,
            Event::Handed { .. } => Word::Block,
            Event::Show { .. } => Word::Show,
            Event::Check { .. } => Word::Check,
            Event::Commit { .. } => Word::Commit,
            Event::Balance { .. } => Word::Balance,
            Event::Spec { .. } => Word::Spec,
            Event::Filled { .. } => Word::Filled,
            Event::Best { .. } => Word::Best,
            Event::Audit { .. } => Word::Audit,
            Event::Digest { .. } => Word::Digest,
            Event::Restart { .. } => Word::Restart,
            Event::Waits { .. } => Word::Waits,
            Event::Snap { .. } => Word::Snap,
            Event::Resume { .. } => Word::Resume,
        }
    }
}

#[tactic(auto, unfolding(crate::specs::Events::event_behind))]
fn event_behind(alloc: Global, line: &Value, nodes: u32, word: Word) -> Result<Event, LineFault>
    ensures { Reads result (event_behind nodes (view line.now) word) }
{
    match word {
        Word::Genesis => Err(LineFault::Bad { field: 0 }),
        Word::Place => place_event(line, nodes),
        Word::Cancel => cancel_event(line, nodes),
        Word::CancelAll => {
            node_and_account(line, nodes).map(|(node, who)| Event::CancelAll { node, who })
        }
        Word::Message => message_event(line, nodes),
        Word::Feed => feed_event(line, nodes),
        Word::Sweep => node_and_account(line, nodes).map(|(node, who)| Event::Sweep { node, who }),
        Word::Propose => propose_event(line, nodes),
        Word::Block => handed_event(alloc, line),
        Word::Show => show_event(line),
        Word::Check => node_and_slot(line, nodes).map(|(node, slot)| Event::Check { node, slot }),
        Word::Commit => node_and_slot(line, nodes).map(|(node, slot)| Event::Commit { node, slot }),
        Word::Balance => {
            node_and_account(line, nodes).map(|(node, who)| Event::Balance { node, who })
        }
        Word::Spec => node_and_account(line, nodes).map(|(node, who)| Event::Spec { node, who }),
        Word::Filled => node_and_id(line, nodes).map(|(node, id)| Event::Filled { node, id }),
        Word::Best => best_event(line, nodes),
        Word::Audit => lone_node(line, nodes).map(|node| Event::Audit { node }),
        Word::Digest => lone_node(line, nodes).map(|node| Event::Digest { node }),
        Word::Restart => lone_node(line, nodes).map(|node| Event::Restart { node }),
        Word::Waits => node_and_id(line, nodes).map(|(node, id)| Event::Waits { node, id }),
        Word::Snap => lone_node(line, nodes).map(|node| Event::Snap { node }),
        Word::Resume => resume_event(line, nodes),
    }
}

/// The event of a line, in a scenario of so many nodes.
///
/// `Bad` is exactly where the line is no event. The event's node is one of the nodes, its slot one of the
/// slots, and the id of a cancel has the flags 0.
pub fn read_event(alloc: Global, line: &[u8], nodes: u32) -> Result<Event, LineFault>
    ensures read { Reads result (event_of nodes line.now) }
    ensures of { IfOk result (λ event. IsOf nodes event) }
{
    let value = value_of(alloc, line)?;
    event_behind(alloc, &value, nodes, word_part(&value)?)
}
