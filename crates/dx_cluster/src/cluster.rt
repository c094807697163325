//! All nodes and slots, and what an event does to them.

ghost use Rattle.std.specs.Prelude.{◌<◌, ◌≤◌, length};

use crate::acts::{
    cancel_order, cancel_orders, check_block, commit_block, feed_price, place_order, pool_message,
    refused_or_memory, show_block, sweep_account, tell_audit, tell_balance, tell_best, tell_digest,
    tell_filled, tell_speculative, tell_waits,
};
use crate::fault::StartFault;
use crate::proposed::proposed;
use crate::slots::Slots;
use crate::snapshots::{resume_node, snap_node};
use crate::starting::{restart_node, start_node};
use dx_io::Keeper;
use dx_node::Node;
use dx_print::{Answer, Reply};
use dx_scenario::Event;
use dx_types::{Genesis, List, Msg, NoMemory, Order, OrderId, SubaccountId};
use std::alloc::Global;

/// The nodes by number, and the slots for blocks.
#[derive(Drop)]
pub struct Cluster {
    /// From 1 to 16 nodes, by number.
    pub nodes: Vec<Node>,
    /// The blocks in the slots 0 to 255.
    pub slots: Slots,
    ghost some: { 0 < length nodes.items },
    ghost few: { length nodes.items ≤ 16 },
}

impl Cluster {
    ghost use Rattle.std.specs.Prelude.{◌≡◌, false, Some, IfOk, OnOk, IfErr, IsErrOf, slice_get};
    ghost use Rattle.std.specs.FinMap.{get};
    ghost use Rattle.dx_spec.specs.Genesis.{IsNatFrom, IsGenesis};
    ghost use Rattle.dx_scenario.specs.Events.{IsOf};
    ghost use Rattle.dx_io.specs.Causes.{KeepsCount, Rose};
    ghost use Rattle.dx_io.specs.Rows.{Rows};
    ghost use Rattle.dx_cluster.specs.Acts.{place_order, cancel_order, cancel_orders, feed_price, pool_message, sweep_account, check_slot, show_slot, tell_balance, tell_speculative, tell_filled, tell_best, tell_audit, tell_digest, tell_waits};
    ghost use Rattle.dx_cluster.specs.Snapshots.{restart_node, resume_node};
    ghost use Rattle.dx_cluster.specs.Counts.{StartLeaves};
    ghost use Rattle.dx_cluster.specs.Fitting.{CommitFits, SnapFits, EventFits};
    ghost use Rattle.dx_cluster.specs.World.{World, opened, heights, act_at, commit_at, propose_at, snap_at, turn_at, acted, uses_rows, step, Stands, StandsForSome, KeepsRows, HasActed, HasKept, HasDone, HasGone, HasStepped, Opens, OpenRefused, Breaks};

    /// From 1 to 16 nodes of one genesis, numbered from 0, each started from the rows that a keeper has of it, and no
    /// slot filled ("Genesis line" in docs/FORMAT.md). A node that has no rows gets the digest of the genesis as its
    /// first one.
    ///
    /// The first node whose rows are no chain of the genesis ends the call, `KeptBad` or `KeptOther`: the rows are then
    /// those behind the starts of the nodes before it. `KeepFault` comes only where the keeper's count of faults rose,
    /// and `NoMemory` where there is none: the rows are then those behind the starts of the first so many nodes. Every
    /// other answer leaves the count.
    pub fn open<K: Keeper>(
        alloc: Global,
        count: u32,
        genesis: &Genesis,
        keeper: &mut K,
    ) -> Result<Cluster, StartFault>
        requires count { IsNatFrom 1 16 count }
        requires genesis { IsGenesis genesis.now }
        ensures opened { (rows : Rows) → K.rows keeper.old ≡ Some rows → IfOk result (λ cluster.
            Opens (opened count genesis.now rows) cluster (K.rows keeper.new)) }
        ensures stands { IfOk result StandsForSome }
        ensures many { IfOk result (λ cluster. length cluster.nodes.items ≡ count) }
        ensures refused { (rows : Rows) → K.rows keeper.old ≡ Some rows → IfErr result (λ fault.
            OpenRefused count (opened count genesis.now rows) genesis.now rows (K.rows keeper.new) fault) }
        ensures later { K.faults keeper.old ≤ K.faults keeper.new }
        ensures failed { IsErrOf result StartFault.KeepFault → Rose (K.faults keeper.old) (K.faults keeper.new) }
        ensures good { KeepsCount (K.faults keeper.old) (K.faults keeper.new) result }
        ensures still { IfErr result (StartLeaves (K.faults keeper.old) (K.faults keeper.new)) }
    {
        let mut nodes = Vec::new(alloc);
        'nodes: for number in 0..count {
            match start_node(alloc, genesis, number, keeper) {
                Ok(node) => nodes.push(node)?,
                Err(fault) => return Err(fault),
            }
        }
        Ok(Cluster {
            nodes,
            slots: Slots::new(alloc),
        })
    }

    /// How many nodes there are.
    pub fn count(&self) -> u32
        ensures { result ≡ length self.now.nodes.items }
    {
        self.nodes.len() as u32
    }

    /// The answer to the first line: the height of each node. `NoMemory` where there is none for the list.
    pub fn heights(&self) -> Result<Answer, NoMemory>
        ensures { IfOk result (λ answer. (w : World) → Stands self.now w → (answer ≡ heights w)) }
    {
        let mut numbers = Vec::new(*self.nodes.allocator());
        'nodes: for node in &self.nodes {
            numbers.push(node.height())?;
        }
        Ok(Answer::Heights(List::from_vec(numbers)))
    }

    /// A node takes an order.
    fn place(&mut self, node: u32, order: &Order) -> Result<Answer, NoMemory>
        requires stands { StandsForSome self.old }
        requires there { node < length self.old.nodes.items }
        ensures done { IfOk result (λ answer. (w : World) → Stands self.old w
            → HasActed (act_at w node (place_order order.now)) self.new answer) }
        ensures many { length self.new.nodes.items ≡ length self.old.nodes.items }
    {
        place_order(&mut self.nodes[node as usize], order)
    }

    /// A node cancels a short-term order.
    fn cancel(&mut self, node: u32, id: &OrderId, until: u32) -> Result<Answer, NoMemory>
        requires stands { StandsForSome self.old }
        requires there { node < length self.old.nodes.items }
        ensures done { IfOk result (λ answer. (w : World) → Stands self.old w
            → HasActed (act_at w node (cancel_order id.now until)) self.new answer) }
        ensures many { length self.new.nodes.items ≡ length self.old.nodes.items }
    {
        cancel_order(&mut self.nodes[node as usize], id, until)
    }

    /// A node cancels the resting short-term orders of an account.
    fn cancel_all(&mut self, node: u32, who: SubaccountId) -> Result<Answer, NoMemory>
        requires stands { StandsForSome self.old }
        requires there { node < length self.old.nodes.items }
        ensures done { IfOk result (λ answer. (w : World) → Stands self.old w
            → HasActed (act_at w node (cancel_orders who)) self.new answer) }
        ensures many { length self.new.nodes.items ≡ length self.old.nodes.items }
    {
        cancel_orders(&mut self.nodes[node as usize], who)
    }

    /// A node is fed a price.
    fn feed(&mut self, node: u32, market: u32, price: u64) -> Answer
        requires stands { StandsForSome self.old }
        requires there { node < length self.old.nodes.items }
        ensures done { (w : World) → Stands self.old w
            → HasActed (act_at w node (feed_price market price)) self.new result }
        ensures many { length self.new.nodes.items ≡ length self.old.nodes.items }
    {
        feed_price(&mut self.nodes[node as usize], market, price)
    }

    /// A node gets a message into its pool.
    fn message(&mut self, node: u32, msg: &Msg) -> Result<Answer, NoMemory>
        requires stands { StandsForSome self.old }
        requires there { node < length self.old.nodes.items }
        ensures done { IfOk result (λ answer. (w : World) → Stands self.old w
            → HasActed (act_at w node (pool_message msg.now)) self.new answer) }
        ensures many { length self.new.nodes.items ≡ length self.old.nodes.items }
    {
        pool_message(&mut self.nodes[node as usize], msg)
    }

    /// A node sweeps an account.
    fn sweep(&mut self, node: u32, who: SubaccountId) -> Result<Answer, NoMemory>
        requires stands { StandsForSome self.old }
        requires there { node < length self.old.nodes.items }
        ensures done { IfOk result (λ answer. (w : World) → Stands self.old w
            → HasActed (act_at w node (sweep_account who)) self.new answer) }
        ensures many { length self.new.nodes.items ≡ length self.old.nodes.items }
    {
        sweep_account(&mut self.nodes[node as usize], who)
    }

    /// A node makes a block and puts it into a slot.
    fn propose(&mut self, node: u32, slot: u32, time: u32) -> Result<Answer, NoMemory>
        requires stands { StandsForSome self.old }
        requires there { node < length self.old.nodes.items }
        ensures done { IfOk result (λ answer. (w : World) → Stands self.old w
            → HasActed (propose_at w node slot time) self.new answer) }
        ensures many { length self.new.nodes.items ≡ length self.old.nodes.items }
    {
        match self.nodes[node as usize].propose(time) {
            Ok(proposal) => {
                let answer = proposed(&proposal);
                self.slots.fill(slot, proposal)?;
                Ok(answer)
            }
            Err(fault) => refused_or_memory(fault.refusal()),
        }
    }

    /// A node tests the block of a slot.
    fn check(&mut self, node: u32, slot: u32) -> Result<Answer, NoMemory>
        requires stands { StandsForSome self.old }
        requires there { node < length self.old.nodes.items }
        ensures done { IfOk result (λ answer. (w : World) → Stands self.old w
            → HasActed (act_at w node (check_slot (get w.slots slot))) self.new answer) }
        ensures many { length self.new.nodes.items ≡ length self.old.nodes.items }
    {
        let alloc = *self.nodes.allocator();
        let Some(block) = self.slots.block(slot) else {
            return Ok(Answer::Empty);
        };
        check_block(alloc, &mut self.nodes[node as usize], block)
    }

    /// A node commits the block of a slot, whose bytes become one of the node's rows.
    fn commit<K: Keeper>(
        &mut self,
        node: u32,
        slot: u32,
        keeper: &mut K,
    ) -> Result<Answer, StartFault>
        requires stands { StandsForSome self.old }
        requires there { node < length self.old.nodes.items }
        ensures done { IfOk result (λ answer. (w : World) → Stands self.old w → KeepsRows (K.rows keeper.old) w
            → HasKept (commit_at w node slot) self.new answer (K.rows keeper.new)) }
        ensures stands { OnOk result (StandsForSome self.new) }
        ensures many { length self.new.nodes.items ≡ length self.old.nodes.items }
        ensures fits { OnOk result ((w : World) → Stands self.old w
            → CommitFits (slice_get w.nodes node) (get w.slots slot)) }
        ensures breaks { IfErr result (λ fault. (w : World) → Stands self.old w → KeepsRows (K.rows keeper.old) w
            → Breaks w (Ok (commit_at w node slot)) (K.rows keeper.new) fault) }
        ensures later { K.faults keeper.old ≤ K.faults keeper.new }
        ensures failed { IsErrOf result StartFault.KeepFault → Rose (K.faults keeper.old) (K.faults keeper.new) }
        ensures good { KeepsCount (K.faults keeper.old) (K.faults keeper.new) result }
        ensures still { IfErr result (StartLeaves (K.faults keeper.old) (K.faults keeper.new)) }
    {
        let Some(block) = self.slots.block(slot) else {
            return Ok(Answer::Empty);
        };
        commit_block(&mut self.nodes[node as usize], block, keeper)
    }

    /// A node's committed state is kept as a snapshot, and its digest is told.
    fn snap<K: Keeper>(&self, node: u32, keeper: &mut K) -> Result<Answer, StartFault>
        requires there { node < length self.now.nodes.items }
        ensures done { IfOk result (λ answer. (w : World) → Stands self.now w → KeepsRows (K.rows keeper.old) w
            → HasKept (snap_at w node) self.now answer (K.rows keeper.new)) }
        ensures fits { OnOk result ((w : World) → Stands self.now w → SnapFits (slice_get w.nodes node)) }
        ensures breaks { IfErr result (λ fault. (w : World) → Stands self.now w → KeepsRows (K.rows keeper.old) w
            → Breaks w (Ok (snap_at w node)) (K.rows keeper.new) fault) }
        ensures later { K.faults keeper.old ≤ K.faults keeper.new }
        ensures failed { IsErrOf result StartFault.KeepFault → Rose (K.faults keeper.old) (K.faults keeper.new) }
        ensures good { KeepsCount (K.faults keeper.old) (K.faults keeper.new) result }
        ensures still { IfErr result (StartLeaves (K.faults keeper.old) (K.faults keeper.new)) }
    {
        snap_node(&self.nodes[node as usize], node, keeper)
    }

    /// A node starts again from its snapshot at a height and the rows above it, and tells its height.
    fn resume<K: Keeper>(
        &mut self,
        node: u32,
        height: u32,
        keeper: &mut K,
    ) -> Result<Answer, StartFault>
        requires stands { StandsForSome self.old }
        requires there { node < length self.old.nodes.items }
        ensures done { IfOk result (λ answer. (w : World) → Stands self.old w → KeepsRows (K.rows keeper.old) w
            → HasGone (turn_at w node (resume_node height)) self.new answer (K.rows keeper.new)) }
        ensures stands { OnOk result (StandsForSome self.new) }
        ensures many { length self.new.nodes.items ≡ length self.old.nodes.items }
        ensures breaks { IfErr result (λ fault. (w : World) → Stands self.old w → KeepsRows (K.rows keeper.old) w
            → Breaks w (turn_at w node (resume_node height)) (K.rows keeper.new) fault) }
        ensures later { K.faults keeper.old ≤ K.faults keeper.new }
        ensures failed { IsErrOf result StartFault.KeepFault → Rose (K.faults keeper.old) (K.faults keeper.new) }
        ensures good { KeepsCount (K.faults keeper.old) (K.faults keeper.new) result }
        ensures still { IfErr result (StartLeaves (K.faults keeper.old) (K.faults keeper.new)) }
    {
        resume_node(&mut self.nodes[node as usize], node, height, keeper)
    }

    /// A node starts anew from its rows, and tells its height.
    fn restart<K: Keeper>(&mut self, node: u32, keeper: &mut K) -> Result<Answer, StartFault>
        requires stands { StandsForSome self.old }
        requires there { node < length self.old.nodes.items }
        ensures done { IfOk result (λ answer. (w : World) → Stands self.old w → KeepsRows (K.rows keeper.old) w
            → HasGone (turn_at w node restart_node) self.new answer (K.rows keeper.new)) }
        ensures stands { OnOk result (StandsForSome self.new) }
        ensures many { length self.new.nodes.items ≡ length self.old.nodes.items }
        ensures breaks { IfErr result (λ fault. (w : World) → Stands self.old w → KeepsRows (K.rows keeper.old) w
            → Breaks w (turn_at w node restart_node) (K.rows keeper.new) fault) }
        ensures later { K.faults keeper.old ≤ K.faults keeper.new }
        ensures failed { IsErrOf result StartFault.KeepFault → Rose (K.faults keeper.old) (K.faults keeper.new) }
        ensures good { KeepsCount (K.faults keeper.old) (K.faults keeper.new) result }
        ensures still { IfErr result (StartLeaves (K.faults keeper.old) (K.faults keeper.new)) }
    {
        match restart_node(&mut self.nodes[node as usize], keeper) {
            Ok(height) => Ok(Answer::Done(Some(height))),
            Err(fault) => Err(fault),
        }
    }

    /// A node tells an account's committed balance.
    fn balance(&self, node: u32, who: SubaccountId) -> Answer
        requires { node < length self.now.nodes.items }
        ensures { (w : World) → Stands self.now w → HasActed (act_at w node (tell_balance who)) self.now result }
    {
        tell_balance(&self.nodes[node as usize], who)
    }

    /// A node tells an account's balance after its queue.
    fn speculative(&self, node: u32, who: SubaccountId) -> Answer
        requires { node < length self.now.nodes.items }
        ensures { (w : World) → Stands self.now w → HasActed (act_at w node (tell_speculative who)) self.now result }
    {
        tell_speculative(&self.nodes[node as usize], who)
    }

    /// A node tells how much of an order is filled.
    fn filled(&self, node: u32, id: &OrderId) -> Answer
        requires { node < length self.now.nodes.items }
        ensures { (w : World) → Stands self.now w → HasActed (act_at w node (tell_filled id.now)) self.now result }
    {
        tell_filled(&self.nodes[node as usize], id)
    }

    /// A node tells for which trigger an order waits in its committed state.
    fn waits(&self, node: u32, id: &OrderId) -> Answer
        requires { node < length self.now.nodes.items }
        ensures { (w : World) → Stands self.now w → HasActed (act_at w node (tell_waits id.now)) self.now result }
    {
        tell_waits(&self.nodes[node as usize], id)
    }

    /// A node tells the best orders of a market.
    fn best(&self, node: u32, market: u32) -> Answer
        requires { node < length self.now.nodes.items }
        ensures { (w : World) → Stands self.now w → HasActed (act_at w node (tell_best market)) self.now result }
    {
        tell_best(&self.nodes[node as usize], market)
    }

    /// A node tells the numbers of its committed state.
    fn audit(&self, node: u32) -> Answer
        requires { node < length self.now.nodes.items }
        ensures { (w : World) → Stands self.now w → HasActed (act_at w node tell_audit) self.now result }
    {
        tell_audit(&self.nodes[node as usize])
    }

    /// A node tells the digest of its committed state.
    fn digest(&self, node: u32) -> Result<Answer, NoMemory>
        requires { node < length self.now.nodes.items }
        ensures { IfOk result (λ answer. (w : World) → Stands self.now w
            → HasActed (act_at w node tell_digest) self.now answer) }
    {
        tell_digest(&self.nodes[node as usize])
    }

    /// The bytes of the block of a slot.
    fn show(&self, slot: u32) -> Result<Answer, NoMemory>
        ensures { IfOk result (λ answer. (w : World) → Stands self.now w
            → HasActed (w, show_slot (get w.slots slot)) self.now answer) }
    {
        match self.slots.block(slot) {
            Some(block) => show_block(*self.nodes.allocator(), block),
            None => Ok(Answer::Empty),
        }
    }

    /// Does what an event asks for that reads and sets no rows, and tells the answer.
    fn act(&mut self, event: Event) -> Result<Answer, NoMemory>
        requires stands { StandsForSome self.old }
        requires of { IsOf (length self.old.nodes.items) event }
        requires beside { uses_rows event ≡ false }
        ensures done { IfOk result (λ answer. (w : World) → Stands self.old w
            → HasDone (acted w event) self.new answer) }
        ensures many { length self.new.nodes.items ≡ length self.old.nodes.items }
    {
        match event {
            Event::Handed { slot, block } => {
                self.slots.fill(slot, block)?;
                Ok(Answer::Done(None))
            }
            Event::Show { slot } => self.show(slot),
            Event::Place { node, order } => self.place(node, &order),
            Event::Cancel { node, id, until } => self.cancel(node, &id, until),
            Event::CancelAll { node, who } => self.cancel_all(node, who),
            Event::Feed {
                node,
                market,
                price,
            } => Ok(self.feed(node, market, price)),
            Event::Message { node, msg } => self.message(node, &msg),
            Event::Sweep { node, who } => self.sweep(node, who),
            Event::Propose { node, slot, time } => self.propose(node, slot, time),
            Event::Check { node, slot } => self.check(node, slot),
            Event::Balance { node, who } => Ok(self.balance(node, who)),
            Event::Spec { node, who } => Ok(self.speculative(node, who)),
            Event::Filled { node, id } => Ok(self.filled(node, &id)),
            Event::Waits { node, id } => Ok(self.waits(node, &id)),
            Event::Best { node, market } => Ok(self.best(node, market)),
            Event::Audit { node } => Ok(self.audit(node)),
            Event::Digest { node } => self.digest(node),
            Event::Commit { .. }
            | Event::Restart { .. }
            | Event::Snap { .. }
            | Event::Resume { .. } => unreachable!(),
        }
    }

    /// Does what an event asks for, with its rows, and tells the answer.
    fn answer<K: Keeper>(&mut self, event: Event, keeper: &mut K) -> Result<Answer, StartFault>
        requires stands { StandsForSome self.old }
        requires of { IsOf (length self.old.nodes.items) event }
        ensures done { IfOk result (λ answer. (w : World) → Stands self.old w → KeepsRows (K.rows keeper.old) w
            → HasGone (acted w event) self.new answer (K.rows keeper.new)) }
        ensures stands { OnOk result (StandsForSome self.new) }
        ensures many { length self.new.nodes.items ≡ length self.old.nodes.items }
        ensures fits { OnOk result ((w : World) → Stands self.old w → EventFits w event) }
        ensures breaks { IfErr result (λ fault. (w : World) → Stands self.old w → KeepsRows (K.rows keeper.old) w
            → Breaks w (acted w event) (K.rows keeper.new) fault) }
        ensures later { K.faults keeper.old ≤ K.faults keeper.new }
        ensures failed { IsErrOf result StartFault.KeepFault → Rose (K.faults keeper.old) (K.faults keeper.new) }
        ensures good { KeepsCount (K.faults keeper.old) (K.faults keeper.new) result }
        ensures still { IfErr result (StartLeaves (K.faults keeper.old) (K.faults keeper.new)) }
    {
        match event {
            Event::Commit { node, slot } => self.commit(node, slot, keeper),
            Event::Restart { node } => self.restart(node, keeper),
            Event::Snap { node } => self.snap(node, keeper),
            Event::Resume { node, height } => self.resume(node, height, keeper),
            _ => Ok(self.act(event)?),
        }
    }

    /// Executes an event, and tells the reply ("Events" in docs/FORMAT.md).
    ///
    /// The cluster stands for some nodes and slots, as it does when it is opened and behind each event. Where the keeper
    /// tells its rows, and they are those of the nodes' blocks, the reply and what the cluster and the keeper hold behind
    /// it are those of the definition. What the event keeps has bytes.
    ///
    /// `KeptBad` and `KeptOther` exactly where the definition ends the run at a restart or a resume: the rows are then as
    /// before. `NoMemory` where there is none for what it keeps, tests or applies, or for the answer; `KeepFault` only
    /// where the keeper's count of faults rose: the rows are then those before the event, or those behind it. Every
    /// other answer leaves the count. Of the cluster nothing is promised behind a fault: the run ends.
    pub fn serve<K: Keeper>(&mut self, event: Event, keeper: &mut K) -> Result<Reply, StartFault>
        requires stands { StandsForSome self.old }
        requires of { IsOf (length self.old.nodes.items) event }
        ensures done { IfOk result (λ reply. (w : World) → Stands self.old w → KeepsRows (K.rows keeper.old) w
            → HasStepped (step w event) self.new reply (K.rows keeper.new)) }
        ensures stands { OnOk result (StandsForSome self.new) }
        ensures many { length self.new.nodes.items ≡ length self.old.nodes.items }
        ensures fits { OnOk result ((w : World) → Stands self.old w → EventFits w event) }
        ensures breaks { IfErr result (λ fault. (w : World) → Stands self.old w → KeepsRows (K.rows keeper.old) w
            → Breaks w (step w event) (K.rows keeper.new) fault) }
        ensures later { K.faults keeper.old ≤ K.faults keeper.new }
        ensures failed { IsErrOf result StartFault.KeepFault → Rose (K.faults keeper.old) (K.faults keeper.new) }
        ensures good { KeepsCount (K.faults keeper.old) (K.faults keeper.new) result }
        ensures still { IfErr result (StartLeaves (K.faults keeper.old) (K.faults keeper.new)) }
    {
        let word = event.word();
        let answer = self.answer(event, keeper)?;
        Ok(Reply { word, answer })
    }
}
