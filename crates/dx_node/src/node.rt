//! A node, and its calls.

ghost use Rattle.std.specs.Prelude.{◌≡◌, ◌+◌, true, false, [], length, None, Ok, OnOk, IfOk, IfErr, OnErr, IsOk, IsErrOf, ◌≤◌};
ghost use Rattle.std.specs.FinMap.{values};
ghost use Rattle.dx_spec.specs.Blocks.{block_step};
ghost use Rattle.dx_spec.specs.Genesis.{IsGenesis};
ghost use Rattle.dx_spec.specs.Audits.{audit as audit_of};
ghost use Rattle.dx_operations.specs.Faults.{Refuses};
ghost use Rattle.dx_rules.specs.Settled.{IsSettled};
ghost use Rattle.dx_work.specs.Lines.{committed as committed_in, present as present_in, aside_of};
ghost use Rattle.dx_node_spec.specs.Node.{Node as PlainNode, new_node, committed as committed_of, speculative as speculative_of};
ghost use Rattle.dx_node_spec.specs.Placing.{place as placed_with};
ghost use Rattle.dx_node_spec.specs.Events.{fed, pooled, cancel as cancelled_with, cancel_all as all_cancelled_with, sweep as swept_with};
ghost use Rattle.dx_node_spec.specs.Commits.{commit as committed_with, replay_next as replayed};
ghost use Rattle.dx_node_spec.specs.Proposals.{proposal_at, propose as proposed};
ghost use Rattle.dx_node_spec.specs.Reads as tells;
ghost use Rattle.dx_speculation.specs.Faithful.{IsGoodBlock};
ghost use Rattle.dx_node_spec.specs.Reads.{shown_by};
ghost use Rattle.dx_node.specs.Short.{IsShort};
ghost use Rattle.dx_node.specs.Trades.{outcome_of};
ghost use Rattle.dx_node.specs.Standing.{StandsFor, LeadsTo, Gives, GivesBoth, Becomes};
ghost use Rattle.dx_node.specs.Faults.{FeedRefused, PlaceRefused, ProposeRefused, CancelRefused, MessageRefused, SweepRefused};
ghost use Rattle.dx_node.specs.Restarts.{committed_digest, CommitRefused, Restarts, RestartRefused, BeginsRows};
ghost use Rattle.dx_node.specs.Starts.{IsAnew};
ghost use Rattle.dx_node.specs.Resumes.{Resumes, ResumeRefused};
ghost use Rattle.dx_node.specs.Counts.{CommitLeaves, RestartLeaves, ResumeLeaves};
ghost use Rattle.dx_io.specs.Causes.{KeepsCount, Rose};
ghost use Rattle.dx_io.specs.Rows.{SameRows, SetsRow};
ghost use Rattle.dx_codec.specs.Blocks.{block_bytes, FitsBlock};
ghost use Rattle.dx_codec.specs.Building.{IsStateOf};
ghost use Rattle.dx_history.specs.Rows.{place_of};

use crate::cancelling::{
    MOST_CANCELS, check_cancel, count, end_all, end_order, orders_of, with_ends,
};
use crate::cancels::Cancels;
use crate::commits::After;
use crate::faults::{
    CancelFault, CommitFault, FeedFault, MessageFault, PlaceFault, ProposeFault, RestartFault,
    ResumeFault, SweepFault,
};
use crate::feed::Feed;
use crate::pending::Pending;
use crate::placed::Placed;
use crate::placing::{place_again, place_at};
use crate::pool::add;
use crate::proposing::check_time;
use crate::reads::{amount_of, best_of, has_market, shown_orders};
use crate::restarting::{Start, start_anew};
use crate::resuming::resume_from;
use crate::suspended::{check_committed, commit_block};
use crate::sweeping::{Swept, sweep_at};
use crate::votes::votes;
use dx_book::Book;
use dx_codec::encode_state;
use dx_io::Keeper;
use dx_ledger::Ledger;
use dx_queue::Queue;
use dx_replay::purge;
use dx_rules::{BlockFault, genesis_is_settled, is_price};
use dx_state::PlainState;
use dx_trade::filled_of;
use dx_types::{
    Account, Audit, Block, Genesis, List, Msg, NoMemory, Order, OrderId, Shown, SubaccountId,
    Waiting,
};
use dx_work::Work;
use sha2::{Digest, Sha256};
use std::alloc::Global;
use std::marker::Model;

/// A node: the states after its blocks and after its queue as the committed and the present content of a work, its
/// queue, its book, its cancels, the messages that wait, its fed prices, and the orders to place again. Contracts see
/// all that a plain node has, and the plain nodes that have the same.
#[derive(Drop)]
pub struct Node {
    number: u32,
    work: Work,
    queue: Queue,
    book: Book,
    cancels: Cancels,
    pool: List<Msg>,
    feed: Feed,
    again: Pending,
}

impl Model for Node {
    ghost use Rattle.dx_node.specs.Held.{Held, coded_held};
    ghost use Rattle.dx_node.specs.Works.{held_over, KeepsWork};

    ghost Value = { Held };

    ghost coded = { coded_held };

    ghost view = { λ n. held_over n.number n.work n.queue n.book.orders n.cancels n.pool n.feed n.again };

    ghost invariant = { λ n. KeepsWork n.work
        (held_over n.number n.work n.queue n.book.orders n.cancels n.pool n.feed n.again) };
}

impl Node {
    /// A node of a number with no blocks, all else empty. `NoMemory` if there is none for its states.
    ///
    /// Start it at once by [`Node::restart`] or [`Node::resume`], also if the keeper is empty. A node that commits before
    /// that writes rows that no start takes: the row at height 1 without one at height 0, or over an older row.
    pub fn new(alloc: Global, g: &Genesis, id: u32) -> Result<Node, NoMemory>
        requires { IsGenesis g.now }
        ensures { IfOk result (λ node. StandsFor node (new_node id g.now)) }
    {
        genesis_is_settled();
        let state = PlainState::genesis(alloc, g)?;
        let work = Work::new(alloc, state)?;
        Ok(Node {
            number: id,
            work,
            queue: Queue::new(alloc),
            book: Book::new(alloc),
            cancels: Cancels::new(alloc),
            pool: List::new(alloc),
            feed: Feed::new(),
            again: Pending::new(alloc),
        })
    }

    /// The allocator that the node keeps.
    fn allocator(&self) -> Global {
        self.queue.ops().allocator()
    }

    /// The number that the node was made with.
    pub fn number(&self) -> u32
        ensures { (p : PlainNode) → StandsFor self.now p → result ≡ p.number }
    {
        self.number
    }

    /// The genesis that the node was made with.
    pub fn genesis(&self) -> &Genesis
        ensures same { (p : PlainNode) → StandsFor self.now p → result.now ≡ p.genesis }
        ensures good { IsGenesis result.now }
        ensures own { result.now ≡ self.now.committed.genesis }
    {
        self.work.genesis()
    }

    /// The height of the last block; 0 before the first.
    pub fn height(&self) -> u32
        ensures { (p : PlainNode) → StandsFor self.now p → result ≡ (committed_of p).clock.height }
    {
        self.work.committed_clock().height
    }

    /// An account after the blocks, if it is kept. It takes no memory.
    pub fn committed_account(&self, who: SubaccountId) -> Option<Account>
        ensures { (p : PlainNode) → StandsFor self.now p → result ≡ tells.committed_account p who }
    {
        self.work.committed_account(who)
    }

    /// An account after the blocks and the queue, if it is kept. It takes no memory.
    pub fn speculative_account(&self, who: SubaccountId) -> Option<Account>
        ensures { (p : PlainNode) → StandsFor self.now p → result ≡ tells.speculative_account p who }
    {
        self.work.account(who)
    }

    /// How much of an order is filled after the blocks, and after the queue too: base quantums. It takes no
    /// memory.
    pub fn filled(&self, id: &OrderId) -> (u64, u64)
        ensures { (p : PlainNode) → StandsFor self.now p → result ≡ tells.filled_amounts p id.now }
    {
        (
            amount_of(self.work.committed_filled(id)),
            filled_of(&self.work, id),
        )
    }

    /// An order that waits for its trigger after the blocks, if it does. It takes no memory.
    pub fn waiting(&self, id: &OrderId) -> Option<Waiting>
        ensures { (p : PlainNode) → StandsFor self.now p → result ≡ tells.committed_waiting p id.now }
    {
        self.work.committed_waiting(id)
    }

    /// The subticks of the best bid and what is left of it, and the same of the best ask, each 0 and 0 where
    /// there is none ("Book" in docs/RULES.md). `None` where the market is unknown. It takes no memory.
    pub fn best(&self, market: u32) -> Option<[u64; 4]>
        ensures { (p : PlainNode) → StandsFor self.now p → result ≡ tells.best_prices p market }
    {
        if !has_market(&self.work, market) {
            return None;
        }
        let bid = best_of(&self.work, &self.book, market, true);
        let ask = best_of(&self.work, &self.book, market, false);
        Some([bid.0, bid.1, ask.0, ask.1])
    }

    /// The orders of the book in order of arrival, each with what is left of it after the queue: base quantums.
    /// `NoMemory` where there is no memory for the list.
    pub fn shown(&self) -> Result<List<Shown>, NoMemory>
        ensures { (p : PlainNode) → StandsFor self.now p → IfOk result (λ list. list ≡ shown_by p) }
    {
        shown_orders(&self.work, &self.book)
    }

    /// The numbers of the state after the blocks ("Audit" in docs/FORMAT.md). It takes no memory.
    pub fn audit(&self) -> Audit
        ensures { (p : PlainNode) → StandsFor self.now p → result ≡ audit_of (committed_of p) }
    {
        self.work.committed_audit()
    }

    /// The work that the node keeps its states in: the state after the blocks is its committed content, and the one
    /// after the queue its present one. It takes no memory.
    pub fn work(&self) -> &Work
        ensures committed { (p : PlainNode) → StandsFor self.now p → committed_in result.now ≡ committed_of p }
        ensures present { (p : PlainNode) → StandsFor self.now p → present_in result.now ≡ speculative_of p }
    {
        &self.work
    }

    /// How many orders are to be placed again ("After a commit" in docs/RULES.md). It takes no memory.
    pub fn pending(&self) -> usize
        ensures { result ≡ length self.now.again }
    {
        self.again.len()
    }

    /// Tells whether a block is good on the state after the blocks, whatever the queue and the book hold
    /// ("Block" in docs/RULES.md). The node is as before at each end.
    ///
    /// `Bad` with the block's first bad part; `NoMemory` where there is none.
    pub fn check(&mut self, block: &Block) -> Result<(), BlockFault>
        requires idle { self.old.again ≡ [] }
        ensures ok { OnOk result ((p : PlainNode) → StandsFor self.old p
            → IsOk (block_step (committed_of p) block.now)) }
        ensures refused { IfErr result (λ fault. (p : PlainNode) → StandsFor self.old p
            → Refuses fault (block_step (committed_of p) block.now)) }
        ensures same { self.new ≡ self.old }
    {
        let alloc = self.allocator();
        check_committed(alloc, &mut self.work, block)
    }

    /// Commits a block, and tells the results of its messages: the block becomes the node's last, and its bytes are
    /// the row of the node's number at its height; no other row changes. The orders that the queue mentions, those that
    /// the block's good messages placed, and those that it triggered, are listed to be placed again by
    /// [`Node::replay_next`]; the queue is emptied, and what may not rest on leaves the book. Cancels that stand no
    /// longer are dropped, for each message of the block the first equal one leaves the pool, and the fed prices stay
    /// ("Block", "After a commit" and "Rows" in docs/RULES.md). The state after the block is balanced and sound. All
    /// memory is taken before the row is set.
    ///
    /// Call it only on a node that was started from this keeper by [`Node::restart`] or [`Node::resume`]; else the rows
    /// that it leaves are no chain of a genesis.
    ///
    /// `Bad` with the block's first bad part, exactly as [`Node::check`] has it; `KeepFault` only where the keeper's
    /// count of faults rose; `NoMemory` where there is none. The node and the rows are then as before. A good answer
    /// and `Bad` leave the count.
    pub fn commit<K: Keeper>(
        &mut self,
        block: &Block,
        keeper: &mut K,
    ) -> Result<List<u32>, CommitFault>
        requires idle { self.old.again ≡ [] }
        ensures ok { IfOk result (λ results. (p : PlainNode) → StandsFor self.old p
            → Gives self.new results (committed_with p block.now)) }
        ensures settled { OnOk result (IsSettled self.new.committed) }
        ensures refused { IfErr result (λ fault. (p : PlainNode) → StandsFor self.old p
            → CommitRefused (committed_with p block.now) fault) }
        ensures same { OnErr result (self.new ≡ self.old) }
        ensures row { OnOk result (SetsRow (K.rows keeper.old) (K.rows keeper.new)
            (place_of self.old.number block.now.height) (block_bytes block.now)) }
        ensures fits { OnOk result (FitsBlock block.now) }
        ensures rows { OnErr result (SameRows (K.rows keeper.old) (K.rows keeper.new)) }
        ensures good { KeepsCount (K.faults keeper.old) (K.faults keeper.new) result }
        ensures still { IfErr result (CommitLeaves (K.faults keeper.old) (K.faults keeper.new)) }
        ensures later { K.faults keeper.old ≤ K.faults keeper.new }
        ensures failed { IsErrOf result CommitFault.KeepFault → Rose (K.faults keeper.old) (K.faults keeper.new) }
    {
        let After {
            applied,
            again,
            pool,
        } = commit_block(
            &mut self.work,
            &self.queue,
            &self.book,
            &self.pool,
            self.number,
            block,
            keeper,
        )?;
        purge(&mut self.book, &again, &self.work);
        self.queue.clear();
        self.cancels.drop_ended(block.height);
        self.pool = pool;
        self.again = Pending::of(again);
        Ok(applied.results)
    }

    /// Starts anew from the rows that a keeper has of the node's number: their blocks are the node's, its queue, book,
    /// cancels, pool and fed prices are empty, and the stateful orders of the state after the blocks are listed, by
    /// rising id, to be placed again by [`Node::replay_next`]. Where there are no rows, the digest of the node's
    /// genesis becomes the row at height 0. The answer is the height of the last block ("Rows" in docs/RULES.md). The
    /// state after the blocks is balanced and sound.
    ///
    /// The rows are read by rising height, each block is folded before the next row is read, and the first that is no
    /// row of a chain ends the call: `KeptOther` exactly where the row at height 0 is 32 bytes other than the digest of
    /// the node's genesis, `KeptBad` exactly where a row below the count is missing, is no block or is one that is not
    /// good, or the row at height 0 is not 32 bytes. `KeepFault` only where the keeper's count of faults rose;
    /// `NoMemory` where there is none. The node and the rows are then as before. Every other answer leaves the count.
    pub fn restart<K: Keeper>(&mut self, keeper: &mut K) -> Result<u32, RestartFault>
        ensures ok { IfOk result (λ height. (p : PlainNode) → StandsFor self.old p
            → Restarts (K.rows keeper.old) p self.new height) }
        ensures settled { OnOk result (IsSettled self.new.committed) }
        ensures refused { IfErr result (λ fault. (p : PlainNode) → StandsFor self.old p
            → RestartRefused (K.rows keeper.old) p fault) }
        ensures same { OnErr result (self.new ≡ self.old) }
        ensures begun { OnOk result ((p : PlainNode) → StandsFor self.old p
            → BeginsRows (K.rows keeper.old) (K.rows keeper.new) p) }
        ensures rows { OnErr result (SameRows (K.rows keeper.old) (K.rows keeper.new)) }
        ensures good { KeepsCount (K.faults keeper.old) (K.faults keeper.new) result }
        ensures still { IfErr result (RestartLeaves (K.faults keeper.old) (K.faults keeper.new)) }
        ensures later { K.faults keeper.old ≤ K.faults keeper.new }
        ensures failed { IsErrOf result RestartFault.KeepFault → Rose (K.faults keeper.old) (K.faults keeper.new) }
    {
        let start = start_anew(self.allocator(), keeper, self.number, self.work.genesis())?;
        Ok(self.take_over(start))
    }

    /// Takes over what the node starts from, all else empty, and tells its height.
    fn take_over(&mut self, start: Start) -> u32
        requires settled { IsSettled (committed_in start.work) }
        requires speculative { present_in start.work ≡ committed_in start.work }
        requires nothing { aside_of start.work ≡ None }
        requires again { start.again ≡ values (committed_in start.work).stateful }
        ensures anew { IsAnew self.old.number self.new }
        ensures committed { self.new.committed ≡ committed_in start.work }
        ensures height { result ≡ self.new.committed.clock.height }
    {
        let alloc = self.allocator();
        let Start { work, again } = start;
        let height = work.committed_clock().height;
        self.work = work;
        self.queue = Queue::new(alloc);
        self.book = Book::new(alloc);
        self.cancels = Cancels::new(alloc);
        self.pool = List::new(alloc);
        self.feed = Feed::new();
        self.again = Pending::of(again);
        height
    }

    /// Resumes from a state and the blocks of the rows above its height that a keeper has of the node's number: they
    /// are folded behind the state, and the node's queue, book, cancels, pool and fed prices are empty; the stateful
    /// orders of the state that is reached are listed, by rising id, to be placed again by [`Node::replay_next`]. The
    /// answer is the height that is reached ("Snapshots" in docs/RULES.md). The state is a balanced and sound one of
    /// the node's genesis, as [`Node::committed_copy`] gives one, and so is the one that is reached.
    ///
    /// `Ahead` exactly where the state's height is not below the count of the node's rows. Then the row at height 0 is
    /// compared with the digest of the node's genesis, and the rows above the state are read by rising height, each
    /// block folded before the next row is read; the first that is no row of a chain ends the call with `KeptOther` or
    /// `KeptBad`, as [`Node::restart`] has them. `KeepFault` only where the keeper's count of faults rose; `NoMemory`
    /// where there is none. The node is then as before; the rows are so at each end. Every other answer leaves the
    /// count.
    pub fn resume<K: Keeper>(&mut self, s: PlainState, keeper: &mut K) -> Result<u32, ResumeFault>
        requires { IsStateOf self.old.committed.genesis s }
        ensures ok { IfOk result (λ height. (p : PlainNode) → StandsFor self.old p
            → Resumes (K.rows keeper.old) p s self.new height) }
        ensures settled { OnOk result (IsSettled self.new.committed) }
        ensures refused { IfErr result (λ fault. (p : PlainNode) → StandsFor self.old p
            → ResumeRefused (K.rows keeper.old) p s fault) }
        ensures same { OnErr result (self.new ≡ self.old) }
        ensures rows { SameRows (K.rows keeper.old) (K.rows keeper.new) }
        ensures good { KeepsCount (K.faults keeper.old) (K.faults keeper.new) result }
        ensures still { IfErr result (ResumeLeaves (K.faults keeper.old) (K.faults keeper.new)) }
        ensures later { K.faults keeper.old ≤ K.faults keeper.new }
        ensures failed { IsErrOf result ResumeFault.KeepFault → Rose (K.faults keeper.old) (K.faults keeper.new) }
    {
        match resume_from(self.allocator(), keeper, self.number, s) {
            Ok(start) => Ok(self.take_over(start)),
            Err(fault) => Err(fault),
        }
    }

    /// A copy of the state after the blocks, from which a node may resume. `NoMemory` where there is none for it.
    pub fn committed_copy(&self) -> Result<PlainState, NoMemory>
        ensures copy { IfOk result (λ s. (p : PlainNode) → StandsFor self.now p → s ≡ committed_of p) }
        ensures state { IfOk result (IsStateOf self.now.committed.genesis) }
    {
        self.work.committed_copy()
    }

    /// The SHA-256 of the bytes of the state after the blocks ("Bytes" in docs/FORMAT.md). `NoMemory` where there is
    /// none for the bytes.
    pub fn digest(&self) -> Result<[u8; 32], NoMemory>
        ensures { IfOk result (λ digest. (p : PlainNode) → StandsFor self.now p → digest ≡ committed_digest p) }
    {
        let state = self.work.committed_copy()?;
        let bytes = encode_state(self.allocator(), &state)?;
        Ok(Sha256::digest(bytes.as_slice()))
    }

    /// Places the first order of the list again, and tells whether there was one ("After a commit" in docs/RULES.md).
    /// It leaves the list, also where it is refused; nothing else of the node is then changed.
    ///
    /// `NoMemory` where there is none: the node is then as before, and the order is still on the list.
    pub fn replay_next(&mut self) -> Result<bool, NoMemory>
        ensures ok { IfOk result (λ more. (p : PlainNode) → StandsFor self.old p
            → Becomes self.new more (replayed p)) }
        ensures fewer { IfOk result (λ more. more ≡ true → length self.new.again + 1 ≡ length self.old.again) }
        ensures ended { IfOk result (λ more. more ≡ false → self.new.again ≡ []) }
        ensures same { OnErr result (self.new ≡ self.old) }
    {
        let Some(o) = self.again.first() else {
            return Ok(false);
        };
        let alloc = self.allocator();
        let height = self.next_height();
        place_again(
            alloc,
            &mut self.work,
            height,
            &mut self.queue,
            &mut self.book,
            &self.cancels,
            &o,
        )?;
        self.again.drop_first();
        Ok(true)
    }

    /// Keeps a message for proposals, behind those that wait ("Proposal" in docs/RULES.md). It stays until a block
    /// with an equal one is committed.
    ///
    /// `PoolFull` exactly where 256 messages wait; `NoMemory` where there is none. The node is then as before.
    pub fn message(&mut self, msg: &Msg) -> Result<(), MessageFault>
        requires idle { self.old.again ≡ [] }
        ensures ok { OnOk result ((p : PlainNode) → StandsFor self.old p → LeadsTo self.new (pooled p msg.now)) }
        ensures refused { IfErr result (λ fault. (p : PlainNode) → StandsFor self.old p
            → MessageRefused (pooled p msg.now) fault) }
        ensures same { OnErr result (self.new ≡ self.old) }
    {
        add(&mut self.pool, msg)?;
        Ok(())
    }

    /// Keeps a market's price for proposals, in the place of one that it has ("Fed prices" in docs/RULES.md). It
    /// takes no memory.
    ///
    /// `NoMarket` where there is no such market; `BadPrice` exactly where the price is not from 1 to 2^48 − 1.
    /// The node is then as before.
    pub fn feed(&mut self, market: u32, price: u64) -> Result<(), FeedFault>
        requires idle { self.old.again ≡ [] }
        ensures ok { OnOk result ((p : PlainNode) → StandsFor self.old p → LeadsTo self.new (fed p market price)) }
        ensures refused { IfErr result (λ fault. (p : PlainNode) → StandsFor self.old p
            → FeedRefused (fed p market price) fault) }
        ensures same { OnErr result (self.new ≡ self.old) }
    {
        if market as usize >= self.work.params().markets.len() {
            return Err(FeedFault::NoMarket);
        }
        if !is_price(price) {
            return Err(FeedFault::BadPrice);
        }
        self.feed.put(market, price);
        Ok(())
    }

    /// The block of a time, whatever that is: the queue as operations, the messages that wait, a vote on each market,
    /// and the fed prices that the markets may have after the queue. `NoMemory` where there is none for it.
    #[tactic(auto, unfolding(dx_node_spec::specs::Proposals::proposal_at))]
    fn proposal(&self, time: u32) -> Result<Block, NoMemory>
        ensures is { IfOk result (λ block. block ≡ proposal_at (self.now.committed.clock.height + 1)
            self.now.speculative self.now.queue self.now.book self.now.pool self.now.feed time) }
        ensures short { IfOk result IsShort }
    {
        let alloc = self.allocator();
        Ok(Block {
            height: self.next_height(),
            time,
            ops: self.queue.ops().try_clone()?,
            msgs: self.pool.try_clone()?,
            votes: votes(alloc, &self.work, &self.book)?,
            prices: self.feed.allowed(alloc, &self.work)?,
        })
    }

    /// The block that the node proposes at a time: its queue as operations, the messages that wait, its vote on each
    /// market by number, and by market each fed price that the market may have after the queue ("Proposal" and
    /// "Premium vote of a node" in docs/RULES.md). It is good on the state after the node's blocks, and none
    /// of its lists passes its limit.
    ///
    /// `WrongTime` exactly where the time is not past the committed one, or past 4,000,000,000; `LastHeight`
    /// exactly at the height 4,000,000,000; `NoMemory` where there is none for the block.
    pub fn propose(&self, time: u32) -> Result<Block, ProposeFault>
        requires idle { self.now.again ≡ [] }
        ensures ok { IfOk result (λ block. (p : PlainNode) → StandsFor self.now p → proposed p time ≡ Ok block) }
        ensures refused { IfErr result (λ fault. (p : PlainNode) → StandsFor self.now p
            → ProposeRefused (proposed p time) fault) }
        ensures good { IfOk result (λ block. (p : PlainNode) → StandsFor self.now p
            → IsGoodBlock (committed_of p) block) }
        ensures short { IfOk result IsShort }
    {
        check_time(self.work.committed_clock(), time)?;
        match self.proposal(time) {
            Ok(block) => Ok(block),
            Err(NoMemory) => Err(ProposeFault::NoMemory),
        }
    }

    /// The height of the next block.
    fn next_height(&self) -> u32
        ensures { result ≡ self.now.committed.clock.height + 1 }
    {
        self.work.committed_clock().height + 1
    }

    /// Places a short-term order: it takes what the book offers, the queue gets what it took, and the rest of
    /// it goes where its kind says ("Placing", "Taking" and "What the queue gets" in docs/RULES.md). The resting
    /// order of its id leaves.
    ///
    /// The faults are the first of these that holds: `BadOrder`, `TooFar`, `Expired`, `NotNewer` exactly where the
    /// resting or the last placed order of its id is not older, `AlreadyFilled`, `Cancelled`, `PostOnlyCross`, and
    /// after the taking `QueueFull` or `BookFull`; `NoMemory` at any point. The node is then as before.
    pub fn place(&mut self, o: &Order) -> Result<Placed, PlaceFault>
        requires idle { self.old.again ≡ [] }
        ensures ok { IfOk result (λ placed. (p : PlainNode) → StandsFor self.old p
            → Gives self.new (outcome_of placed) (placed_with p o.now)) }
        ensures refused { IfErr result (λ fault. (p : PlainNode) → StandsFor self.old p
            → PlaceRefused (placed_with p o.now) fault) }
        ensures same { OnErr result (self.new ≡ self.old) }
    {
        let alloc = self.allocator();
        let height = self.next_height();
        let placed = place_at(
            alloc,
            &mut self.work,
            height,
            &mut self.queue,
            &mut self.book,
            &self.cancels,
            o,
        )?;
        Ok(placed)
    }

    /// Sweeps an account: its positions are liquidated against the book while it has less than its maintenance
    /// requirement, and then offset against other accounts while it has less than nothing. The queue gets what was
    /// done, and the answer tells how many fills and offsets it was ("Sweep" in docs/RULES.md).
    ///
    /// `QueueFull` exactly where the queue would pass its limits; `NoMemory` where there is none. The node is then as
    /// before.
    pub fn sweep(&mut self, who: SubaccountId) -> Result<Swept, SweepFault>
        requires idle { self.old.again ≡ [] }
        ensures ok { IfOk result (λ done. (p : PlainNode) → StandsFor self.old p
            → GivesBoth self.new done.fills done.offsets (swept_with p who)) }
        ensures refused { IfErr result (λ fault. (p : PlainNode) → StandsFor self.old p
            → SweepRefused (swept_with p who) fault) }
        ensures same { OnErr result (self.new ≡ self.old) }
    {
        let alloc = self.allocator();
        let swept = sweep_at(alloc, &mut self.work, &mut self.queue, &mut self.book, who)?;
        Ok(swept)
    }

    /// Cancels an order of an id: the cancel is kept, also where no such order rests, and no order of the id that
    /// ends by its height is placed. The resting order of the id leaves where it ends by then; the answer says
    /// whether it did ("Cancelling" in docs/RULES.md).
    ///
    /// The faults are the first of these that holds: `BadUntil` exactly where the height is not from the next one to
    /// 20 later, `NotNewer` exactly where a kept cancel of the id stands as long, `CancelsFull` exactly where none of
    /// the id is kept and 65,536 are; `NoMemory` at any point. The node is then as before.
    pub fn cancel(&mut self, id: &OrderId, until: u32) -> Result<bool, CancelFault>
        requires idle { self.old.again ≡ [] }
        ensures ok { IfOk result (λ ended. (p : PlainNode) → StandsFor self.old p
            → Gives self.new ended (cancelled_with p id.now until)) }
        ensures refused { IfErr result (λ fault. (p : PlainNode) → StandsFor self.old p
            → CancelRefused (cancelled_with p id.now until) fault) }
        ensures same { OnErr result (self.new ≡ self.old) }
    {
        let height = self.next_height();
        check_cancel(height, &self.cancels, id, until)?;
        self.cancels.keep(id, until)?;
        Ok(end_order(&mut self.book, id, until))
    }

    /// Cancels each resting short-term order of an account with its own last height, and tells how many
    /// ("Cancelling" in docs/RULES.md). Each leaves the book.
    ///
    /// `CancelsFull` exactly where more than 65,536 cancels would be kept; `NoMemory` where there is none. The node
    /// is then as before.
    pub fn cancel_all(&mut self, who: SubaccountId) -> Result<u32, CancelFault>
        requires idle { self.old.again ≡ [] }
        ensures ok { IfOk result (λ count. (p : PlainNode) → StandsFor self.old p
            → Gives self.new count (all_cancelled_with p who)) }
        ensures refused { IfErr result (λ fault. (p : PlainNode) → StandsFor self.old p
            → CancelRefused (all_cancelled_with p who) fault) }
        ensures same { OnErr result (self.new ≡ self.old) }
    {
        let alloc = self.allocator();
        let orders = orders_of(alloc, &self.book, who)?;
        let cancels = with_ends(&self.cancels, orders.as_slice())?;
        if cancels.len() > MOST_CANCELS {
            return Err(CancelFault::CancelsFull);
        }
        self.cancels = cancels;
        end_all(&mut self.book, orders.as_slice());
        Ok(count(&orders))
    }
}
