//! What one node does, and its answer.

ghost use Rattle.std.specs.Prelude.{◌≡◌, ◌≤◌, [], ◌∷◌, Some, IfOk, OnOk, IfErr, OnErr, IsErrOf};
ghost use Rattle.dx_node_spec.specs.Node.{Node as PlainNode};
ghost use Rattle.dx_node_spec.specs.Commits.{placed_again};
ghost use Rattle.dx_node.specs.Standing.{StandsFor};
ghost use Rattle.dx_node.specs.Trades.{outcome_of};
ghost use Rattle.dx_cluster.specs.Acts.{outcome_answer, place_order, cancel_order, cancel_orders, feed_price, pool_message, sweep_account, check_slot, commit_slot, best_answer, tell_balance, tell_speculative, tell_filled, tell_best, tell_audit, tell_digest, tell_waits, waits_answer, show_slot};
ghost use Rattle.dx_cluster.specs.World.{Acts, IsOutside};
ghost use Rattle.dx_cluster.specs.Starts.{KeepsBlock, MayKeepBlock};
ghost use Rattle.dx_cluster.specs.Refusals.{AnswersBlock, AnswersCause, AnswersCommit, cause_answer};
ghost use Rattle.dx_io.specs.Causes.{KeepsCount, Rose};

use crate::fault::StartFault;
use dx_codec::encode_block;
use dx_io::Keeper;
use dx_node::{CommitFault, Node, Placed, Refusal};
use dx_print::Answer;
use dx_rules::BlockFault;
use dx_types::{Block, List, Msg, NoMemory, Order, OrderId, SubaccountId, Waiting};
use std::alloc::Global;

/// The refusal of a market that is unknown.
const NO_MARKET: Refusal = Refusal {
    number: 1,
    value: None,
};

/// The answer that an event is refused for a cause.
pub(crate) fn refused(cause: Refusal) -> Answer
    ensures { result ≡ cause_answer cause }
{
    Answer::Refused {
        number: cause.number,
        value: cause.value,
    }
}

/// The answer that an event is refused for a cause; none is there where there was no memory.
pub(crate) fn refused_or_memory(cause: Option<Refusal>) -> Result<Answer, NoMemory>
    ensures { AnswersCause cause result }
{
    match cause {
        Some(cause) => Ok(refused(cause)),
        None => Err(NoMemory),
    }
}

/// The answer to an order that was placed.
fn outcome_answer(placed: Placed) -> Answer
    ensures { result ≡ outcome_answer (outcome_of placed) }
{
    match placed {
        Placed::Filled => Answer::Filled,
        Placed::Rested { filled } => Answer::Rested { filled },
        Placed::Dropped { filled } => Answer::Dropped { filled },
        Placed::Stopped { filled, code } => Answer::Stopped { filled, code },
    }
}

/// A node takes an order.
pub(crate) fn place_order(node: &mut Node, order: &Order) -> Result<Answer, NoMemory>
    requires idle { node.old.again ≡ [] }
    ensures { IfOk result (λ answer. Acts (place_order order.now) node.old node.new answer) }
{
    match node.place(order) {
        Ok(placed) => Ok(outcome_answer(placed)),
        Err(fault) => refused_or_memory(fault.refusal()),
    }
}

/// A node cancels a short-term order: 1 where a resting one left for it, else 0.
pub(crate) fn cancel_order(node: &mut Node, id: &OrderId, until: u32) -> Result<Answer, NoMemory>
    requires idle { node.old.again ≡ [] }
    ensures { IfOk result (λ answer. Acts (cancel_order id.now until) node.old node.new answer) }
{
    match node.cancel(id, until) {
        Ok(left) => Ok(Answer::Done(Some(u32::from(left)))),
        Err(fault) => refused_or_memory(fault.refusal()),
    }
}

/// A node cancels the resting short-term orders of an account, and tells how many.
pub(crate) fn cancel_orders(node: &mut Node, who: SubaccountId) -> Result<Answer, NoMemory>
    requires idle { node.old.again ≡ [] }
    ensures { IfOk result (λ answer. Acts (cancel_orders who) node.old node.new answer) }
{
    match node.cancel_all(who) {
        Ok(count) => Ok(Answer::Done(Some(count))),
        Err(fault) => refused_or_memory(fault.refusal()),
    }
}

/// A node is fed a price.
pub(crate) fn feed_price(node: &mut Node, market: u32, price: u64) -> Answer
    requires idle { node.old.again ≡ [] }
    ensures { Acts (feed_price market price) node.old node.new result }
{
    match node.feed(market, price) {
        Ok(()) => Answer::Done(None),
        Err(fault) => refused(fault.refusal()),
    }
}

/// A node gets a message into its pool.
pub(crate) fn pool_message(node: &mut Node, msg: &Msg) -> Result<Answer, NoMemory>
    requires idle { node.old.again ≡ [] }
    ensures { IfOk result (λ answer. Acts (pool_message msg.now) node.old node.new answer) }
{
    match node.message(msg) {
        Ok(()) => Ok(Answer::Done(None)),
        Err(fault) => refused_or_memory(fault.refusal()),
    }
}

/// A node sweeps an account, and tells how many fills liquidated it and how many offsets deleveraged it.
pub(crate) fn sweep_account(node: &mut Node, who: SubaccountId) -> Result<Answer, NoMemory>
    requires idle { node.old.again ≡ [] }
    ensures { IfOk result (λ answer. Acts (sweep_account who) node.old node.new answer) }
{
    match node.sweep(who) {
        Ok(swept) => Ok(Answer::Swept {
            fills: swept.fills,
            offsets: swept.offsets,
        }),
        Err(fault) => refused_or_memory(fault.refusal()),
    }
}

/// The answer to a block that is not good, or that there was no memory.
fn block_refusal(fault: BlockFault) -> Result<Answer, NoMemory>
    ensures { AnswersBlock fault result }
{
    match fault {
        BlockFault::Bad(bad) => Ok(Answer::Bad(bad)),
        BlockFault::NoMemory => Err(NoMemory),
    }
}

/// A node tests a block, and stays as it was.
pub(crate) fn check_block(alloc: Global, node: &mut Node, block: &Block) -> Result<Answer, NoMemory>
    requires idle { node.old.again ≡ [] }
    ensures { IfOk result (λ answer. Acts (check_slot (Some block.now)) node.old node.new answer) }
{
    match node.check(block) {
        Ok(()) => Ok(Answer::Good(List::new(alloc))),
        Err(fault) => block_refusal(fault),
    }
}

/// The height of a good block, and then the results of its messages.
fn good_numbers(height: u32, results: &List<u32>) -> Result<List<u32>, NoMemory>
    ensures { IfOk result (λ numbers. numbers ≡ height ∷ results.now) }
{
    let mut numbers = Vec::new(results.allocator());
    numbers.push(height)?;
    numbers.extend_from_slice(results.as_slice())?;
    Ok(List::from_vec(numbers))
}

/// Places all orders of a node's list again, one after another: each turn takes the first.
pub(crate) fn place_list_again(node: &mut Node) -> Result<(), NoMemory>
    ensures { OnOk result ((p : PlainNode) → StandsFor node.old p → StandsFor node.new (placed_again p)) }
{
    'turns: for _turn in 0..node.pending() {
        node.replay_next()?;
    }
    Ok(())
}

/// The answer to a block that is not committed; none is there where the keeper failed or there was no memory.
fn commit_refusal(fault: CommitFault) -> Result<Answer, StartFault>
    ensures { AnswersCommit fault result }
{
    match fault {
        CommitFault::Bad(bad) => Ok(Answer::Bad(bad)),
        CommitFault::KeepFault => Err(StartFault::KeepFault),
        CommitFault::NoMemory => Err(StartFault::NoMemory),
    }
}

/// A node commits a block, whose bytes become one of its rows, and places its orders again.
pub(crate) fn commit_block<K: Keeper>(
    node: &mut Node,
    block: &Block,
    keeper: &mut K,
) -> Result<Answer, StartFault>
    requires idle { node.old.again ≡ [] }
    ensures done { IfOk result (λ answer. Acts (commit_slot (Some block.now)) node.old node.new answer) }
    ensures kept { OnOk result ((p : PlainNode) → StandsFor node.old p
        → KeepsBlock (K.rows keeper.old) (K.rows keeper.new) p block.now) }
    ensures outside { IfErr result IsOutside }
    ensures either { OnErr result ((p : PlainNode) → StandsFor node.old p
        → MayKeepBlock (K.rows keeper.old) (K.rows keeper.new) p block.now) }
    ensures good { KeepsCount (K.faults keeper.old) (K.faults keeper.new) result }
    ensures later { K.faults keeper.old ≤ K.faults keeper.new }
    ensures failed { IsErrOf result StartFault.KeepFault → Rose (K.faults keeper.old) (K.faults keeper.new) }
{
    match node.commit(block, keeper) {
        Ok(results) => {
            let numbers = good_numbers(block.height, &results)?;
            place_list_again(node)?;
            Ok(Answer::Good(numbers))
        }
        Err(fault) => commit_refusal(fault),
    }
}

/// A node tells an account's committed balance.
pub(crate) fn tell_balance(node: &Node, who: SubaccountId) -> Answer
    ensures { Acts (tell_balance who) node.now node.now result }
{
    match node.committed_account(who) {
        Some(account) => Answer::Balance {
            height: node.height(),
            account,
        },
        None => Answer::Absent,
    }
}

/// A node tells an account's balance after its queue, with the committed height.
pub(crate) fn tell_speculative(node: &Node, who: SubaccountId) -> Answer
    ensures { Acts (tell_speculative who) node.now node.now result }
{
    match node.speculative_account(who) {
        Some(account) => Answer::Balance {
            height: node.height(),
            account,
        },
        None => Answer::Absent,
    }
}

/// A node tells how much of an order is filled.
pub(crate) fn tell_filled(node: &Node, id: &OrderId) -> Answer
    ensures { Acts (tell_filled id.now) node.now node.now result }
{
    let (committed, speculative) = node.filled(id);
    Answer::Amounts {
        committed,
        speculative,
    }
}

/// The answer about an order that may wait for its trigger.
fn waits_answer(waiting: Option<Waiting>) -> Answer
    ensures { result ≡ waits_answer waiting }
{
    match waiting {
        Some(waiting) => Answer::Waits {
            above: waiting.above,
            trigger: waiting.trigger,
        },
        None => Answer::Absent,
    }
}

/// A node tells for which trigger an order waits in its committed state.
pub(crate) fn tell_waits(node: &Node, id: &OrderId) -> Answer
    ensures { Acts (tell_waits id.now) node.now node.now result }
{
    waits_answer(node.waiting(id))
}

/// The answer about the best orders of a market, which may be unknown.
fn best_answer(levels: Option<[u64; 4]>) -> Answer
    ensures { result ≡ best_answer levels }
{
    match levels {
        Some(levels) => Answer::Best(levels),
        None => refused(NO_MARKET),
    }
}

/// A node tells the best orders of a market.
pub(crate) fn tell_best(node: &Node, market: u32) -> Answer
    ensures { Acts (tell_best market) node.now node.now result }
{
    best_answer(node.best(market))
}

/// A node tells the numbers of its committed state.
pub(crate) fn tell_audit(node: &Node) -> Answer
    ensures { Acts tell_audit node.now node.now result }
{
    Answer::Audit(node.audit())
}

/// The bytes of a block that a slot has. `NoMemory` where there is none for them.
pub(crate) fn show_block(alloc: Global, block: &Block) -> Result<Answer, NoMemory>
    ensures { IfOk result (λ answer. answer ≡ show_slot (Some block.now)) }
{
    Ok(Answer::Bytes(encode_block(alloc, block)?))
}

/// A node tells the digest of its committed state. `NoMemory` where there is none for the bytes of the state.
pub(crate) fn tell_digest(node: &Node) -> Result<Answer, NoMemory>
    ensures { IfOk result (λ answer. Acts tell_digest node.now node.now answer) }
{
    let digest = node.digest()?;
    Ok(Answer::Digest {
        height: node.height(),
        digest,
    })
}
