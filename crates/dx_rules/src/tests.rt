//! Blocks on the state of a genesis: the parts that can be bad, and what a good block leaves.

ghost use Rattle.std.specs.Prelude.{IfOk};
ghost use Rattle.dx_rules.specs.Settled.{IsSettled};

use crate::{Applied, BlockFault, apply_block, check_block, genesis_is_settled};
use dx_ledger::{Branch, Ledger};
use dx_sample::genesis;
use dx_state::PlainState;
use dx_types::{
    Block, CONDITIONAL, Kind, List, Markets, Msg, NoMemory, Order, OrderId, PriceUpdate,
    SubaccountId, Vote,
};
use std::alloc::Global;
use std::process::Abort;

// The state before the first block.
fn start(alloc: Global) -> Result<PlainState, NoMemory>
    ensures { IfOk result IsSettled }
{
    genesis_is_settled();
    PlainState::genesis(alloc, &genesis(alloc)?)
}

// A block of so many deposits, a vote and a price.
fn block(
    alloc: Global,
    (height, time): (u32, u32),
    count: u32,
    (market, premium): (u32, i32),
    price: u64,
) -> Result<Block, NoMemory> {
    let mut msgs = List::new(alloc);
    for owner in 0..count {
        msgs.push(Msg::Deposit {
            who: SubaccountId { owner, number: 0 },
            amount: 5,
        })?;
    }
    let mut votes = List::new(alloc);
    votes.push(Vote { market, premium })?;
    let mut prices = List::new(alloc);
    prices.push(PriceUpdate { market: 0, price })?;
    Ok(Block {
        height,
        time,
        ops: List::new(alloc),
        msgs,
        votes,
        prices,
    })
}

fn fault_of(applied: &Result<Applied, BlockFault>) -> Option<BlockFault> {
    match applied {
        Ok(_) => None,
        Err(fault) => Some(*fault),
    }
}

// The part and the code of a fault.
fn part_and_code(fault: Option<BlockFault>) -> Option<(u32, u32)> {
    match fault {
        Some(BlockFault::Bad(bad)) => Some((bad.part, bad.code)),
        _ => None,
    }
}

// The part and the code that a check of a block and the block itself find bad.
fn verdict(rt: &impl Abort, alloc: Global, block: &Block) -> Option<(u32, u32)> {
    match start(alloc) {
        Ok(mut s) => {
            let checked = check_block(alloc, &mut s, block).err();
            let applied = fault_of(&apply_block(alloc, &mut s, block));
            assert_eq!(rt; checked, applied);
            part_and_code(checked)
        }
        Err(NoMemory) => None,
    }
}

#[test]
fn bad_parts_have_codes(rt: HostRuntime) {
    let alloc = rt.alloc();
    // height and time, deposits, market and premium of the vote, price, and the bad part with its code
    let rows: [((u32, u32), u32, (u32, i32), u64, (u32, u32)); 8] = [
        ((2, 0), 257, (1, 0), 0, (0, 26)),
        ((1, 0), 257, (1, 0), 0, (0, 27)),
        ((1, 4_000_000_001), 257, (1, 0), 0, (0, 27)),
        ((1, 1), 257, (1, 0), 0, (0, 25)),
        ((1, 1), 256, (1, 0), 0, (3, 23)),
        ((1, 1), 0, (0, -1_000_001), 0, (3, 23)),
        ((1, 1), 0, (0, 1_000_000), 0, (4, 24)),
        ((1, 1), 0, (0, 1_000_000), 1 << 48, (4, 24)),
    ];
    for (when, deposits, vote, price, bad) in rows {
        match block(alloc, when, deposits, vote, price) {
            Ok(block) => assert_eq!(rt; verdict(&rt, alloc, &block), Some(bad)),
            Err(NoMemory) => assert!(rt; false, "no memory for the block"),
        }
    }
}

// The results of a block, and the samples of market 0 after it.
fn outcome(rt: &impl Abort, alloc: Global, block: &Block, results: &[u32], sample: i32) {
    match start(alloc) {
        Ok(mut s) => {
            assert!(rt; check_block(alloc, &mut s, block).is_ok());
            match apply_block(alloc, &mut s, block) {
                Ok(applied) => assert!(rt; applied.results.as_slice() == results),
                Err(fault) => assert!(rt; false, "refused: {fault:?}"),
            }
            assert!(rt; s.votes(0).is_empty());
            assert!(rt; s.samples(0).as_slice() == [sample].as_slice());
        }
        Err(NoMemory) => assert!(rt; false, "no memory for the state"),
    }
}

#[test]
fn vote_becomes_a_sample(rt: HostRuntime) {
    let alloc = rt.alloc();
    match block(alloc, (1, 60), 2, (0, -480), 7) {
        Ok(block) => outcome(&rt, alloc, &block, &[0, 0], -480),
        Err(NoMemory) => assert!(rt; false, "no memory for the block"),
    }
}

// The client's conditional order: it buys a step once the price is at the trigger or above it.
const WAITING: Order = Order {
    id: OrderId {
        who: SubaccountId {
            owner: 0,
            number: 0,
        },
        client: 1,
        flags: CONDITIONAL,
        market: 0,
    },
    buy: true,
    size: 1_000_000,
    subticks: 5_100_000_000,
    until: 100,
    kind: Kind::Gtc,
};

// A block of one deposit, the conditional order and a price.
fn conditional_block(alloc: Global, price: u64) -> Result<Block, NoMemory> {
    let mut made = block(alloc, (1, 1), 1, (0, 0), price)?;
    made.msgs.push(Msg::PlaceConditional {
        order: WAITING,
        above: true,
        trigger: 5_050_000_000,
    })?;
    Ok(made)
}

// How many orders each of two blocks triggers.
fn triggered_by<L: Branch>(
    alloc: Global,
    l: &mut L,
    first: &Block,
    second: &Block,
) -> Result<(usize, usize), BlockFault>
    requires { IsSettled (L.content l.old) }
{
    let before = apply_block(alloc, l, first)?;
    let after = apply_block(alloc, l, second)?;
    Ok((before.triggered.len(), after.triggered.len()))
}

// A block in which the client's order is to wait, and one whose price meets its trigger.
fn waiting_blocks(alloc: Global) -> Result<(Block, Block), NoMemory> {
    let first = conditional_block(alloc, 5_049_999_999)?;
    let second = block(alloc, (2, 2), 0, (0, 0), 5_050_000_000)?;
    Ok((first, second))
}

#[test]
fn order_waits_for_its_price(rt: HostRuntime) {
    let alloc = rt.alloc();
    let Ok(blocks) = waiting_blocks(alloc) else {
        return assert!(rt; false, "no memory for the blocks");
    };
    match start(alloc) {
        Ok(mut s) => {
            let triggered = triggered_by(alloc, &mut s, &blocks.0, &blocks.1);
            assert_eq!(rt; triggered, Ok((0, 1)));
            assert!(rt; s.waiting(&WAITING.id).is_none());
            assert!(rt; s.stateful(&WAITING.id) == Some(WAITING));
        }
        Err(NoMemory) => assert!(rt; false, "no memory for the state"),
    }
}
