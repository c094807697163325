//! Each call once, over a queue with operations of each kind.

use crate::{Queue, QueueFault};
use dx_types::{Fill, Kind, List, NoMemory, Offset, Op, Order, OrderId, SubaccountId};
use std::alloc::Global;

fn account(owner: u32) -> SubaccountId {
    SubaccountId { owner, number: 0 }
}

fn id(owner: u32) -> OrderId {
    OrderId {
        who: account(owner),
        client: 7,
        flags: 0,
        market: 1,
    }
}

fn order(owner: u32, size: u64) -> Order {
    Order {
        id: id(owner),
        buy: true,
        size,
        subticks: 100_000,
        until: 10,
        kind: Kind::Gtc,
    }
}

// A fill of each maker, in this order.
fn fills(alloc: Global, makers: &[u32]) -> Result<List<Fill>, NoMemory> {
    let mut fills = List::new(alloc);
    for maker in makers {
        fills.push(Fill {
            maker: id(*maker),
            amount: 1_000_000,
        })?;
    }
    Ok(fills)
}

fn offsets(alloc: Global) -> Result<List<Offset>, NoMemory> {
    let mut offsets = List::new(alloc);
    offsets.push(Offset {
        who: account(3),
        amount: 1_000_000,
    })?;
    Ok(offsets)
}

// An operation of each kind, and an order that is placed anew.
fn each_kind(alloc: Global) -> Result<List<Op>, NoMemory> {
    let mut ops = List::new(alloc);
    ops.push(Op::Place(order(30, 1)))?;
    ops.push(Op::Remove(id(9)))?;
    ops.push(Op::Match {
        taker: id(1),
        fills: fills(alloc, &[5, 2, 5])?,
    })?;
    ops.push(Op::Liquidate {
        who: account(40),
        market: 1,
        fills: fills(alloc, &[2, 7, 1])?,
    })?;
    ops.push(Op::Delever {
        who: account(8),
        market: 1,
        offsets: offsets(alloc)?,
    })?;
    ops.push(Op::Place(order(30, 2)))?;
    Ok(ops)
}

fn pushed(queue: &mut Queue, ops: Result<List<Op>, NoMemory>) -> Result<(), QueueFault> {
    queue.push(&ops?)
}

#[test]
fn holds_operations(rt: HostRuntime) {
    let alloc = rt.alloc();
    let mut queue = Queue::new(alloc);
    assert_eq!(rt; pushed(&mut queue, each_kind(alloc)), Ok(()));
    assert_eq!(rt; queue.ops().len(), 6);
    assert_eq!(rt; queue.placed(&id(30)), Some(order(30, 2)));
    for (k, owner) in [(0, 9), (1, 5), (2, 2), (3, 1), (4, 7)] {
        assert_eq!(rt; queue.named(k), Some(id(owner)), "number {k}");
    }
    assert_eq!(rt; queue.named(5), None);
    queue.clear();
    assert!(rt; queue.ops().is_empty());
    assert_eq!(rt; queue.placed(&id(30)), None);
}
