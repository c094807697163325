//! A feeder and a follower over an order that comes, is filled and goes.

ghost use Rattle.std.specs.Prelude.{◌≡◌, [], ◌∷◌, IfOk};

use crate::{Change, Feeder, FollowFault, Follower};
use dx_types::{Kind, List, NoMemory, Order, OrderId, Shown, SubaccountId};
use std::alloc::Global;

fn id(client: u32) -> OrderId {
    OrderId {
        who: SubaccountId {
            owner: 2,
            number: 0,
        },
        client,
        flags: 0,
        market: 0,
    }
}

fn shown(client: u32, left: u64) -> Shown {
    Shown {
        order: Order {
            id: id(client),
            buy: false,
            size: 10_000_000_000,
            subticks: 5_000_000_000,
            until: 10,
            kind: Kind::Gtc,
        },
        left,
    }
}

// A list of one order.
fn one(alloc: Global, shown: Shown) -> Result<List<Shown>, NoMemory>
    ensures { IfOk result (λ list. list ≡ shown ∷ []) }
{
    let mut list = List::new(alloc);
    list.push(shown)?;
    Ok(list)
}

// What a feeder tells of a list of one order that was cleared.
fn told(alloc: Global, feeder: &mut Feeder, shown: Shown) -> Result<List<Change>, NoMemory> {
    feeder.step(&one(alloc, shown)?, true)
}

// The changes are that the list was cleared, and that just this order came.
fn is_one_order(told: Result<List<Change>, NoMemory>, shown: Shown) -> bool {
    match told {
        Ok(told) => {
            told.len() == 2
                && told.get(0) == Some(&Change::Clear)
                && told.get(1) == Some(&Change::Add(shown))
        }
        Err(NoMemory) => false,
    }
}

fn has_just(follower: &Follower, shown: Shown) -> bool {
    follower.list().len() == 1 && follower.list().get(0) == Some(&shown)
}

#[test]
fn tells_a_list(rt: HostRuntime) {
    let alloc = rt.alloc();
    let mut feeder = Feeder::new(alloc);
    let first = shown(1, 10_000_000_000);
    let changes = told(alloc, &mut feeder, first);
    assert!(rt; is_one_order(changes, first));
}

#[test]
fn follows_an_order(rt: HostRuntime) {
    let mut follower = Follower::new(rt.alloc());
    let first = shown(1, 10_000_000_000);
    let filled = Change::Left {
        id: id(1),
        left: 4_000_000_000,
    };
    assert_eq!(rt; follower.apply(&filled), Err(FollowFault::NoSuch));
    assert_eq!(rt; follower.apply(&Change::Add(first)), Ok(()));
    assert_eq!(rt;
        follower.apply(&Change::Add(shown(1, 7))),
        Err(FollowFault::Held)
    );
    assert!(rt; has_just(&follower, first));
    assert_eq!(rt; follower.apply(&filled), Ok(()));
    assert!(rt; has_just(&follower, shown(1, 4_000_000_000)));
    assert_eq!(rt;
        follower.apply(&Change::Gone(id(2))),
        Err(FollowFault::NoSuch)
    );
    assert_eq!(rt; follower.apply(&Change::Gone(id(1))), Ok(()));
    assert_eq!(rt; follower.list().len(), 0);
    assert_eq!(rt; follower.apply(&Change::Add(shown(2, 7))), Ok(()));
    assert_eq!(rt; follower.apply(&Change::Clear), Ok(()));
    assert_eq!(rt; follower.list().len(), 0);
}
