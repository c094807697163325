//! Votes that were worked out by hand, over a plain state.

ghost use Rattle.std.specs.Prelude.{◌<◌, ◌≤◌, ◌^◌, IsTrue, IfOk};
ghost use Rattle.dx_impact.specs.Ranges.{HasMarket, HasPrices, IsPriced};

use crate::{impact_base, vote};
use dx_book::{Book, uncounted};
use dx_sample::genesis;
use dx_state::PlainState;
use dx_types::{Kind, NoMemory, Order, OrderId, SubaccountId};
use std::alloc::Global;
use std::process::Abort;
use std::test::Fail;

// The state before the first block.
#[tactic(auto, using(crate::proofs::Starting::genesis_has_market))]
fn start(alloc: Global) -> Result<PlainState, NoMemory>
    ensures { IfOk result (λ s. HasMarket s.markets 0) }
{
    PlainState::genesis(alloc, &genesis(alloc)?)
}

// An order of the account of an owner in market 0.
fn order(owner: u32, buy: bool, size: u64, subticks: u64) -> Order {
    Order {
        id: OrderId {
            who: SubaccountId { owner, number: 0 },
            client: 1,
            flags: 0,
            market: 0,
        },
        buy,
        size,
        subticks,
        until: 10,
        kind: Kind::Gtc,
    }
}

// Whether the size and the price of an order are in their bounds.
fn is_priced(o: &Order) -> bool
    ensures { IsTrue result → IsPriced o.now }
{
    o.size < 1 << 48 && 1 <= o.subticks && o.subticks < 1 << 40
}

// Puts an order into a book.
#[tactic(auto, using(crate::proofs::Starting::one_more_priced))]
fn rest(rt: &impl Abort, b: &mut Book, o: &Order) -> Result<(), Fail>
    requires { HasPrices b.old.orders }
    ensures { HasPrices b.new.orders }
{
    b.reserve()?;
    assert!(rt; is_priced(o));
    assert!(rt; b.find(&o.id).is_none());
    uncounted::add(b, o);
    Ok(())
}

// The book of some orders.
fn book(rt: &impl Abort, alloc: Global, orders: &[Order]) -> Result<Book, Fail>
    ensures { IfOk result (λ b. HasPrices b.orders) }
{
    let mut b = Book::new(alloc);
    for o in orders {
        rest(rt, &mut b, o)?;
    }
    Ok(b)
}

#[test]
fn votes_by_hand(rt: HostRuntime) -> Result<(), Fail> {
    let s = start(rt.alloc())?;
    let b = book(
        &rt,
        rt.alloc(),
        &[order(1, true, 100_000_000, 5_050_000_000)],
    )?;
    assert_eq!(rt; impact_base(&b, &s, 0, true), Some(99_009_901));
    assert_eq!(rt; impact_base(&b, &s, 0, false), None);
    assert_eq!(rt; vote(&b, &s, 0), 9_999);
    let orders = [
        order(1, true, 100_000_000, 5_000_000_000),
        order(2, true, 50_000_000, 5_050_000_000),
        order(3, false, 200_000_000, 4_950_000_000),
    ];
    let b = book(&rt, rt.alloc(), &orders)?;
    assert_eq!(rt; impact_base(&b, &s, 0, true), Some(99_500_000));
    assert_eq!(rt; impact_base(&b, &s, 0, false), Some(101_010_102));
    assert_eq!(rt; vote(&b, &s, 0), -4_975);
    Ok(())
}
