//! The statements of two chains: a trade of the first market, and one of the second with an hour of funding.

ghost use Rattle.std.specs.Prelude.{None, IfOk};
ghost use Rattle.dx_spec.specs.Genesis.{IsGenesis, IsMarketParams, IsScale};
ghost use Rattle.dx_rules.specs.Settled.{IsSettled};

use dx_ledger::Ledger;
use dx_lines::Line;
use dx_rules::genesis_is_settled;
use dx_sample::{genesis_of, market};
use dx_state::PlainState;
use dx_statement::statement;
use dx_types::{
    Block, CONDITIONAL, Fill, Genesis, Kind, List, MarketParams, Msg, NoMemory, Op, Order, OrderId,
    PriceUpdate, SubaccountId, Vote,
};
use std::alloc::Global;
use std::process::Abort;

// A market in which a base quantum is worth 3 quote quantums.
fn second() -> MarketParams
    ensures ranges { IsMarketParams result }
    ensures unscaled { IsScale None result }
{
    MarketParams {
        atomic: -9,
        conversion: -9,
        step: 1_000,
        tick: 100_000,
        price_exponent: -6,
        price: 3_000_000_000,
        initial: 50_000,
        maintenance: 600_000,
        impact: 500_000_000,
        rate_cap: 1_000_000,
        lower: 0,
        upper: 0,
    }
}

// A genesis of two markets.
fn genesis(alloc: Global) -> Result<Genesis, NoMemory>
    ensures { IfOk result IsGenesis }
{
    let mut markets = List::new(alloc);
    markets.push(market())?;
    markets.push(second())?;
    Ok(genesis_of(markets))
}

// The state before the first block.
fn start(alloc: Global) -> Result<PlainState, NoMemory>
    ensures { IfOk result IsSettled }
{
    genesis_is_settled();
    PlainState::genesis(alloc, &genesis(alloc)?)
}

fn who(owner: u32) -> SubaccountId {
    SubaccountId { owner, number: 0 }
}

fn id(owner: u32, market: u32) -> OrderId {
    OrderId {
        who: who(owner),
        client: 1,
        flags: 0,
        market,
    }
}

fn order(owner: u32, market: u32, buy: bool, size: u64, subticks: u64) -> Order {
    Order {
        id: id(owner, market),
        buy,
        size,
        subticks,
        until: 10,
        kind: Kind::Gtc,
    }
}

// A block of deposits of an amount to the accounts 1 and 2.
fn deposits(alloc: Global, height: u32, time: u32, amount: u64) -> Result<Block, NoMemory> {
    let mut msgs = List::new(alloc);
    msgs.push(Msg::Deposit {
        who: who(1),
        amount,
    })?;
    msgs.push(Msg::Deposit {
        who: who(2),
        amount,
    })?;
    Ok(Block {
        height,
        time,
        ops: List::new(alloc),
        msgs,
        votes: List::new(alloc),
        prices: List::new(alloc),
    })
}

// A block in which account 1 buys from account 2.
fn trade(alloc: Global, market: u32, size: u64, subticks: u64) -> Result<Block, NoMemory> {
    let mut fills = List::new(alloc);
    fills.push(Fill {
        maker: id(2, market),
        amount: size,
    })?;
    let mut ops = List::new(alloc);
    ops.push(Op::Place(order(2, market, false, size, subticks)))?;
    ops.push(Op::Place(order(1, market, true, size, subticks)))?;
    ops.push(Op::Match {
        taker: id(1, market),
        fills,
    })?;
    Ok(Block {
        height: 2,
        time: 2,
        ops,
        msgs: List::new(alloc),
        votes: List::new(alloc),
        prices: List::new(alloc),
    })
}

// A block of nothing but a vote for market 1, where it is not 0.
fn vote(alloc: Global, height: u32, time: u32, premium: i32) -> Result<Block, NoMemory> {
    let mut votes = List::new(alloc);
    if premium != 0 {
        votes.push(Vote { market: 1, premium })?;
    }
    Ok(Block {
        height,
        time,
        ops: List::new(alloc),
        msgs: List::new(alloc),
        votes,
        prices: List::new(alloc),
    })
}

// The id of a conditional order of account 1.
fn conditional_id() -> OrderId {
    OrderId {
        flags: CONDITIONAL,
        ..id(1, 0)
    }
}

// A block in which account 1 places a conditional order and account 2 pays in 5, with a price that meets the trigger.
fn conditional(alloc: Global) -> Result<Block, NoMemory> {
    let (size, price) = (1_000_000, 5_050_000_000);
    let mut waiting = order(1, 0, true, size, price);
    waiting.id = conditional_id();
    waiting.until = 100;
    let mut msgs = List::new(alloc);
    msgs.push(Msg::PlaceConditional {
        order: waiting,
        above: true,
        trigger: price,
    })?;
    msgs.push(Msg::Deposit {
        who: who(2),
        amount: 5,
    })?;
    let mut prices = List::new(alloc);
    prices.push(PriceUpdate { market: 0, price })?;
    Ok(Block {
        height: 3,
        time: 3,
        ops: List::new(alloc),
        msgs,
        votes: List::new(alloc),
        prices,
    })
}

fn line(owner: u32, cause: u32, market: u32, size: i64, amount: i64) -> Line {
    Line {
        who: who(owner),
        cause,
        market,
        size,
        amount,
    }
}

// Applies a block, and compares its lines.
fn has_lines(
    rt: &impl Abort,
    alloc: Global,
    s: &mut PlainState,
    block: Result<Block, NoMemory>,
    lines: &[Line],
)
    requires { IsSettled s.old }
    ensures { IsSettled s.new }
{
    match block {
        Ok(block) => match statement(alloc, s, &block) {
            Ok(told) => assert!(rt; told.as_slice() == lines),
            Err(fault) => assert!(rt; false, "refused: {fault:?}"),
        },
        Err(NoMemory) => assert!(rt; false, "no memory for the block"),
    }
}

// The blocks and lines of a chain, on the state before the first block.
fn trade_told(rt: &impl Abort, alloc: Global, s: &mut PlainState)
    requires { IsSettled s.old }
{
    let paid_in = [
        line(1, 1, 0, 0, 10_000_000_000),
        line(2, 1, 0, 0, 10_000_000_000),
    ];
    let traded = [
        line(1, 5, 0, 10_000_000_000, -50_025_000_000),
        line(2, 5, 0, -10_000_000_000, 49_990_000_000),
    ];
    has_lines(
        rt,
        alloc,
        s,
        deposits(alloc, 1, 1, 10_000_000_000),
        &paid_in,
    );
    has_lines(
        rt,
        alloc,
        s,
        trade(alloc, 0, 10_000_000_000, 5_000_000_000),
        &traded,
    );
    // neither the conditional order nor its trigger has a line
    has_lines(rt, alloc, s, conditional(alloc), &[line(2, 1, 0, 0, 5)]);
    assert!(rt; s.stateful(&conditional_id()).is_some());
}

fn funding_told(rt: &impl Abort, alloc: Global, s: &mut PlainState)
    requires { IsSettled s.old }
{
    let paid_in = [
        line(1, 1, 0, 0, 10_000_000_000),
        line(2, 1, 0, 0, 10_000_000_000),
    ];
    let traded = [line(1, 5, 1, 1_000, -3_002), line(2, 5, 1, -1_000, 2_999)];
    let funded = [
        line(1, 4, 1, 0, -1),
        line(1, 1, 0, 0, 1),
        line(2, 1, 0, 0, 1),
    ];
    has_lines(
        rt,
        alloc,
        s,
        deposits(alloc, 1, 1, 10_000_000_000),
        &paid_in,
    );
    has_lines(rt, alloc, s, trade(alloc, 1, 1_000, 3_000_000_000), &traded);
    has_lines(rt, alloc, s, vote(alloc, 3, 60, 480), &[]);
    has_lines(rt, alloc, s, vote(alloc, 4, 3_600, 0), &[]);
    has_lines(rt, alloc, s, deposits(alloc, 5, 3_601, 1), &funded);
}

#[test]
fn trade_has_a_line_for_each_side(rt: HostRuntime) {
    let alloc = rt.alloc();
    match start(alloc) {
        Ok(mut s) => trade_told(&rt, alloc, &mut s),
        Err(NoMemory) => assert!(rt; false, "no memory for the state"),
    }
}

#[test]
fn funding_has_a_line_of_its_own(rt: HostRuntime) {
    let alloc = rt.alloc();
    match start(alloc) {
        Ok(mut s) => funding_told(&rt, alloc, &mut s),
        Err(NoMemory) => assert!(rt; false, "no memory for the state"),
    }
}
