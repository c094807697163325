ghost use Rattle.std.specs.Prelude.{◌≡◌, ◌<◌};
ghost use Rattle.dx_gen.specs.Draws.{Draws as Numbers, stepped, drawn, draws_at, eighth, IsDrawn, step_of, middle_of, kind_of, order_of, place_line};

use crate::lines::Line;
use dx_types::{Kind, Order, OrderId, SHORT_TERM, SubaccountId};

/// The factor of the linear congruential sequence modulo 2^64.
const FACTOR: u64 = 6_364_136_223_846_793_005;

/// The increment of the sequence.
const INCREMENT: u64 = 1_442_695_040_888_963_407;

/// The nodes of the scenario.
const NODES: u32 = 4;

/// The owners of its accounts, numbered from 1.
const OWNERS: u32 = 8;

/// So many orders stand before each round.
pub(crate) const ORDERS_A_ROUND: u32 = 7;

/// The tick of both markets: prices are multiples of this, in subticks.
const TICK: u64 = 100_000;

/// The numbers of which an order is made.
#[derive(Clone, Copy, Debug, PartialEq, Eq)]
pub(crate) struct Draws {
    /// The node that is handed the order, below 4.
    pub node: u32,
    /// One less than the owner, below 8.
    pub owner: u32,
    /// The market, below 2.
    pub market: u32,
    /// 1 for a bid, 0 for an offer.
    pub side: u32,
    /// One less than the size in steps of the market, below 10.
    pub steps: u32,
    /// The ticks above the lowest price, below 21.
    pub level: u32,
    /// How many heights past the next one it lasts, below 5.
    pub lasts: u32,
    /// Below 10; 0 and 1 stand for the kinds that do not rest or only rest.
    pub kind: u32,
}

/// Steps on, and draws a number below a bound.
#[tactic(auto, unfolding(crate::specs::Draws::stepped))]
pub(crate) fn draw(state: &mut u64, below: u32) -> u32
    requires { 0 < below }
    ensures state { state.new ≡ stepped state.old }
    ensures number { result ≡ drawn state.new below }
    ensures below { result < below }
{
    *state = state.wrapping_mul(FACTOR).wrapping_add(INCREMENT);
    ((*state >> 33) % u64::from(below)) as u32
}

/// Draws the numbers of an order, in their order.
#[tactic(auto, unfolding(crate::specs::Draws::draws_at, crate::specs::Draws::eighth))]
fn draw_numbers(state: &mut u64) -> Draws
    ensures numbers { result ≡ draws_at state.old }
    ensures state { state.new ≡ eighth state.old }
    ensures drawn { IsDrawn result }
{
    Draws {
        node: draw(state, NODES),
        owner: draw(state, OWNERS),
        market: draw(state, 2),
        side: draw(state, 2),
        steps: draw(state, 10),
        level: draw(state, 21),
        lasts: draw(state, 5),
        kind: draw(state, 10),
    }
}

/// The step of a market, in base quantums.
fn step_of(market: u32) -> u64
    ensures { result ≡ step_of market }
{
    if market == 0 { 1_000_000 } else { 1_000 }
}

/// The middle of a market's prices, in ticks.
fn middle_of(market: u32) -> u64
    ensures { result ≡ middle_of market }
{
    if market == 0 { 50_000 } else { 30_000 }
}

fn kind_of(number: u32) -> Kind
    ensures { result ≡ kind_of number }
{
    match number {
        0 => Kind::Ioc,
        1 => Kind::PostOnly,
        _ => Kind::Gtc,
    }
}

/// The order that the numbers make, behind so many others.
#[tactic(auto, unfolding(crate::specs::Draws::order_of))]
fn order_of(made: u32, draws: &Draws) -> Order
    requires room { made < 4_294_967_295 }
    requires drawn { IsDrawn draws.now }
    ensures { result ≡ order_of made draws.now }
{
    Order {
        id: OrderId {
            who: SubaccountId {
                owner: 1 + draws.owner,
                number: 0,
            },
            client: made + 1,
            flags: SHORT_TERM,
            market: draws.market,
        },
        buy: draws.side == 1,
        size: step_of(draws.market) * (1 + u64::from(draws.steps)),
        subticks: TICK * (middle_of(draws.market) - 10 + u64::from(draws.level)),
        until: 2 + made / ORDERS_A_ROUND + draws.lasts,
        kind: kind_of(draws.kind),
    }
}

/// Draws the line of the next order, behind so many others.
#[tactic(auto, unfolding(crate::specs::Draws::place_line))]
pub(crate) fn draw_place(state: &mut u64, made: u32) -> Line
    requires { made < 4_294_967_295 }
    ensures line { result ≡ place_line state.old made }
    ensures state { state.new ≡ eighth state.old }
{
    let draws = draw_numbers(state);
    Line::Place {
        node: draws.node,
        order: order_of(made, &draws),
    }
}
