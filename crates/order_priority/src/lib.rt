// Which orders an incoming one meets, and in which order.
#![tactic(auto)]

ghost use Rattle.std.specs.Prelude.{◌≡◌, ◌≤◌};
ghost use Rattle.rules.specs.Ranges.{most_price};
ghost use Rattle.rules.specs.Matching.{opposes, meets};
ghost use Rattle.order_priority.specs.Priority.{Ranked, price_rank, rank_of};

use rules::ranges::{MOST_PRICE, ORDER_NUMBERS_END};
use rules::{Order, Side};
use sides::{is_same_side, other_side};

// Whether the resting order r has the incoming order's contract and the other side. Most have another contract: one
// comparison passes them over.
pub fn does_oppose(o: Order, r: Order) -> bool
    ensures { result ≡ opposes o r }
{
    r.contract == o.contract && is_same_side(r.side, other_side(o.side))
}

// Whether the resting price meets the incoming one.
pub fn does_meet(o: Order, r: Order) -> bool
    ensures { result ≡ meets o r }
{
    match o.side {
        Side::Buy => r.price.0 <= o.price.0,
        Side::Sell => o.price.0 <= r.price.0,
    }
}

fn price_rank(side: Side, price: u64) -> u64
    requires { price ≤ most_price }
    ensures { result ≡ price_rank side price }
{
    match side {
        Side::Buy => MOST_PRICE - price,
        Side::Sell => price,
    }
}

// Best price first, then lower number: the lower rank comes first.
pub fn rank_of(r: Order) -> u64
    requires { Ranked r }
    ensures { result ≡ rank_of r }
{
    price_rank(r.side, r.price.0) * ORDER_NUMBERS_END + r.number
}
