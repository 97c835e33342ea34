// Deals as they are kept until they are booked: a column with three places for each.
ghost use Rattle.std.specs.Prelude.{◌≡◌, ◌+◌, ◌*◌, ◌≤◌, ◌<◌, length};
ghost use Rattle.arith.specs.Lists.{over};
ghost use Rattle.rules.specs.Ranges.{most_lots};
ghost use Rattle.matching.specs.Deals.{deal_width, deal_places, deal_at};

use rules::{Kurus, Lots};

pub const DEAL_WIDTH: usize = 3;

const DEAL_MEMBER: usize = 0;

const DEAL_PRICE: usize = 1;

const DEAL_LOTS: usize = 2;

// The other party of a deal, with the resting price and the deal's lots.
#[derive(Clone, Copy)]
pub struct Counterparty {
    pub member: u64,
    pub price: Kurus,
    pub lots: Lots,
}

pub fn deal_at(deals: &[u64], k: usize) -> Counterparty
    requires { (k < most_lots) × (most_lots * deal_width ≤ length deals.now) }
    ensures { result ≡ deal_at deals.now k }
{
    let at = k * DEAL_WIDTH;
    Counterparty {
        member: deals[at + DEAL_MEMBER],
        price: Kurus(deals[at + DEAL_PRICE]),
        lots: Lots(deals[at + DEAL_LOTS]),
    }
}

pub fn put_deal(deals: &mut [u64], k: usize, d: Counterparty)
    requires { (k < most_lots) × (most_lots * deal_width ≤ length deals.old) }
    ensures { deals.new ≡ over (k * deal_width) (deal_places d) deals.old }
{
    let at = k * DEAL_WIDTH;
    deals[at + DEAL_MEMBER] = d.member;
    deals[at + DEAL_PRICE] = d.price.0;
    deals[at + DEAL_LOTS] = d.lots.0;
}
