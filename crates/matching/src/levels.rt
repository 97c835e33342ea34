// Matching: the orders of the book in their priority, price level by price level.
ghost use Rattle.std.specs.Prelude.{◌≡◌, map, ◌*◌, ◌≤◌, ◌<◌, length};
ghost use Rattle.rules.specs.Ranges.{most_lots, most_orders};
ghost use Rattle.rules.specs.Ledger.{book_length, order_at};
ghost use Rattle.tables.specs.Fit.{orders_in};
ghost use Rattle.matching.specs.Deals.{deal_width};
ghost use Rattle.matching.specs.Matching.{DealMade, Matchable, MatchMade};
ghost use Rattle.matching.specs.Ranks.{lots_of, first_rank, Placed, BlockLows};

use crate::columns::{BLOCKS, NO_RANK, best_place, use_lots, write_columns, write_lows};
use crate::deals::{Counterparty, put_deal};
use order_book::order_at;
use order_priority::does_meet;
use rules::layout::ORDERS;
use rules::{Lots, Order};

// The number of deals, and what is left of the incoming order.
#[derive(Clone, Copy)]
pub struct Matched {
    pub deals: usize,
    pub left: Lots,
}

// Makes a deal with the order at i, for the smaller of its lots and those wanted. The answer is what is still wanted.
fn deal(
    book: &[u64],
    left: &mut [u64],
    ranks: &mut [u64],
    lows: &mut [u64],
    deals: &mut [u64],
    k: usize,
    i: usize,
    wanted: Lots,
) -> Lots
    requires i_in_bounds { (i < length left.old) × (length left.old ≤ most_orders) × (length ranks.old ≡ most_orders) × (book_length ≤ length book.now) × BlockLows ranks.old lows.old }
    requires k_lt_most_lots { (k < most_lots) × (most_lots * deal_width ≤ length deals.old) }
    ensures deal_made { DealMade book.now k i wanted.0 left.old ranks.old deals.old result.0 left.new ranks.new deals.new }
    ensures block_lows { BlockLows ranks.new lows.new }
{
    let resting = order_at(book, i);
    let lots = Lots(wanted.0.min(left[i]));
    use_lots(left, ranks, lows, i, lots);
    put_deal(
        deals,
        k,
        Counterparty {
            member: resting.member,
            price: resting.price,
            lots,
        },
    );
    Lots(wanted.0 - lots.0)
}

// Matches level by level, and in each level by rising number, until nothing is wanted or an order does not cross.
fn match_levels(
    book: &[u64],
    o: Order,
    left: &mut [u64],
    ranks: &mut [u64],
    lows: &mut [u64],
    deals: &mut [u64],
) -> Matched
    requires cases { Matchable o book.now (length left.old) × (most_lots * deal_width ≤ length deals.old) }
    requires left_value { (left.old ≡ map lots_of (orders_in (length left.old) book.now)) × Placed (first_rank o (orders_in (length left.old) book.now)) ranks.old × BlockLows ranks.old lows.old }
    ensures { MatchMade o book.now (length left.old) deals.old result left.new deals.new }
{
    let mut wanted = o.lots;
    let mut k: usize = 0;
    let mut best = best_place(lows);
    'levels: while let Some(first) = best {
        let resting = order_at(book, first);
        if !does_meet(o, resting) {
            break 'levels;
        }
        let level = resting.price.0;
        let mut place = first;
        'orders: loop {
            wanted = deal(book, left, ranks, lows, deals, k, place, wanted);
            k += 1;
            if wanted.0 == 0 {
                break 'levels;
            }
            best = best_place(lows);
            let Some(next) = best else {
                break 'orders;
            };
            if order_at(book, next).price.0 != level {
                break 'orders;
            }
            place = next;
        }
    }
    Matched {
        deals: k,
        left: wanted,
    }
}

// An incoming order is matched with the orders of the book, in their priority.
pub fn match_orders(book: &[u64], o: Order, left: &mut [u64], deals: &mut [u64]) -> Matched
    requires { Matchable o book.now (length left.old) × (most_lots * deal_width ≤ length deals.old) }
    ensures { MatchMade o book.now (length left.old) deals.old result left.new deals.new }
{
    let mut ranks = [NO_RANK; ORDERS];
    let mut lows = [NO_RANK; BLOCKS];
    write_columns(book, o, left, &mut ranks);
    write_lows(&ranks, &mut lows);
    match_levels(book, o, left, &mut ranks, &mut lows, deals)
}
