// Two columns, one number for each place of the book: what is left of each order, and its rank with its place. A third has the
// lowest rank of each block of places, so that the best order is found without reading every rank.
ghost use Rattle.std.specs.Prelude.{◌≡◌, cond, map, ℕ, ◌+◌, ◌-◌, ◌≤◌, ◌<◌, eqb, length, get_or, set, replicate, MatchOption};
ghost use Rattle.tables.specs.Fit.{orders_in};
ghost use Rattle.rules.specs.Ranges.{most_orders};
ghost use Rattle.rules.specs.Ledger.{book_length, order_at};
ghost use Rattle.order_priority.specs.Priority.{Ranked};
ghost use Rattle.matching.specs.Ranks.{no_rank, lots_of, rank_in, first_rank, placed_rank, Placed, LowestAmong, block_size, block_count, BlockLows, NoneRanked, BestPlace};

use order_book::order_at;
use order_priority::{does_oppose, rank_of};
use rules::layout::ORDERS;
use rules::ranges::MOST_ORDERS;
use rules::{Lots, Order};

// The rank of an order that is not to be met: a number and no Option, so that the lowest is found by comparisons alone.
pub const NO_RANK: u64 = u64::MAX;

// How many places of the book make a block.
const BLOCK: usize = 16;

pub const BLOCKS: usize = ORDERS / BLOCK;

// The rank of the order at place i, with that place in its last digits to the base 256: the lowest rank gives its place.
fn rank_at(o: Order, r: Order, i: usize) -> u64
    requires { Ranked r × (0 < r.lots.0) × (i < most_orders) }
    ensures { result ≡ placed_rank i (rank_in o r.lots.0 r) }
{
    if does_oppose(o, r) {
        return rank_of(r) * MOST_ORDERS + i as u64;
    }
    NO_RANK
}

// Nothing is used yet: each order has its lots, and those that oppose the incoming one their ranks.
pub fn write_columns(book: &[u64], o: Order, left: &mut [u64], ranks: &mut [u64])
    requires left_len_bound { (length left.old ≤ most_orders) × (ranks.old ≡ replicate most_orders no_rank) × (book_length ≤ length book.now) }
    requires by_index { (i : ℕ) → i < length left.old → Ranked (order_at book.now i) × (0 < (order_at book.now i).lots.0) }
    ensures left_after_holds { left.new ≡ map lots_of (orders_in (length left.old) book.now) }
    ensures placed { Placed (first_rank o (orders_in (length left.old) book.now)) ranks.new }
{
    // By index: a host lends the book as numbers, and the columns beside it have the same places.
    for i in 0..left.len() {
        let r = order_at(book, i);
        ranks[i] = rank_at(o, r, i);
        left[i] = r.lots.0;
    }
}

fn lowest_of_four(ranks: &[u64], at: usize) -> u64
    requires { at + 4 ≤ length ranks.now }
    ensures { LowestAmong ranks.now at 4 result }
{
    let front = ranks[at].min(ranks[at + 1]);
    front.min(ranks[at + 2].min(ranks[at + 3]))
}

// The lowest of a block, by fours: no comparison waits for all those before it.
fn lowest_of_block(ranks: &[u64], at: usize) -> u64
    requires { at + block_size ≤ length ranks.now }
    ensures { LowestAmong ranks.now at block_size result }
{
    let first = lowest_of_four(ranks, at);
    let second = lowest_of_four(ranks, at + 4);
    let third = lowest_of_four(ranks, at + 8);
    let fourth = lowest_of_four(ranks, at + 12);
    first.min(second).min(third.min(fourth))
}

// The lowest rank of every block.
pub fn write_lows(ranks: &[u64], lows: &mut [u64])
    requires { (length ranks.now ≡ most_orders) × (length lows.old ≡ block_count) }
    ensures { BlockLows ranks.now lows.new }
{
    for (b, low) in lows.iter_mut().enumerate() {
        *low = lowest_of_block(ranks, b * BLOCK);
    }
}

// The place that the lowest rank of all gives, if any order has a rank.
pub fn best_place(lows: &[u64]) -> Option<usize>
    requires { length lows.now ≡ block_count }
    ensures { MatchOption result (NoneRanked lows.now) (BestPlace lows.now) }
{
    let low = lowest_of_block(lows, 0);
    // Two ways out, as the promise says of each what holds there.
    if low < NO_RANK {
        return Some((low % MOST_ORDERS) as usize);
    }
    None
}

// Uses lots of order i; an order used up has no rank.
pub fn use_lots(left: &mut [u64], ranks: &mut [u64], lows: &mut [u64], i: usize, lots: Lots)
    requires { (i < length left.old) × (length left.old ≤ most_orders) × (lots.0 ≤ get_or left.old i 0) × (length ranks.old ≡ most_orders) × BlockLows ranks.old lows.old }
    ensures left_after_holds { left.new ≡ set left.old i (get_or left.old i 0 - lots.0) }
    ensures ranks_after { ranks.new ≡ cond (eqb (get_or left.old i 0 - lots.0) 0) (set ranks.old i no_rank) ranks.old }
    ensures block_lows { BlockLows ranks.new lows.new }
{
    let rest = left[i] - lots.0;
    left[i] = rest;
    if rest == 0 {
        let b = i / BLOCK;
        ranks[i] = NO_RANK;
        lows[b] = lowest_of_block(ranks, b * BLOCK);
    }
}
