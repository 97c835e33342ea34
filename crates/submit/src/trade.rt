// An incoming order is matched: the day's totals grow by its deals, and the book keeps what is left of its orders.
ghost use Rattle.std.specs.Prelude.{◌≡◌, ◌+◌, ◌*◌, ◌≤◌, ◌<◌, length, get_or};
ghost use Rattle.rules.specs.Ranges.{contract_count, most_lots, most_lots_run, most_price};
ghost use Rattle.rules.specs.Ledger.{prices_length, day_lots_place, day_value_place, with_dealt};
ghost use Rattle.rules.specs.Matching.{matched};
ghost use Rattle.tables.specs.Fit.{order_count_in, orders_in};
ghost use Rattle.order_book.specs.Left.{left_over};
ghost use Rattle.matching.specs.Deals.{deal_width};
ghost use Rattle.submit.specs.Deals.{DealColumnFit, Tradable, Traded};

use crate::deals::worth_of;
use matching::{Matched, match_orders};
use rules::layout::{DAY_LOTS, DAY_VALUE, PRICE_WIDTH};
use rules::{Lots, Order, Worth};

// M grows by the lots, V by their worth.
fn add_dealt(prices: &mut [u64], contract: u64, lots: Lots, worth: Worth)
    requires prices_length_in_bounds { (prices_length ≤ length prices.old) × (contract < contract_count) }
    requires lots_bound { (get_or prices.old (day_lots_place contract) 0 + lots.0 ≤ most_price * most_lots_run * 2) × (get_or prices.old (day_value_place contract) 0 + worth.0 ≤ most_price * most_lots_run * 2) }
    ensures { prices.new
        ≡ with_dealt contract (get_or prices.old (day_lots_place contract) 0 + lots.0) (get_or prices.old (day_value_place contract) 0 + worth.0) prices.old }
{
    let at = contract as usize * PRICE_WIDTH;
    prices[at + DAY_LOTS] += lots.0;
    prices[at + DAY_VALUE] += worth.0;
}

// Matches an order and writes M, V and the book. One column is for what is left of each order, one for the deals.
pub fn settle(
    head: &mut [u64],
    prices: &mut [u64],
    book: &mut [u64],
    o: Order,
    left: &mut [u64],
    deals: &mut [u64],
) -> Matched
    requires { Tradable head.old prices.old book.old o × (length left.old ≡ order_count_in head.old) × (most_lots * deal_width ≤ length deals.old) }
    ensures traded { Traded o head.old prices.old book.old result head.new prices.new book.new deals.new }
    ensures deal_column_fit { DealColumnFit result.deals deals.new }
    ensures book_value { (matched o (orders_in (order_count_in head.old) book.old)).resting
        ≡ left_over left.new (orders_in (order_count_in head.old) book.old) }
{
    let m = match_orders(book, o, left, deals);
    let worth = worth_of(deals, m.deals);
    let dealt = Lots(o.lots.0 - m.left.0);
    add_dealt(prices, o.contract, dealt, worth);
    order_book::keep_orders(head, book, left);
    m
}
