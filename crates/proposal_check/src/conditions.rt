// What each leg must meet, and what the legs' members and contracts must meet together.
ghost use Rattle.std.specs.Prelude.{◌≡◌, not, ◌&&◌, ◌*◌, ◌+◌, ◌≤◌, ◌<◌, map, eqb, length, get_or};
ghost use Rattle.arith.specs.Lists.{every, any};
ghost use Rattle.rules.specs.Ranges.{contract_count, most_orders};
ghost use Rattle.rules.specs.Header.{rising};
ghost use Rattle.rules.specs.Ledger.{Tables, with_prices, prices_length, book_length, order_width};
ghost use Rattle.rules.specs.Synthetic.{has_lots, price_allowed};
ghost use Rattle.proposal_check.specs.Legs.{PlacesFit, ContractsFit, number_of, named_to};

use order_book::order_at;
use rules::layout::{HIGH, LOW, ORDER_WIDTH, PRICE_WIDTH};
use rules::{Leg, Order, Side};

// Whether a field of the legs' orders, their member or contract, is not the same in all of them.
pub fn do_two_occur(book: &[u64], places: &[usize], field: usize) -> bool
    requires { (book_length ≤ length book.now) × (field < order_width) × (1 ≤ length places.now) × PlacesFit most_orders places.now }
    ensures { result ≡ any (λ p. not (eqb (get_or book.now (p * order_width + field) 0)
        (get_or book.now (get_or places.now 0 0 * order_width + field) 0))) places.now }
{
    let first = book[places[0] * ORDER_WIDTH + field];
    let mut found = false;
    for place in places {
        found |= book[*place * ORDER_WIDTH + field] != first;
    }
    found
}

// Whether the numbers of the legs' orders strictly rise.
pub fn do_numbers_rise(legs: &[Leg]) -> bool
    requires { 1 ≤ length legs.now }
    ensures { result ≡ rising (map number_of legs.now) }
{
    let mut ok = true;
    for i in 1..legs.len() {
        ok &= legs[i - 1].order < legs[i].order;
    }
    ok
}

// Whether a leg's price is allowed: a sell's from its order's price to the contract's high, a buy's from the low to its order's
// price.
fn is_price_allowed(prices: &[u64], leg: Leg, order: Order) -> bool
    requires { (prices_length ≤ length prices.now) × (order.contract < contract_count) }
    ensures { (t : Tables) → result ≡ price_allowed (with_prices prices.now t) (record { leg = leg; order = order }) }
{
    let at = order.contract as usize * PRICE_WIDTH;
    let price = leg.price.0;
    let resting = order.price.0;
    match order.side {
        Side::Buy => (prices[at + LOW] <= price) & (price <= resting),
        Side::Sell => (resting <= price) & (price <= prices[at + HIGH]),
    }
}

// Whether each leg's order has its lots and allows its price.
pub fn are_within(prices: &[u64], book: &[u64], places: &[usize], legs: &[Leg]) -> bool
    requires prices_length_in_bounds { (prices_length ≤ length prices.now) × PlacesFit most_orders places.now × ContractsFit book.now places.now }
    requires legs_fit { length places.now ≡ length legs.now }
    ensures { (t : Tables) → result ≡ every (λ n. has_lots n && price_allowed (with_prices prices.now t) n)
        (named_to book.now places.now legs.now) }
{
    let mut ok = true;
    for (i, leg) in legs.iter().enumerate() {
        let order = order_at(book, places[i]);
        ok &= (leg.lots.0 <= order.lots.0) & is_price_allowed(prices, *leg, order);
    }
    ok
}
