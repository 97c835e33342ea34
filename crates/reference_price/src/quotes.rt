// The orders that quote at the close of a day: the best price of each contract on one side, 0 where none quotes.
ghost use Rattle.std.specs.Prelude.{◌≡◌, cond, ℕ, ◌≤◌, ◌<◌, length, get_or, set, replicate};
ghost use Rattle.rules.specs.Ranges.{contract_count, last_second};
ghost use Rattle.tables.specs.Fit.{orders_in};
ghost use Rattle.reference_price.specs.Columns.{BookReads, quotes_at, best_price, better_quote};

use rules::ranges::SECONDS_TO_QUOTE;
use rules::{DayNo, Kurus, Order, Side};
use sides::is_same_side;

// An order quotes if it entered in time and still has its contract's threshold of lots.
fn does_quote(o: Order, side: Side, day: DayNo, time: u64) -> bool
    requires { o.time ≤ last_second }
    ensures { result ≡ quotes_at day.0 time side o }
{
    let entered = (o.day.0 < day.0) | ((o.day.0 == day.0) & (o.time + SECONDS_TO_QUOTE <= time));
    let threshold = contracts::kind_of(o.contract).threshold();
    is_same_side(o.side, side) & (entered & (threshold.0 <= o.lots.0))
}

fn better_quote(side: Side, price: Kurus, held: Kurus) -> Kurus
    ensures { result.0 ≡ better_quote side price.0 held.0 }
{
    if held.0 == 0 {
        return price;
    }
    match side {
        Side::Buy => Kurus(price.0.max(held.0)),
        Side::Sell => Kurus(price.0.min(held.0)),
    }
}

fn note_quote(quotes: &mut [u64], o: Order, side: Side, day: DayNo, time: u64)
    requires { (o.time ≤ last_second) × (o.contract < length quotes.old) }
    ensures { quotes.new
        ≡ cond (quotes_at day.0 time side o) (set quotes.old o.contract (better_quote side o.price.0 (get_or quotes.old o.contract 0))) quotes.old }
{
    if does_quote(o, side, day, time) {
        let contract = o.contract as usize;
        quotes[contract] = better_quote(side, o.price, Kurus(quotes[contract])).0;
    }
}

// One pass over the book for all contracts, from the last order to the first.
pub fn write_quotes(
    book: &[u64],
    count: usize,
    side: Side,
    day: DayNo,
    time: u64,
    quotes: &mut [u64],
)
    requires { BookReads count book.now × (quotes.old ≡ replicate contract_count 0) }
    ensures { (c : ℕ) → c < contract_count → get_or quotes.new c 0 ≡ best_price day.0 time side (orders_in count book.now) c }
{
    // By index: a host lends the book as numbers, and order_at reads an order out of them.
    for i in (0..count).rev() {
        let o = order_book::order_at(book, i);
        note_quote(quotes, o, side, day, time);
    }
}
