// The resting orders that the legs name: the place of each in the book.
ghost use Rattle.std.specs.Prelude.{◌≡◌, ◌≤◌, ltb, length};
ghost use Rattle.std.specs.List.{list_all};
ghost use Rattle.rules.specs.Ranges.{most_orders};
ghost use Rattle.rules.specs.Ledger.{book_length};
ghost use Rattle.tables.specs.Fit.{orders_in};
ghost use Rattle.proposal_check.specs.Legs.{place_of, places_of};

use rules::Leg;
use rules::layout::{ORDER_NUMBER, ORDER_WIDTH};

// The place of the order with a number, or the count where there is none.
fn place_of(book: &[u64], count: usize, number: u64) -> usize
    requires { (count ≤ most_orders) × (book_length ≤ length book.now) }
    ensures { result ≡ place_of number (orders_in count book.now) }
{
    // By index: a host lends the book as numbers, a block for each order.
    for i in 0..count {
        if book[i * ORDER_WIDTH + ORDER_NUMBER] == number {
            return i;
        }
    }
    count
}

// The place of each leg's order.
pub fn write_places(book: &[u64], count: usize, legs: &[Leg], places: &mut [usize])
    requires { (count ≤ most_orders) × (book_length ≤ length book.now) × (length places.old ≡ length legs.now) }
    ensures { places.new ≡ places_of count book.now legs.now }
{
    for (i, leg) in legs.iter().enumerate() {
        places[i] = place_of(book, count, leg.order);
    }
}

// Whether each leg names a resting order.
pub fn are_found(places: &[usize], count: usize) -> bool
    ensures { result ≡ list_all (λ p. ltb p count) places.now }
{
    places.iter().all(|place| *place < count)
}
