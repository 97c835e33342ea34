// What an incoming order finds in the book, measured in one pass before anything is written.
ghost use Rattle.std.specs.Prelude.{◌≡◌, ℕ, ◌*◌, ◌≤◌, ◌<◌, length};
ghost use Rattle.tables.specs.Fit.{orders_in};
ghost use Rattle.rules.specs.Ranges.{most_lots, most_orders};
ghost use Rattle.rules.specs.Ledger.{book_length, order_at};
ghost use Rattle.matching.specs.Crossing.{own_lots, crossing_lots, own_in, crossing_in};

use order_book::order_at;
use order_priority::{does_meet, does_oppose};
use rules::{Lots, Order};
use sides::is_same_side;

// The member's own resting lots of the order's contract and side, and the lots that cross.
#[derive(Clone, Copy)]
pub struct Crossing {
    pub own: Lots,
    pub lots: Lots,
}

fn own_lots(o: Order, r: Order) -> Lots
    ensures { result.0 ≡ own_lots o r }
{
    if (r.member == o.member) & ((r.contract == o.contract) & is_same_side(r.side, o.side)) {
        return r.lots;
    }
    Lots(0)
}

fn crossing_lots(o: Order, r: Order) -> Lots
    ensures { result.0 ≡ crossing_lots o r }
{
    if does_oppose(o, r) & does_meet(o, r) {
        return r.lots;
    }
    Lots(0)
}

// What a resting order adds. Most are of another contract: one comparison passes them over.
fn found_in(o: Order, r: Order) -> Crossing
    ensures { (result.own.0 ≡ own_lots o r) × (result.lots.0 ≡ crossing_lots o r) }
{
    if r.contract != o.contract {
        return Crossing {
            own: Lots(0),
            lots: Lots(0),
        };
    }
    Crossing {
        own: own_lots(o, r),
        lots: crossing_lots(o, r),
    }
}

pub fn measure(book: &[u64], count: usize, o: Order) -> Crossing
    requires count_le_most_orders { (count ≤ most_orders) × (book_length ≤ length book.now) }
    requires by_index { (i : ℕ) → i < count → (order_at book.now i).lots.0 ≤ most_lots }
    ensures own_value { result.own.0 ≡ own_in o (orders_in count book.now) }
    ensures own_bound { result.own.0 ≤ count * most_lots }
    ensures lots_value { result.lots.0 ≡ crossing_in o (orders_in count book.now) }
{
    let mut own: u64 = 0;
    let mut lots: u64 = 0;
    // By index: a host lends the book as numbers, and order_at reads an order out of them.
    for i in 0..count {
        let found = found_in(o, order_at(book, i));
        own += found.own.0;
        lots += found.lots.0;
    }
    Crossing {
        own: Lots(own),
        lots: Lots(lots),
    }
}
