// A proposal is booked: one line for each leg, and each leg's lots taken from its order.
ghost use Rattle.std.specs.Prelude.{◌≡◌, ℕ, ◌*◌, ◌-◌, ◌≤◌, ◌<◌, length};
ghost use Rattle.arith.specs.Lists.{total};
ghost use Rattle.rules.specs.Ranges.{most_legs, most_lots, most_orders};
ghost use Rattle.rules.specs.Ledger.{Tables, with_head, with_rows, with_book, with_lines, with_orders, head_length, book_length, side_at, booked};
ghost use Rattle.tables.specs.Fit.{BookFit, orders_in, order_count_in};
ghost use Rattle.order_book.specs.Left.{left_over};
ghost use Rattle.proposal_check.specs.Legs.{LegsFit, PlacesFit, lots_of};
ghost use Rattle.deal_lines.specs.Room.{Bookable};
ghost use Rattle.proposal.specs.Booking.{lines_to, left_after, order_lots};

use deal_lines::{DealLine, book_line};
use order_book::{keep_orders, order_at};
use rules::layout::{ORDER_COUNT, ORDERS};
use rules::{Leg, Lots};

// The lots of all legs together.
pub fn total_lots(legs: &[Leg]) -> Lots
    requires { LegsFit legs.now }
    ensures { (result.0 ≡ total lots_of legs.now) × (result.0 ≤ most_legs * most_lots) }
{
    let mut sum = 0;
    for leg in legs {
        sum += leg.lots.0;
    }
    Lots(sum)
}

// One line for each leg, in order, at the leg's price.
pub fn book_legs(
    head: &mut [u64],
    lots: &mut [i64],
    value: &mut [i64],
    lines: &mut [i64],
    book: &[u64],
    places: &[usize],
    legs: &[Leg],
)
    requires book_fit { BookFit head.old book.now × PlacesFit (order_count_in head.old) places.now × LegsFit legs.now × (length places.now ≡ length legs.now) }
    requires bookable { Bookable (total lots_of legs.now) head.old lots.old value.old lines.old × (order_count_in head.old ≤ most_orders) }
    ensures { (t : Tables) → with_head head.new (with_rows lots.new value.new (with_lines lines.new t))
        ≡ (booked (lines_to book.now places.now legs.now (length legs.now))
        (with_head head.old (with_rows lots.old value.old (with_lines lines.old t)))).after }
{
    for i in 0..legs.len() {
        let order = order_at(book, places[i]);
        let line = DealLine {
            member: order.member,
            contract: order.contract,
            side: order.side,
            lots: legs[i].lots,
            price: legs[i].price,
        };
        book_line(head, lots, value, lines, i, line);
    }
}

// What is left of an order's lots after a leg: none where the leg takes them all.
fn left_after(left: Lots, lots: Lots) -> Lots
    ensures { result.0 ≡ left.0 - lots.0 }
{
    if left.0 <= lots.0 {
        return Lots(0);
    }
    Lots(left.0 - lots.0)
}

// Writes the lots of each order.
fn write_lots(book: &[u64], left: &mut [u64])
    requires { (length left.old ≤ most_orders) × (book_length ≤ length book.now) }
    ensures { left.new ≡ order_lots (length left.old) book.now }
{
    for i in 0..left.len() {
        left[i] = order_at(book, i).lots.0;
    }
}

// Each leg takes its lots from its order.
fn take_lots(left: &mut [u64], places: &[usize], legs: &[Leg])
    requires { (length left.old ≤ most_orders) × PlacesFit (length left.old) places.now × (length legs.now ≡ length places.now) }
    ensures { left.new ≡ left_after places.now legs.now (length places.now) left.old }
{
    for i in 0..places.len() {
        let place = places[i];
        left[place] = left_after(Lots(left[place]), legs[i].lots).0;
    }
}

// Writes what the legs leave of each order.
fn write_left(book: &[u64], left: &mut [u64], places: &[usize], legs: &[Leg])
    requires { (length left.old ≤ most_orders) × (book_length ≤ length book.now) × PlacesFit (length left.old) places.now × (length legs.now ≡ length places.now) }
    ensures { left.new ≡ left_after places.now legs.now (length places.now) (order_lots (length left.old) book.now) }
{
    write_lots(book, left);
    take_lots(left, places, legs);
}

// Orders used up leave the book, the others keep what is left of them.
pub fn use_orders(head: &mut [u64], book: &mut [u64], places: &[usize], legs: &[Leg])
    requires { (head_length ≤ length head.old) × (order_count_in head.old ≤ most_orders) × (book_length ≤ length book.old)
        × PlacesFit (order_count_in head.old) places.now × (length legs.now ≡ length places.now) × ((i : ℕ) → i < order_count_in head.old → side_at book.old i ≤ 1) }
    ensures { (t : Tables) → with_head head.new (with_book book.new t)
        ≡ with_orders (left_over (left_after places.now legs.now (length places.now) (order_lots (order_count_in head.old) book.old))
        (orders_in (order_count_in head.old) book.old))
        (with_head head.old (with_book book.old t)) }
{
    let count = head[ORDER_COUNT] as usize;
    let mut left = [0u64; ORDERS];
    write_left(book, &mut left[..count], places, legs);
    keep_orders(head, book, &left[..count]);
}
