// Eight places for each resting order.
ghost use Rattle.std.specs.Prelude.{◌≡◌, ◌*◌, ◌≤◌, ◌<◌, length};
ghost use Rattle.arith.specs.Lists.{over};
ghost use Rattle.rules.specs.Ranges.{most_orders};
ghost use Rattle.rules.specs.Ledger.{book_length, order_width, order_at, order_places};

use rules::layout::{
    ORDER_CONTRACT, ORDER_DAY, ORDER_LOTS, ORDER_MEMBER, ORDER_NUMBER, ORDER_PRICE, ORDER_SIDE,
    ORDER_TIME, ORDER_WIDTH,
};
use rules::{DayNo, Kurus, Lots, Order};
use sides::{side_number, side_of};

// The order at a place of the book.
pub fn order_at(book: &[u64], i: usize) -> Order
    requires { (i < most_orders) × (book_length ≤ length book.now) }
    ensures { result ≡ order_at book.now i }
{
    let at = i * ORDER_WIDTH;
    Order {
        number: book[at + ORDER_NUMBER],
        member: book[at + ORDER_MEMBER],
        contract: book[at + ORDER_CONTRACT],
        side: side_of(book[at + ORDER_SIDE]),
        price: Kurus(book[at + ORDER_PRICE]),
        lots: Lots(book[at + ORDER_LOTS]),
        day: DayNo(book[at + ORDER_DAY]),
        time: book[at + ORDER_TIME],
    }
}

// An order written at a place of the book.
pub fn put_order(book: &mut [u64], i: usize, o: Order)
    requires { (i < most_orders) × (book_length ≤ length book.old) }
    ensures { book.new ≡ over (i * order_width) (order_places o) book.old }
{
    let at = i * ORDER_WIDTH;
    book[at + ORDER_NUMBER] = o.number;
    book[at + ORDER_MEMBER] = o.member;
    book[at + ORDER_CONTRACT] = o.contract;
    book[at + ORDER_SIDE] = side_number(o.side);
    book[at + ORDER_PRICE] = o.price.0;
    book[at + ORDER_LOTS] = o.lots.0;
    book[at + ORDER_DAY] = o.day.0;
    book[at + ORDER_TIME] = o.time;
}
