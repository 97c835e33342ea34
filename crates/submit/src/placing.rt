// An order is placed: it is matched if lots cross, what is left of it rests if it is of that kind, and its deals are booked.
ghost use Rattle.std.specs.Prelude.{◌≡◌, cond, true, ◌&&◌, ◌+◌, ◌*◌, ◌≤◌, ◌<◌, ltb, length};
ghost use Rattle.arith.specs.Lists.{over};
ghost use Rattle.rules.specs.Ranges.{most_orders};
ghost use Rattle.rules.specs.Ledger.{with_order_count, head_length, book_length, order_width, order_places};
ghost use Rattle.rules.specs.Matching.{is_resting, with_lots};
ghost use Rattle.tables.specs.Fit.{order_count_in, orders_in};
ghost use Rattle.tables.specs.Lent.{tables_of, SameTables};
ghost use Rattle.matching.specs.Crossing.{crossing_in};
ghost use Rattle.submit.specs.Placing.{Placeable, order_booked};

use crate::deals::book_deals;
use crate::trade::settle;
use matching::DEAL_WIDTH;
use rules::layout::{ORDER_COUNT, ORDERS};
use rules::ranges::MOST_LOTS;
use rules::{Lots, Order, OrderKind, Refusal};
use submit_causes::is_resting;
use tables::LentTables;

// Places for the deals of an order: each takes one lot at least.
const DEAL_PLACES: usize = MOST_LOTS as usize * DEAL_WIDTH;

// What is left of an order that rests comes last in the book, under its own number.
fn rest_order(head: &mut [u64], book: &mut [u64], kind: OrderKind, o: Order, left: Lots)
    requires { (head_length ≤ length head.old) × (book_length ≤ length book.old) × (is_resting kind && ltb 0 left.0 ≡ true → order_count_in head.old < most_orders) }
    ensures head_after { head.new ≡ cond (is_resting kind && ltb 0 left.0) (with_order_count (order_count_in head.old + 1) head.old) head.old }
    ensures book_after { book.new
        ≡ cond (is_resting kind && ltb 0 left.0) (over (order_count_in head.old * order_width) (order_places (with_lots left.0 o)) book.old) book.old }
{
    if is_resting(kind) & (0 < left.0) {
        let count = head[ORDER_COUNT];
        order_book::put_order(book, count as usize, order_book::with_lots(o, left));
        head[ORDER_COUNT] = count + 1;
    }
}

// Places an order of which some lots cross. Only then are there columns to write: what is left of each order, and the deals.
fn trade(tables: &mut LentTables<'_>, kind: OrderKind, o: Order) -> Result<u64, Refusal>
    requires { Placeable (tables_of tables.old) kind o }
    ensures answer { record { answer = result; after = tables_of tables.new } ≡ order_booked kind o (tables_of tables.old) }
    ensures same { SameTables tables.old tables.new }
{
    let orders = tables.head[ORDER_COUNT] as usize;
    let mut left = [0u64; ORDERS];
    let mut deals = [0u64; DEAL_PLACES];
    let m = settle(
        tables.head,
        tables.prices,
        tables.book,
        o,
        &mut left[..orders],
        &mut deals,
    );
    rest_order(tables.head, tables.book, kind, o, m.left);
    book_deals(tables, o, &deals, m.deals);
    Ok(m.deals as u64 * 2)
}

// Places an order of which so many lots cross.
pub fn place_order(
    tables: &mut LentTables<'_>,
    kind: OrderKind,
    o: Order,
    crossing: Lots,
) -> Result<u64, Refusal>
    requires { Placeable (tables_of tables.old) kind o
        × (crossing.0 ≡ crossing_in o (orders_in (order_count_in tables.old.head.now) tables.old.book.now)) }
    ensures answer { record { answer = result; after = tables_of tables.new } ≡ order_booked kind o (tables_of tables.old) }
    ensures same { SameTables tables.old tables.new }
{
    if crossing.0 == 0 {
        rest_order(tables.head, tables.book, kind, o, o.lots);
        return Ok(0);
    }
    trade(tables, kind, o)
}
