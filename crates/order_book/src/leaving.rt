// Orders leave the book: what is left of each stands in a column, one number for each place of the book.
ghost use Rattle.std.specs.Prelude.{◌≡◌, Bool, cond, not, ℕ, ◌*◌, ◌+◌, ◌≤◌, ◌<◌, eqb, length};
ghost use mathlib.Core.List.{flat_map};
ghost use Rattle.arith.specs.Lists.{over, any, kept};
ghost use Rattle.rules.specs.Ranges.{most_orders};
ghost use Rattle.rules.specs.Ledger.{Tables, with_head, with_book, head_length, book_length, order_width, side_at, order_at, order_places, with_orders};
ghost use Rattle.rules.specs.Matching.{with_lots};
ghost use Rattle.rules.specs.declared.order.Order.{Order};
ghost use Rattle.tables.specs.Fit.{OrdersFit, order_count_in, orders_in};
ghost use Rattle.order_book.specs.Left.{left_over, leaves, staying, Tests};

use crate::orders::{order_at, put_order};
use rules::layout::{ORDER_COUNT, ORDER_LOTS, ORDER_WIDTH, ORDERS};
use rules::{Lots, Order};

// Which orders leave the book: the one of a number if it is the member's, or all of a member. A name and no closure: a
// cancel asks the same of two functions, and the slip of_any_member stands on `does_leave`.
#[derive(Clone, Copy)]
pub enum Leaving {
    Numbered { number: u64, member: u64 },
    OfMember(u64),
}

fn does_leave(w: Leaving, o: Order) -> bool
    ensures { result ≡ leaves w o }
{
    match w {
        Leaving::Numbered { number, member } => (o.number == number) & (o.member == member),
        Leaving::OfMember(member) => o.member == member,
    }
}

// Whether some order of the book would leave it.
pub fn would_any_leave(book: &[u64], count: usize, w: Leaving) -> bool
    requires { (count ≤ most_orders) × (book_length ≤ length book.now) }
    ensures { result ≡ any (leaves w) (orders_in count book.now) }
{
    // By index, here and below: a host lends the book as numbers, and order_at reads an order out of them.
    for i in 0..count {
        if does_leave(w, order_at(book, i)) {
            return true;
        }
    }
    false
}

fn left_of(o: Order, leaves: bool) -> Lots
    ensures { result.0 ≡ cond leaves 0 o.lots.0 }
{
    if leaves {
        return Lots(0);
    }
    o.lots
}

// What is left of each order: nothing of those that leave.
fn write_left<F: Fn(Order) -> bool>(book: &[u64], left: &mut [u64], leaves: F)
    requires reads { (length left.old ≤ most_orders) × (book_length ≤ length book.now) }
    requires callable { F.IsAlwaysCallable leaves }
    ensures { (p : Order → Bool) → Tests (F.post leaves) p → left.new ≡ staying p (orders_in (length left.old) book.now) }
{
    for (i, lots) in left.iter_mut().enumerate() {
        let o = order_at(book, i);
        *lots = left_of(o, leaves(o)).0;
    }
}

// The order with another number of lots.
pub fn with_lots(o: Order, left: Lots) -> Order
    ensures { result ≡ with_lots left.0 o }
{
    Order { lots: left, ..o }
}

// Order i with what is left of it is written at the next free place, unless nothing is left; the answer is the next free
// place. While none has left, an order stands where it stood and only its lots are written.
fn keep_order(book: &mut [u64], i: usize, free: usize, left: Lots) -> usize
    requires { (free ≤ i) × (i < most_orders) × (book_length ≤ length book.old) × (side_at book.old i ≤ 1) }
    ensures value { result ≡ cond (eqb left.0 0) free (free + 1) }
    ensures book_after { book.new ≡ cond (eqb left.0 0) book.old (over (free * order_width) (order_places (with_lots left.0 (order_at book.old i))) book.old) }
{
    if left.0 == 0 {
        return free;
    }
    if free == i {
        book[i * ORDER_WIDTH + ORDER_LOTS] = left.0;
        return free + 1;
    }
    let o = order_at(book, i);
    put_order(book, free, with_lots(o, left));
    free + 1
}

// The orders that stay are written from the front, in their order; the answer is their count.
fn write_staying(book: &mut [u64], left: &[u64], count: usize) -> usize
    requires { (count ≤ most_orders) × (count ≤ length left.now) × (book_length ≤ length book.old) × ((i : ℕ) → i < count → side_at book.old i ≤ 1) }
    ensures value { result ≡ length (left_over left.now (orders_in count book.old)) }
    ensures book_after { book.new ≡ over 0 (flat_map order_places (left_over left.now (orders_in count book.old))) book.old }
{
    let mut free: usize = 0;
    for i in 0..count {
        free = keep_order(book, i, free, Lots(left[i]));
    }
    free
}

// The book holds what is left of its orders, and no other.
pub fn keep_orders(head: &mut [u64], book: &mut [u64], left: &[u64])
    requires head_length_in_bounds { (head_length ≤ length head.old) × (book_length ≤ length book.old) × (order_count_in head.old ≤ most_orders) × (order_count_in head.old ≤ length left.now) }
    requires by_index { (i : ℕ) → i < order_count_in head.old → side_at book.old i ≤ 1 }
    ensures { (t : Tables) → with_head head.new (with_book book.new t)
        ≡ with_orders (left_over left.now (orders_in (order_count_in head.old) book.old)) (with_head head.old (with_book book.old t)) }
{
    let count = head[ORDER_COUNT] as usize;
    let staying = write_staying(book, left, count);
    head[ORDER_COUNT] = staying as u64;
}

// Removes the orders that pass a test from the book.
pub fn remove_where<F: Fn(Order) -> bool>(head: &mut [u64], book: &mut [u64], leaves: F)
    requires fit { (head_length ≤ length head.old) × OrdersFit (order_count_in head.old) book.old }
    requires callable { F.IsAlwaysCallable leaves }
    ensures { (p : Order → Bool) → Tests (F.post leaves) p → (t : Tables) → with_head head.new (with_book book.new t)
        ≡ with_orders (kept (λ o. not (p o)) (orders_in (order_count_in head.old) book.old)) (with_head head.old (with_book book.old t)) }
{
    let count = head[ORDER_COUNT] as usize;
    let mut left = [0u64; ORDERS];
    write_left(book, &mut left[..count], leaves);
    keep_orders(head, book, &left[..count]);
}

// Removes these orders from the book.
pub fn remove_orders(head: &mut [u64], book: &mut [u64], w: Leaving)
    requires { (head_length ≤ length head.old) × OrdersFit (order_count_in head.old) book.old }
    ensures { (t : Tables) → with_head head.new (with_book book.new t)
        ≡ with_orders (kept (λ o. not (leaves w o)) (orders_in (order_count_in head.old) book.old)) (with_head head.old (with_book book.old t)) }
{
    remove_where(head, book, |o| does_leave(w, o));
}
