// The book: eight places for each resting order.
ghost use Rattle.std.specs.Prelude.{◌≡◌, suc, ◌+◌, ◌-◌, ◌*◌, ◌<◌, ◌≤◌, ◌&&◌, map, length, nat_eq, slice_index};
ghost use Rattle.arith.specs.Lists.{any, from};
ghost use Rattle.rules.specs.Ranges.{most_orders, most_accepted_submits};
ghost use Rattle.rules.specs.Ledger.{Tables, with_head, with_book, head_length, book_length, first_year_place, accepted_submits_place, order_count_place};
ghost use Rattle.rules.specs.Refusals.{distinct, book_sound};
ghost use Rattle.damage.specs.Orders.{number_at, fields_in_range, places_sound};
ghost use Rattle.months.specs.Spans.{IsSpanOf};

use crate::between::is_between;
use months::Span;
use rules::{layout, ranges};

// The top bit, which a number has that fell below 0 and wrapped.
const TOP_BIT: u64 = 0x8000_0000_0000_0000;

// Whether an order's fields but its number and side are in range. Each is read only where those before it are, so the compiler
// keeps the branches, which take less time here than flags.
fn are_fields_in_range(book: &[u64], i: usize, members: u64, span: Span) -> bool
    requires { (i < most_orders) × (book_length ≤ length book.now) × (span.start.0 ≤ span.end.0) }
    ensures { result ≡ fields_in_range members span.start.0 span.end.0 book.now i }
{
    let at = i * layout::ORDER_WIDTH;
    if members <= book[at + layout::ORDER_MEMBER] {
        return false;
    }
    if ranges::LAST_CONTRACT < book[at + layout::ORDER_CONTRACT] {
        return false;
    }
    if !is_between(book[at + layout::ORDER_PRICE], 1, ranges::MOST_PRICE + 1) {
        return false;
    }
    if !is_between(book[at + layout::ORDER_LOTS], 1, ranges::MOST_LOTS + 1) {
        return false;
    }
    if !is_between(book[at + layout::ORDER_DAY], span.start.0, span.end.0) {
        return false;
    }
    book[at + layout::ORDER_TIME] <= ranges::LAST_SECOND
}

// Whether a later order has the number of order i. A host lends the book as numbers, a block for each order, so the
// loops of this file go by index.
fn is_repeated(book: &[u64], i: usize, count: usize) -> bool
    requires { (i < count) × (count ≤ most_orders) × (book_length ≤ length book.now) }
    ensures { result ≡ any (nat_eq (number_at book.now i)) (map (number_at book.now) (from (suc i) (count - suc i))) }
{
    let number = book[i * layout::ORDER_WIDTH];
    let mut found = false;
    for j in i + 1..count {
        found |= number == book[j * layout::ORDER_WIDTH];
    }
    found
}

// Whether no two orders share a number. Each number is compared with every later one.
fn is_none_repeated(book: &[u64], count: usize) -> bool
    requires { (count ≤ most_orders) × (book_length ≤ length book.now) }
    ensures { result ≡ distinct (map (number_at book.now) (from 0 count)) }
{
    let mut ok = true;
    for i in 0..count {
        ok &= !is_repeated(book, i, count);
    }
    ok
}

// Whether each order's places are sound and no two orders share a number: where the numbers rise, one pass shows both. The
// bitwise or of all sides is tested, since LAST_SIDE + 1 is a power of two.
fn are_orders_sound(book: &[u64], count: usize, accepted: u64, members: u64, span: Span) -> bool
    requires { (count ≤ most_orders) × (accepted ≤ most_accepted_submits) × (book_length ≤ length book.now) × (span.start.0 ≤ span.end.0) }
    ensures { result ≡ places_sound accepted members span.start.0 span.end.0 book.now count && distinct (map (number_at book.now) (from 0 count)) }
{
    let mut sides: u64 = 0;
    let mut falls: u64 = 0;
    let mut least: u64 = 0;
    for i in 0..count {
        let at = i * layout::ORDER_WIDTH;
        let number = book[at];
        if accepted <= number {
            return false;
        }
        if !are_fields_in_range(book, i, members, span) {
            return false;
        }
        sides |= book[at + layout::ORDER_SIDE];
        falls |= number.wrapping_sub(least);
        least = number + 1;
    }
    if ranges::LAST_SIDE < sides {
        return false;
    }
    if falls < TOP_BIT {
        return true;
    }
    is_none_repeated(book, count)
}

pub fn is_book_sound(head: &[u64], book: &[u64], span: Span) -> bool
    requires head_length_in_bounds { (head_length ≤ length head.now) × IsSpanOf span (slice_index head.now first_year_place) × (book_length ≤ length book.now) }
    requires accepted_submits_place_bound { (slice_index head.now accepted_submits_place ≤ most_accepted_submits) × (slice_index head.now order_count_place ≤ most_orders) }
    ensures { (t : Tables) → result ≡ book_sound (with_head head.now (with_book book.now t)) }
{
    let count = head[layout::ORDER_COUNT] as usize;
    are_orders_sound(
        book,
        count,
        head[layout::ACCEPTED_SUBMITS],
        head[layout::MEMBERS],
        span,
    )
}
