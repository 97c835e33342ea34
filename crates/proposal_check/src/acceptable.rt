// Whether a proposal is acceptable.
ghost use Rattle.std.specs.Prelude.{◌≡◌, ◌≤◌, length};
ghost use Rattle.rules.specs.Ledger.{Tables, with_head, with_prices, with_book, prices_length};
ghost use Rattle.rules.specs.Synthetic.{acceptable};
ghost use Rattle.tables.specs.Fit.{HeadFit, BookFit, order_count_in};
ghost use Rattle.proposal_check.specs.Legs.{LegsFit, places_of};

use crate::balance::are_both_balanced;
use crate::conditions::{are_within, do_numbers_rise, do_two_occur};
use crate::places::are_found;
use crate::priority::is_priority_kept;
use rules::Leg;
use rules::layout::{ORDER_CONTRACT, ORDER_COUNT, ORDER_MEMBER};

pub fn is_acceptable(
    head: &[u64],
    prices: &[u64],
    book: &[u64],
    places: &[usize],
    legs: &[Leg],
) -> bool
    requires head_fit { HeadFit head.now × BookFit head.now book.now × (prices_length ≤ length prices.now) }
    requires legs_fit { LegsFit legs.now × (places.now ≡ places_of (order_count_in head.now) book.now legs.now) }
    ensures { (t : Tables) → result ≡ acceptable (with_head head.now (with_prices prices.now (with_book book.now t))) legs.now }
{
    let count = head[ORDER_COUNT] as usize;
    if !are_found(places, count) {
        return false;
    }
    do_numbers_rise(legs)
        & do_two_occur(book, places, ORDER_MEMBER)
        & do_two_occur(book, places, ORDER_CONTRACT)
        & are_within(prices, book, places, legs)
        & are_both_balanced(book, places, legs)
        & is_priority_kept(book, count, places, legs)
}
