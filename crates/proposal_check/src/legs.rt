// Whether the legs are acceptable: the places of their orders are found first.
ghost use Rattle.std.specs.Prelude.{◌≡◌, ◌≤◌, length};
ghost use Rattle.rules.specs.Ledger.{Tables, with_head, with_prices, with_book, prices_length};
ghost use Rattle.rules.specs.Synthetic.{acceptable};
ghost use Rattle.tables.specs.Fit.{HeadFit, BookFit};
ghost use Rattle.proposal_check.specs.Legs.{LegsFit};

use crate::acceptable::is_acceptable;
use crate::places::write_places;
use rules::Leg;
use rules::layout::{LEG_PLACES, ORDER_COUNT};

pub fn are_legs_acceptable(head: &[u64], prices: &[u64], book: &[u64], legs: &[Leg]) -> bool
    requires head_fit { HeadFit head.now × BookFit head.now book.now × (prices_length ≤ length prices.now) }
    requires legs_fit { LegsFit legs.now }
    ensures { (t : Tables) → result ≡ acceptable (with_head head.now (with_prices prices.now (with_book book.now t))) legs.now }
{
    let n = legs.len();
    let count = head[ORDER_COUNT] as usize;
    let mut places = [0usize; LEG_PLACES];
    write_places(book, count, legs, &mut places[..n]);
    is_acceptable(head, prices, book, &places[..n], legs)
}
