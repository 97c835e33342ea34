// The first legs of an array, lent. The array comes by value, so callers need not lend it.
ghost use Rattle.std.specs.Prelude.{◌≡◌, ◌≤◌, length, take};
ghost use Rattle.rules.specs.Ledger.{Tables, with_head, with_prices, with_book, prices_length};
ghost use Rattle.tables.specs.Fit.{HeadFit, BookFit};
ghost use Rattle.proposal_legs.specs.Proposals.{legs_acceptable};

use crate::legs::are_legs_acceptable;
use rules::Leg;
use rules::layout::LEG_PLACES;
use rules::ranges::MOST_LEGS;

// Whether the first legs make an acceptable proposal; a count past the array's 12 legs makes none.
pub fn are_first_acceptable(
    legs: [Leg; LEG_PLACES],
    count: usize,
    head: &[u64],
    prices: &[u64],
    book: &[u64],
) -> bool
    requires { HeadFit head.now × BookFit head.now book.now × (prices_length ≤ length prices.now) }
    ensures { (t : Tables) → result ≡ legs_acceptable (with_head head.now (with_prices prices.now (with_book book.now t)))
        count (take count legs) }
{
    if MOST_LEGS < count as u64 {
        return false;
    }
    are_legs_acceptable(&legs[..count], head, prices, book)
}
