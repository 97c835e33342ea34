// The legs lent as a slice: that they are those of a sound proposal, and that it is acceptable.
ghost use Rattle.std.specs.Prelude.{◌≡◌, ◌≤◌, length};
ghost use Rattle.rules.specs.Ledger.{Tables, with_head, with_prices, with_book, prices_length};
ghost use Rattle.tables.specs.Fit.{HeadFit, BookFit};
ghost use Rattle.proposal_legs.specs.Proposals.{legs_acceptable};

use rules::Leg;

pub fn are_legs_acceptable(legs: &[Leg], head: &[u64], prices: &[u64], book: &[u64]) -> bool
    requires { HeadFit head.now × BookFit head.now book.now × (prices_length ≤ length prices.now) }
    ensures { (t : Tables) → result ≡ legs_acceptable (with_head head.now (with_prices prices.now (with_book book.now t)))
        (length legs.now) legs.now }
{
    if !codec::is_proposal_sound(legs.len() as u64, legs) {
        return false;
    }
    proposal_check::are_legs_acceptable(head, prices, book, legs)
}
