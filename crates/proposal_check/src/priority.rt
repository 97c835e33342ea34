// Every resting order of a leg's contract and side with better priority is a leg in full.
ghost use Rattle.std.specs.Prelude.{◌≡◌, not, ◌||◌, ◌<◌, length, replicate};
ghost use Rattle.arith.specs.Lists.{every};
ghost use Rattle.rules.specs.Ranges.{contract_count};
ghost use Rattle.tables.specs.Fit.{orders_in};
ghost use Rattle.order_priority.specs.Priority.{Ranked};
ghost use Rattle.proposal_check.specs.Legs.{PlacesFit, is_ahead, is_full_leg};
ghost use Rattle.proposal_check.specs.SidePlaces.{side_places};
ghost use Rattle.proposal_check.specs.LastRanks.{OrdersRanked, LegsRanked, LastRanks, kept_by};

use crate::side_places::{SIDE_PLACES, side_place};
use order_book::order_at;
use order_priority::rank_of;
use rules::{Leg, Order};

// The last rank among the legs of each contract and side; a place with no leg has 0, and no rank is below that.
fn write_last_ranks(book: &[u64], places: &[usize], lasts: &mut [u64])
    requires { LegsRanked book.now places.now × (lasts.old ≡ replicate side_places 0) }
    ensures { LastRanks book.now places.now lasts.new }
{
    for place in places {
        let order = order_at(book, *place);
        let at = side_place(order);
        lasts[at] = lasts[at].max(rank_of(order));
    }
}

// Whether the order is a leg in full.
fn is_full_leg(legs: &[Leg], o: Order) -> bool
    ensures { result ≡ is_full_leg legs.now o }
{
    legs.iter()
        .any(|leg| (leg.order == o.number) & (leg.lots.0 == o.lots.0))
}

// Whether the order is not ahead of the last leg of its contract and side, or is a leg in full.
fn is_kept(lasts: &[u64], legs: &[Leg], o: Order) -> bool
    requires { (length lasts.now ≡ side_places) × (o.contract < contract_count) × Ranked o }
    ensures { result ≡ kept_by lasts.now legs.now o }
{
    let at = side_place(o);
    if lasts[at] <= rank_of(o) {
        return true;
    }
    is_full_leg(legs, o)
}

// Whether each order of the book is not ahead of the last leg of its contract and side, or is a leg in full.
fn are_kept(book: &[u64], count: usize, lasts: &[u64], legs: &[Leg]) -> bool
    requires { OrdersRanked count book.now × (length lasts.now ≡ side_places) }
    ensures { result ≡ every (kept_by lasts.now legs.now) (orders_in count book.now) }
{
    let mut ok = true;
    // By index: a host lends the book as numbers, and order_at reads an order out of them.
    for i in 0..count {
        ok &= is_kept(lasts, legs, order_at(book, i));
    }
    ok
}

// Whether each order of the book that is ahead of a leg is a leg in full.
pub fn is_priority_kept(book: &[u64], count: usize, places: &[usize], legs: &[Leg]) -> bool
    requires { OrdersRanked count book.now × PlacesFit count places.now }
    ensures { result ≡ every (λ o. not (is_ahead book.now places.now o) || is_full_leg legs.now o) (orders_in count book.now) }
{
    let mut lasts = [0u64; SIDE_PLACES];
    write_last_ranks(book, places, &mut lasts);
    are_kept(book, count, &lasts, legs)
}
