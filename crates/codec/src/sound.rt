// The ranges of document 01, tested once for reader and writer.
ghost use Rattle.std.specs.Prelude.{◌≡◌, [], ℕ, take};
ghost use Rattle.std.specs.List.{list_all};
ghost use Rattle.rules.specs.Records.{price_sound, lots_sound, leg_sound, event_sound};
ghost use Rattle.rules.specs.declared.event.Event.TheVariants.{Submit, Cancel, DayLimits, Proposal, Default, CloseOut};
ghost use Rattle.record_kinds.specs.Numbers.{leg_count};

use record_kinds::{kind_number, leg_count};
use rules::kinds::PROPOSAL;
use rules::ranges::{
    LAST_CONTRACT, LAST_SECOND, LEAST_LEGS, MOST_LEGS, MOST_LOTS, MOST_PRICE, MOST_RATIO,
    ORDER_NUMBERS_END,
};
use rules::{Cancellation, CloseOutTerms, Event, Kurus, Leg, Lots, NewDayLimits, Submission};

fn is_price_sound(price: Kurus) -> bool
    ensures { result ≡ price_sound price.0 }
{
    (1 <= price.0) & (price.0 <= MOST_PRICE)
}

fn are_lots_sound(lots: Lots) -> bool
    ensures { result ≡ lots_sound lots.0 }
{
    (1 <= lots.0) & (lots.0 <= MOST_LOTS)
}

fn is_submit_sound(members: u64, e: Submission) -> bool
    ensures { result ≡ event_sound members (Submit e) [] }
{
    let price = is_price_sound(e.price);
    let lots = are_lots_sound(e.lots);
    (e.time <= LAST_SECOND) & (e.member < members) & (e.contract <= LAST_CONTRACT) & price & lots
}

fn is_cancel_sound(members: u64, e: Cancellation) -> bool
    ensures { result ≡ event_sound members (Cancel e) [] }
{
    (e.time <= LAST_SECOND) & (e.member < members) & (e.order < ORDER_NUMBERS_END)
}

fn are_day_limits_sound(e: NewDayLimits) -> bool
    ensures { result ≡ event_sound 0 (DayLimits e) [] }
{
    let low = e.low.0;
    let high = e.high.0;
    (e.contract <= LAST_CONTRACT) & ((1 <= low) & (low <= high) & (high <= MOST_PRICE))
}

fn is_close_out_sound(e: CloseOutTerms) -> bool
    ensures { result ≡ event_sound 0 (CloseOut e) [] }
{
    (e.contract <= LAST_CONTRACT) & (1 <= e.ratio) & (e.ratio <= MOST_RATIO)
}

fn is_leg_sound(leg: Leg) -> bool
    ensures { result ≡ leg_sound leg }
{
    let lots = are_lots_sound(leg.lots);
    let price = is_price_sound(leg.price);
    (leg.order < ORDER_NUMBERS_END) & lots & price
}

fn are_legs_sound(legs: &[Leg]) -> bool
    ensures { result ≡ list_all leg_sound legs.now }
{
    legs.iter().all(|leg| is_leg_sound(*leg))
}

// Whether a proposal of so many legs is sound with the first ones of a slice.
pub fn is_proposal_sound(count: u64, legs: &[Leg]) -> bool
    ensures { (n : ℕ) → result ≡ event_sound n (Proposal count) (take count legs.now) }
{
    if count < LEAST_LEGS {
        return false;
    }
    if MOST_LEGS < count {
        return false;
    }
    let n = count as usize;
    if legs.len() < n {
        return false;
    }
    are_legs_sound(&legs[..n])
}

// Whether an event with no legs beside it is sound in a ledger of that many members; a proposal without legs is not.
pub fn is_legless_sound(members: u64, event: Event) -> bool
    ensures { result ≡ event_sound members event [] }
{
    match event {
        Event::Submit(e) => is_submit_sound(members, e),
        Event::Cancel(e) => is_cancel_sound(members, e),
        Event::DayLimits(e) => are_day_limits_sound(e),
        Event::Proposal(_) => false,
        Event::Default(member) => member < members,
        Event::CloseOut(e) => is_close_out_sound(e),
        Event::CloseOfDay(time) => time <= LAST_SECOND,
    }
}

// Whether an event with its legs, the first ones of a slice, is sound.
pub fn is_event_sound(members: u64, event: Event, legs: &[Leg]) -> bool
    ensures { result ≡ event_sound members event (take (leg_count event) legs.now) }
{
    // By the number of the kind, as the reader asks.
    if kind_number(event) == PROPOSAL {
        return is_proposal_sound(leg_count(event), legs);
    }
    is_legless_sound(members, event)
}
