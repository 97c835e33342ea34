// An event as numbers, its kind and then one for each field of the kind, and the event of such numbers: said once for the
// bytes of a journal and for rows of numbers.
ghost use Rattle.std.specs.Prelude.{◌≡◌, ◌∷◌, ◌<◌, ◌≤◌, length, get_or};
ghost use Rattle.arith.specs.Lists.{over};
ghost use Rattle.rules.specs.declared.event.Event.TheVariants.{Submit, Cancel, DayLimits, Proposal, Default, CloseOut, CloseOfDay};
ghost use Rattle.rules.specs.Records.{kind_number, event_numbers, submit_of, cancellation_of, new_day_limits_of, close_out_of, event_by_kind};
ghost use Rattle.record_kinds.specs.Numbers.{most_numbers, leg_count};

use crate::order_kinds::{order_kind_number, order_kind_of};
use crate::places::{
    CANCEL_MEMBER, CANCEL_ORDER, CANCEL_TIME, CLOSE_OF_DAY_TIME, CLOSE_OUT_CONTRACT,
    CLOSE_OUT_RATIO, DAY_LIMITS_CONTRACT, DAY_LIMITS_HIGH, DAY_LIMITS_LOW, DEFAULT_MEMBER,
    KIND_NUMBER, PROPOSAL_LEGS, SUBMIT_CONTRACT, SUBMIT_LOTS, SUBMIT_MEMBER, SUBMIT_ORDER_KIND,
    SUBMIT_PRICE, SUBMIT_SIDE, SUBMIT_TIME,
};
use rules::kinds::{CANCEL, CLOSE_OF_DAY, CLOSE_OUT, DAY_LIMITS, DEFAULT, PROPOSAL, SUBMIT};
use rules::ranges::{LAST_ORDER_KIND, LAST_SIDE};
use rules::{Cancellation, CloseOutTerms, Event, Kurus, Lots, NewDayLimits, Submission};
use sides::{side_number, side_of};

// The number of an event's kind of record, which fits a byte.
pub fn kind_number(event: Event) -> u64
    ensures { (result ≡ kind_number event) × (result < 256) }
{
    match event {
        Event::Submit(_) => SUBMIT,
        Event::Cancel(_) => CANCEL,
        Event::DayLimits(_) => DAY_LIMITS,
        Event::Proposal(_) => PROPOSAL,
        Event::Default(_) => DEFAULT,
        Event::CloseOut(_) => CLOSE_OUT,
        Event::CloseOfDay(_) => CLOSE_OF_DAY,
    }
}

// How many legs stand beside an event.
pub fn leg_count(event: Event) -> u64
    ensures { result ≡ leg_count event }
{
    match event {
        Event::Proposal(count) => count,
        Event::Submit(_)
        | Event::Cancel(_)
        | Event::DayLimits(_)
        | Event::Default(_)
        | Event::CloseOut(_)
        | Event::CloseOfDay(_) => 0,
    }
}

// ---- the event of numbers, its fields in range or not
fn submit_of(numbers: &[u64]) -> Option<Event>
    requires { most_numbers ≤ length numbers.now }
    ensures { result ≡ submit_of numbers.now }
{
    let side = numbers[SUBMIT_SIDE];
    let kind = numbers[SUBMIT_ORDER_KIND];
    if !((side <= LAST_SIDE) & (kind <= LAST_ORDER_KIND)) {
        return None;
    }
    Some(Event::Submit(Submission {
        time: numbers[SUBMIT_TIME],
        member: numbers[SUBMIT_MEMBER],
        contract: numbers[SUBMIT_CONTRACT],
        side: side_of(side),
        kind: order_kind_of(kind),
        price: Kurus(numbers[SUBMIT_PRICE]),
        lots: Lots(numbers[SUBMIT_LOTS]),
    }))
}

fn cancellation_of(numbers: &[u64]) -> Cancellation
    requires { most_numbers ≤ length numbers.now }
    ensures { result ≡ cancellation_of numbers.now }
{
    Cancellation {
        time: numbers[CANCEL_TIME],
        member: numbers[CANCEL_MEMBER],
        order: numbers[CANCEL_ORDER],
    }
}

fn new_day_limits_of(numbers: &[u64]) -> NewDayLimits
    requires { most_numbers ≤ length numbers.now }
    ensures { result ≡ new_day_limits_of numbers.now }
{
    NewDayLimits {
        contract: numbers[DAY_LIMITS_CONTRACT],
        low: Kurus(numbers[DAY_LIMITS_LOW]),
        high: Kurus(numbers[DAY_LIMITS_HIGH]),
    }
}

fn close_out_of(numbers: &[u64]) -> CloseOutTerms
    requires { most_numbers ≤ length numbers.now }
    ensures { result ≡ close_out_of numbers.now }
{
    CloseOutTerms {
        contract: numbers[CLOSE_OUT_CONTRACT],
        ratio: numbers[CLOSE_OUT_RATIO],
    }
}

pub fn event_of(numbers: &[u64]) -> Option<Event>
    requires { most_numbers ≤ length numbers.now }
    ensures { result ≡ event_by_kind (get_or numbers.now 0 0) numbers.now }
{
    // A record's first byte becomes an event here; a second enum, of kinds alone, would only stand between them.
    match numbers[KIND_NUMBER] {
        SUBMIT => submit_of(numbers),
        CANCEL => Some(Event::Cancel(cancellation_of(numbers))),
        DAY_LIMITS => Some(Event::DayLimits(new_day_limits_of(numbers))),
        PROPOSAL => Some(Event::Proposal(numbers[PROPOSAL_LEGS])),
        DEFAULT => Some(Event::Default(numbers[DEFAULT_MEMBER])),
        CLOSE_OUT => Some(Event::CloseOut(close_out_of(numbers))),
        CLOSE_OF_DAY => Some(Event::CloseOfDay(numbers[CLOSE_OF_DAY_TIME])),
        _ => None,
    }
}

// ---- the numbers of an event
fn put_submit(numbers: &mut [u64], e: Submission)
    requires { most_numbers ≤ length numbers.old }
    ensures { numbers.new ≡ over 0 (kind_number (Submit e) ∷ event_numbers (Submit e)) numbers.old }
{
    numbers[KIND_NUMBER] = SUBMIT;
    numbers[SUBMIT_TIME] = e.time;
    numbers[SUBMIT_MEMBER] = e.member;
    numbers[SUBMIT_CONTRACT] = e.contract;
    numbers[SUBMIT_SIDE] = side_number(e.side);
    numbers[SUBMIT_ORDER_KIND] = order_kind_number(e.kind);
    numbers[SUBMIT_PRICE] = e.price.0;
    numbers[SUBMIT_LOTS] = e.lots.0;
}

fn put_cancel(numbers: &mut [u64], e: Cancellation)
    requires { most_numbers ≤ length numbers.old }
    ensures { numbers.new ≡ over 0 (kind_number (Cancel e) ∷ event_numbers (Cancel e)) numbers.old }
{
    numbers[KIND_NUMBER] = CANCEL;
    numbers[CANCEL_TIME] = e.time;
    numbers[CANCEL_MEMBER] = e.member;
    numbers[CANCEL_ORDER] = e.order;
}

fn put_day_limits(numbers: &mut [u64], e: NewDayLimits)
    requires { most_numbers ≤ length numbers.old }
    ensures { numbers.new ≡ over 0 (kind_number (DayLimits e) ∷ event_numbers (DayLimits e)) numbers.old }
{
    numbers[KIND_NUMBER] = DAY_LIMITS;
    numbers[DAY_LIMITS_CONTRACT] = e.contract;
    numbers[DAY_LIMITS_LOW] = e.low.0;
    numbers[DAY_LIMITS_HIGH] = e.high.0;
}

fn put_proposal(numbers: &mut [u64], count: u64)
    requires { most_numbers ≤ length numbers.old }
    ensures { numbers.new ≡ over 0 (kind_number (Proposal count) ∷ event_numbers (Proposal count)) numbers.old }
{
    numbers[KIND_NUMBER] = PROPOSAL;
    numbers[PROPOSAL_LEGS] = count;
}

fn put_default(numbers: &mut [u64], member: u64)
    requires { most_numbers ≤ length numbers.old }
    ensures { numbers.new ≡ over 0 (kind_number (Default member) ∷ event_numbers (Default member)) numbers.old }
{
    numbers[KIND_NUMBER] = DEFAULT;
    numbers[DEFAULT_MEMBER] = member;
}

fn put_close_out(numbers: &mut [u64], e: CloseOutTerms)
    requires { most_numbers ≤ length numbers.old }
    ensures { numbers.new ≡ over 0 (kind_number (CloseOut e) ∷ event_numbers (CloseOut e)) numbers.old }
{
    numbers[KIND_NUMBER] = CLOSE_OUT;
    numbers[CLOSE_OUT_CONTRACT] = e.contract;
    numbers[CLOSE_OUT_RATIO] = e.ratio;
}

fn put_close_of_day(numbers: &mut [u64], time: u64)
    requires { most_numbers ≤ length numbers.old }
    ensures { numbers.new ≡ over 0 (kind_number (CloseOfDay time) ∷ event_numbers (CloseOfDay time)) numbers.old }
{
    numbers[KIND_NUMBER] = CLOSE_OF_DAY;
    numbers[CLOSE_OF_DAY_TIME] = time;
}

pub fn put_numbers(numbers: &mut [u64], event: Event)
    requires { most_numbers ≤ length numbers.old }
    ensures { numbers.new ≡ over 0 (kind_number event ∷ event_numbers event) numbers.old }
{
    match event {
        Event::Submit(e) => put_submit(numbers, e),
        Event::Cancel(e) => put_cancel(numbers, e),
        Event::DayLimits(e) => put_day_limits(numbers, e),
        Event::Proposal(count) => put_proposal(numbers, count),
        Event::Default(member) => put_default(numbers, member),
        Event::CloseOut(e) => put_close_out(numbers, e),
        Event::CloseOfDay(time) => put_close_of_day(numbers, time),
    }
}
