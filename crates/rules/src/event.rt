use crate::order::Side;
use crate::units::{Kurus, Lots};

#[derive(Clone, Copy, PartialEq, Eq)]
pub enum OrderKind {
    // Matches what is there and rests with what is left.
    Resting,
    // OEYE: match what is there and drop the rest.
    Oeye,
    // TEYE: match all or nothing.
    Teye,
}

#[derive(Clone, Copy)]
pub struct Submission {
    pub time: u64,
    pub member: u64,
    pub contract: u64,
    pub side: Side,
    pub kind: OrderKind,
    pub price: Kurus,
    pub lots: Lots,
}

#[derive(Clone, Copy)]
pub struct Cancellation {
    pub time: u64,
    pub member: u64,
    // The order's number.
    pub order: u64,
}

#[derive(Clone, Copy)]
pub struct NewDayLimits {
    pub contract: u64,
    pub low: Kurus,
    pub high: Kurus,
}

#[derive(Clone, Copy)]
pub struct CloseOutTerms {
    pub contract: u64,
    // Per mille.
    pub ratio: u64,
}

// A leg of a synthetic proposal. An enum holds no list, so a proposal's legs stand beside its event.
#[derive(Clone, Copy)]
pub struct Leg {
    // The order's number.
    pub order: u64,
    pub lots: Lots,
    pub price: Kurus,
}

// A record's kinds, in the order of their numbers, 1 to 7.
#[derive(Clone, Copy)]
pub enum Event {
    Submit(Submission),
    Cancel(Cancellation),
    DayLimits(NewDayLimits),
    // With the number of its legs.
    Proposal(u64),
    // With the member.
    Default(u64),
    CloseOut(CloseOutTerms),
    // With the time.
    CloseOfDay(u64),
}

// What stands at the front of a stream of records: three outcomes that callers tell apart, none an error of the others.
#[derive(Clone, Copy)]
pub enum Front {
    // A whole record, with its length in bytes.
    Whole(u64),
    // Less than a record.
    Cut,
    // No kind of record has that number.
    UnknownKind,
}
