// Where a record's kind, a proposal's count and its legs stand, in bytes, and where each number of an event stands.

// ---- in bytes
pub const KIND_BYTE: usize = 0;

pub const FIRST_FIELD_BYTE: usize = 1;

pub const PROPOSAL_LEGS_BYTE: usize = 1;

pub const FIRST_LEG_BYTE: usize = 2;

// In a leg, which begins with the order's number.
pub const LEG_LOTS_BYTE: usize = 4;

pub const LEG_PRICE_BYTE: usize = 6;

pub const LEG_LENGTH: usize = 10;

// ---- in the numbers of an event: its kind, then its fields in their order
// How many numbers an event has at most, its legs aside.
pub const MOST_NUMBERS: usize = 8;

pub const KIND_NUMBER: usize = 0;

pub const FIRST_FIELD_NUMBER: usize = 1;

pub const SUBMIT_TIME: usize = 1;

pub const SUBMIT_MEMBER: usize = 2;

pub const SUBMIT_CONTRACT: usize = 3;

pub const SUBMIT_SIDE: usize = 4;

pub const SUBMIT_ORDER_KIND: usize = 5;

pub const SUBMIT_PRICE: usize = 6;

pub const SUBMIT_LOTS: usize = 7;

pub const CANCEL_TIME: usize = 1;

pub const CANCEL_MEMBER: usize = 2;

pub const CANCEL_ORDER: usize = 3;

pub const DAY_LIMITS_CONTRACT: usize = 1;

pub const DAY_LIMITS_LOW: usize = 2;

pub const DAY_LIMITS_HIGH: usize = 3;

pub const PROPOSAL_LEGS: usize = 1;

pub const DEFAULT_MEMBER: usize = 1;

pub const CLOSE_OUT_CONTRACT: usize = 1;

pub const CLOSE_OUT_RATIO: usize = 2;

pub const CLOSE_OF_DAY_TIME: usize = 1;
