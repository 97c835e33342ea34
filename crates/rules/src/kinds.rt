// The kinds of record, by the number that is a record's first byte.
pub const SUBMIT: u64 = 1;

pub const CANCEL: u64 = 2;

pub const DAY_LIMITS: u64 = 3;

pub const PROPOSAL: u64 = 4;

pub const DEFAULT: u64 = 5;

pub const CLOSE_OUT: u64 = 6;

pub const CLOSE_OF_DAY: u64 = 7;
