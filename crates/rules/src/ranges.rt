// Numbers of document 01 that stand in several places, as specs/Ranges has them, and the last contract, side and order kind.

pub const CONTRACTS_IN_YEAR: u64 = 17;

pub const YEARS_IN_SPAN: u64 = 6;

pub const QUARTERS_IN_SPAN: u64 = 24;

pub const MONTHS_IN_SPAN: u64 = 72;

pub const QUARTERS_IN_YEAR: u64 = 4;

pub const MONTHS_IN_YEAR: u64 = 12;

pub const MONTHS_IN_QUARTER: u64 = 3;

// The places of a year's contracts: 0 the year itself, 1 to 4 its quarters, 5 to 16 its months.
pub const FIRST_QUARTER: u64 = 1;

pub const LAST_QUARTER: u64 = 4;

pub const JANUARY: u64 = 5;

// How many contracts have rows, prices and orders.
pub const CONTRACT_COUNT: u64 = 102;

pub const LAST_CONTRACT: u64 = CONTRACT_COUNT - 1;

// How many contracts have a term, that is a period by their number: 17 for each of six years.
pub const TERM_COUNT: u64 = YEARS_IN_SPAN * CONTRACTS_IN_YEAR;

// Day 0 is 1 January of this year.
pub const YEAR_OF_DAY_ZERO: u64 = 2020;

pub const LEAST_FIRST_YEAR: u64 = 2020;

pub const MOST_FIRST_YEAR: u64 = 2094;

pub const MOST_MEMBERS: u64 = 32;

pub const MOST_ORDERS: u64 = 256;

pub const LEAST_LINES: u64 = 200;

// A time is 0 to 86,399 s.
pub const LAST_SECOND: u64 = 86399;

pub const MOST_HOLIDAYS: u64 = 120;

pub const MOST_LIMIT: u64 = 100000;

pub const MOST_PRICE: u64 = 1000000;

pub const MOST_LOTS: u64 = 100;

pub const LEAST_LEGS: u64 = 2;

pub const MOST_LEGS: u64 = 12;

// An order number is a u32.
pub const ORDER_NUMBERS_END: u64 = 4294967296;

// A side is 0 or 1, an order kind 0 to 2.
pub const LAST_SIDE: u64 = 1;

pub const LAST_ORDER_KIND: u64 = 2;

pub const MOST_RATIO: u64 = 1000;

pub const MOST_SUBMITS_IN_SECOND: u64 = 5;

pub const SECONDS_TO_QUOTE: u64 = 300;

pub const MOST_LOTS_RUN: u64 = 5000000;

pub const MOST_ACCEPTED_SUBMITS: u64 = 4000000000;
