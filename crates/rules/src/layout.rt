// Every place, width and least length of the lent tables; specs/Ledger says what stands there. Beside them the places of a
// year's contracts, as specs/Ranges has them.
use crate::ranges;
use crate::ranges::{
    CONTRACT_COUNT, LEAST_LINES, MOST_HOLIDAYS, MOST_LEGS, MOST_MEMBERS, MOST_ORDERS, TERM_COUNT,
};

// ---- one place for each member, each holiday, each leg of a proposal
pub const MEMBER_PLACES: usize = MOST_MEMBERS as usize;

pub const HOLIDAY_PLACES: usize = MOST_HOLIDAYS as usize;

pub const LEG_PLACES: usize = MOST_LEGS as usize;

// ---- one place for each contract that has a term
pub const TERMS: usize = TERM_COUNT as usize;

// ---- the contracts of a year, as places
pub const CONTRACTS_IN_YEAR: usize = ranges::CONTRACTS_IN_YEAR as usize;

pub const QUARTERS_IN_YEAR: usize = ranges::QUARTERS_IN_YEAR as usize;

pub const MONTHS_IN_QUARTER: usize = ranges::MONTHS_IN_QUARTER as usize;

pub const FIRST_QUARTER: usize = ranges::FIRST_QUARTER as usize;

pub const JANUARY: usize = ranges::JANUARY as usize;

// ---- the head
pub const FIRST_YEAR: usize = 0;

pub const MEMBERS: usize = 1;

pub const HOLIDAY_COUNT: usize = 2;

pub const DAY: usize = 3;

pub const TIME: usize = 4;

pub const ACCEPTED_SUBMITS: usize = 5;

pub const LOTS_RUN: usize = 6;

pub const ORDER_COUNT: usize = 7;

// Where the holidays begin, and one place for each member: its limit, its default mark, its submits this second.
pub const HOLIDAYS: usize = 8;

pub const LIMITS: usize = HOLIDAYS + HOLIDAY_PLACES;

pub const MARKS: usize = LIMITS + MEMBER_PLACES;

pub const SUBMITS: usize = MARKS + MEMBER_PLACES;

// A member's mark once it has defaulted.
pub const DEFAULT_MARK: u64 = 1;

pub const HEAD_LENGTH: usize = SUBMITS + MEMBER_PLACES;

// ---- prices, one contract after the other
pub const PRICE_WIDTH: usize = 5;

pub const GGF: usize = 0;

pub const LOW: usize = 1;

pub const HIGH: usize = 2;

pub const DAY_LOTS: usize = 3;

pub const DAY_VALUE: usize = 4;

pub const PRICES_LENGTH: usize = CONTRACTS * PRICE_WIDTH;

// ---- rows, one contract after the other, member by member
pub const ROW_WIDTH: usize = MEMBER_PLACES;

pub const CONTRACTS: usize = CONTRACT_COUNT as usize;

pub const ROWS_LENGTH: usize = CONTRACTS * ROW_WIDTH;

// ---- the book, one order after the other
pub const ORDERS: usize = MOST_ORDERS as usize;

pub const ORDER_WIDTH: usize = 8;

pub const ORDER_NUMBER: usize = 0;

pub const ORDER_MEMBER: usize = 1;

pub const ORDER_CONTRACT: usize = 2;

pub const ORDER_SIDE: usize = 3;

pub const ORDER_PRICE: usize = 4;

pub const ORDER_LOTS: usize = 5;

pub const ORDER_DAY: usize = 6;

pub const ORDER_TIME: usize = 7;

pub const BOOK_LENGTH: usize = ORDERS * ORDER_WIDTH;

// ---- deal lines, one after the other
pub const LINE_WIDTH: usize = 4;

pub const LINE_MEMBER: usize = 0;

pub const LINE_CONTRACT: usize = 1;

pub const LINE_LOTS: usize = 2;

pub const LINE_PRICE: usize = 3;

pub const LINES_LENGTH: usize = LEAST_LINES as usize * LINE_WIDTH;
