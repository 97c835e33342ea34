// An incoming order meets the orders of the book.
#![tactic(auto)]

mod columns;
mod crossing;
mod deals;
mod levels;

pub use crossing::{Crossing, measure};
pub use deals::{Counterparty, DEAL_WIDTH, deal_at};
pub use levels::{Matched, match_orders};
