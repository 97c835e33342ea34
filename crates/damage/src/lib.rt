// Whether a lent table is too short or damaged. Then every record is turned back with 1.
#![tactic(auto)]

mod between;
mod book;
mod head;
mod prices;
mod rows;
mod unsound;

pub use unsound::{is_ledger_unsound, is_unsound};
