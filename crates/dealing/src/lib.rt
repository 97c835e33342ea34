// Lots given up by defaulted members, and lots dealt out to the others in turns.
#![tactic(auto)]

mod columns;
mod level;
mod minimums;
mod order;
mod turns;

pub use columns::{give_up, sum_of};
pub use turns::deal_out;
