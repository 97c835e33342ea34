// Columns of a contract's lots, and the weights by days. They are handed tables that are long enough and not damaged.
#![tactic(auto)]

mod columns;
mod weights;

pub use columns::{Part, read_column};
pub use weights::weigh_by_days;
