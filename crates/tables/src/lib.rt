// The lent tables: whether they are long enough, what is read and written in the head, and places set to zero.
// docs/LAYOUT.md has every place.
#![tactic(auto)]

mod clearing;
mod head;
mod lengths;
mod lent;

pub use clearing::{clear_at, clear_rows};
pub use head::{is_contract_open, set_time};
pub use lengths::{is_ledger_short, is_lines_short};
pub use lent::LentTables;
