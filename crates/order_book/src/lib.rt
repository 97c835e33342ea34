// The order book: resting orders read and written, and orders that leave. docs/LAYOUT.md has every place.
#![tactic(auto)]

mod leaving;
mod orders;

pub use leaving::{Leaving, keep_orders, remove_orders, remove_where, with_lots, would_any_leave};
pub use orders::{order_at, put_order};
