// The first days of the months, a constant table, and a ledger's span among them. The first year must be 2020 to 2094. All
// callers are proved code; what reads a header or lent tables tests it first.
#![tactic(auto)]

mod months;
mod span;

pub use months::{Span, month_start};
pub use span::{SPAN_STARTS, first_month, is_in, read_starts, span_of};
