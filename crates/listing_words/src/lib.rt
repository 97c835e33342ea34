// The words that a line of the listing is made of.
#![tactic(auto)]

mod field;
mod names;

pub use field::{Quantity, Range, Shape, Verdict};
pub use names::{kind_word, name_of, order_kind_word, put_word, side_word};
