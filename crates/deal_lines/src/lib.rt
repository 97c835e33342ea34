// Deal lines: each is added to its member's row of its contract, counted in the lots run and printed in the line table.
#![tactic(auto)]

mod lines;

pub use lines::{DealLine, book_line};
