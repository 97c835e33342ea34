// A journal in words: a line for its header and for each record, and the first field that is out of its range.
#![tactic(auto)]

mod lines;
mod pieces;
mod ranges;
mod shapes;

pub use lines::{Listed, ROOM, put_header_line, put_record_line};
pub use pieces::{Piece, next_piece};
