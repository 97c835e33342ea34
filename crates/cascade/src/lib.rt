// The cascade of the closing contracts at the close of a day, in one column of rows.
#![tactic(auto)]

mod rows;

pub use rows::cascade_all;
