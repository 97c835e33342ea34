// The listing program, for the program durskafn: a reader is read, listed by crate listing, and the lines written to standard
// output.
#![tactic(auto)]

mod shell;

pub use shell::listing_run;
