// The journal program, for the program durskafn: a reader is read, run by crate journal, and what it prints written to standard
// output.
#![tactic(auto)]

mod shell;

pub use shell::journal_run;
