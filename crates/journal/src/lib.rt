// The journal program without its reading and writing: what stands in the input is run, what it prints is written over
// the output. Nothing here reads or writes a file.
#![tactic(auto)]

mod advancing;
mod beginning;
mod record;
mod run;
mod stage;

pub use advancing::advance;
pub use stage::{Progress, Stage, Wants};
