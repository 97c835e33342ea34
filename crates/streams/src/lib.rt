// Standard input and standard output for the shells of the programs: buffers that are read and written, how far a run is, and
// the exit status. No contract can say what a read brought or a write took.
#![tactic(auto)]

mod ending;
mod failure;
mod progress;
mod window;

pub use ending::{Ending, status};
pub use failure::fail;
pub use progress::{Progress, start};
pub use window::{Window, finish, first_window, read_more, write_out};
