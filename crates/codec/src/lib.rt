// The records of a journal: read, written, and found one after the other.
#![tactic(auto)]

mod legs;
mod read;
mod sound;
mod stream;
mod write;

pub use legs::{NO_LEG, read_legs};
pub use read::read_record;
pub use sound::is_proposal_sound;
pub use stream::front_record;
pub use write::write_record;
