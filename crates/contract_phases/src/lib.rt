// Which contracts are still to close on a day, and the phase of each: closed, closing or later.
#![tactic(auto)]

mod by_contract;
mod least_days;

pub use by_contract::{CLOSED, CLOSING, Phase, PhasePlace, write_phases};
pub use least_days::{LeastDays, find_least, least_of};
