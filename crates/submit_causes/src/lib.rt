// The causes of a submit. They are handed tables that are long enough and not damaged, and a record that was read.
#![tactic(auto)]

mod causes;
mod position;

pub use causes::{first_cause, is_resting, measured_cause};
