// Whether a synthetic proposal is acceptable. It is handed tables that are long enough and not damaged, and legs in their ranges.
#![tactic(auto)]

mod acceptable;
mod balance;
mod conditions;
mod legs;
mod places;
mod priority;
mod side_places;

pub use acceptable::is_acceptable;
pub use legs::are_legs_acceptable;
pub use places::write_places;
