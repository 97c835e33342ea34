// Whether a proposal is acceptable, its legs given as structs. It is handed tables that are long enough and not damaged.
#![tactic(auto)]

mod legs;
mod lender;

pub use legs::are_legs_acceptable;
pub use lender::are_first_acceptable;
