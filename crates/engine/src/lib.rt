// The ledger: made from the bytes of a journal's header, and one record after the other applied to it.
#![tactic(auto)]

mod applying;
mod event;
mod legs;
mod making;

pub use applying::apply;
pub use making::make;
