// The types of the ledger, as every crate uses them. What they mean is said in specs/.
#![tactic(auto)]

mod contract;
mod event;
mod field;
pub mod kinds;
pub mod layout;
mod order;
pub mod ranges;
mod refusal;
mod units;

pub use contract::{ContractKind, Term};
pub use event::{
    Cancellation, CloseOutTerms, Event, Front, Leg, NewDayLimits, OrderKind, Submission,
};
pub use field::Field;
pub use order::{Order, Side};
pub use refusal::Refusal;
pub use units::{DayNo, Kurus, Lots, SignedLots, Value, Worth};
