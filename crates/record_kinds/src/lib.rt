// Each kind of record: its fields, the numbers of its event, and how many bytes it takes.
#![tactic(auto)]

mod fields;
mod lengths;
mod numbers;
mod order_kinds;
pub mod places;

pub use fields::{LEG_FIELDS, field_count, field_of, kind_fields, leg_field, width_of};
pub use lengths::{leg_place, record_length};
pub use numbers::{event_of, kind_number, leg_count, put_numbers};
