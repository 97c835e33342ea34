// Headers and records as rows of numbers, for a host that knows no event.
#![tactic(auto)]

mod event;
mod headers;
mod numbers;
mod places;
mod records;

pub use headers::{read_header_fields, write_header_fields};
pub use records::{read_record_fields, write_record_fields};
