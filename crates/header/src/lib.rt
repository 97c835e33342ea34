// The header of a journal: which are sound, reading and writing.
#![tactic(auto)]

mod journal;
mod reader;
mod writer;

pub use journal::{
    FIRST_HOLIDAY_BYTE, FIRST_YEAR_BYTE, HOLIDAY_COUNT_BYTE, HOLIDAY_LENGTH, JournalHeader,
    LIMIT_LENGTH, MEMBERS_BYTE, START_DAY_BYTE, header_length, is_member_count_sound,
};
pub use reader::{ReadHeader, read_header};
pub use writer::write_header;
