// Places of a row. A record's numbers are its kind and its fields in the order of rules, Fields; a header's are those of specs/HeaderFields.
use record_kinds::LEG_FIELDS;
use rules::layout::LEG_PLACES;

// ---- a record
// After a proposal's kind and its number of legs.
pub const FIRST_LEG_FIELD: usize = 2;

// As many as a proposal of 12 legs has.
pub const RECORD_FIELDS: usize = FIRST_LEG_FIELD + LEG_FIELDS * LEG_PLACES;

// ---- a header
pub const HEADER_FIELDS: usize = 156;

pub const FIRST_YEAR_FIELD: usize = 0;

pub const START_DAY_FIELD: usize = 1;

pub const MEMBERS_FIELD: usize = 2;

pub const HOLIDAY_COUNT_FIELD: usize = 3;

pub const HOLIDAYS_FIELD: usize = 4;

pub const LIMITS_FIELD: usize = 124;
