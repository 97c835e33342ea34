// Business days, and which calendars are sound: each function promises what a definition of `rules` says. A ledger's calendar
// is its first year and its holidays.
#![tactic(auto)]

mod days;
mod sound;

pub use days::{
    DAYS_IN_WEEK, SATURDAY, SUNDAY, business_day_before, is_business_day, next_business_day,
};
pub use sound::{are_rising, is_calendar_sound, is_day_sound, is_first_year_sound};
