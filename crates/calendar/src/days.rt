// Business days.
ghost use Rattle.std.specs.Prelude.{◌≡◌, ℕ, ◌-◌, eqb};
ghost use Rattle.arith.specs.Lists.{any};
ghost use Rattle.rules.specs.Days.{business_day, first_business_day, next_business_day, business_day_before};
ghost use Rattle.months.specs.Bounds.{FirstYear};

use months::span_of;
use rules::DayNo;

// The days of a week are counted from Wednesday, which day 0 is.
pub const DAYS_IN_WEEK: u64 = 7;

pub const SATURDAY: u64 = 3;

pub const SUNDAY: u64 = 4;

// Whether a day is a holiday. It reads the whole list, with no branch out of the loop: with `contains` a day takes three times
// as long where there are 120 holidays.
fn is_holiday(holidays: &[u64], day: DayNo) -> bool
    ensures { result ≡ any (λ x. eqb x day.0) holidays.now }
{
    let mut found = false;
    for holiday in holidays {
        found |= *holiday == day.0;
    }
    found
}

// Whether a day is a business day, whatever the first year.
pub fn is_business_day(holidays: &[u64], day: DayNo) -> bool
    ensures { (y : ℕ) → result ≡ business_day (record { first_year = y; holidays = holidays.now }) day.0 }
{
    let weekday = day.0 % DAYS_IN_WEEK;
    if weekday == SATURDAY {
        return false;
    }
    if weekday == SUNDAY {
        return false;
    }
    !is_holiday(holidays, day)
}

// The first business day from `from` up to but not including `end`.
fn first_business_day(holidays: &[u64], from: DayNo, end: DayNo) -> Option<DayNo>
    ensures { (y : ℕ) → result ≡ first_business_day (record { first_year = y; holidays = holidays.now }) (end.0 - from.0) from.0 }
{
    for x in from.0..end.0 {
        if is_business_day(holidays, DayNo(x)) {
            return Some(DayNo(x));
        }
    }
    None
}

// The nth business day before a day.
pub fn business_day_before(holidays: &[u64], n: u64, day: DayNo) -> Option<DayNo>
    ensures { (y : ℕ) → result ≡ business_day_before (record { first_year = y; holidays = holidays.now }) n day.0 }
{
    let mut to_count = n;
    for x in (0..day.0).rev() {
        if is_business_day(holidays, DayNo(x)) {
            if to_count <= 1 {
                return Some(DayNo(x));
            }
            to_count -= 1;
        }
    }
    None
}

pub fn next_business_day(first_year: u64, holidays: &[u64], day: DayNo) -> Option<DayNo>
    requires { FirstYear first_year }
    ensures { result ≡ next_business_day (record { first_year = first_year; holidays = holidays.now }) day.0 }
{
    let span = span_of(first_year);
    if span.end.0 <= day.0 {
        return None;
    }
    first_business_day(holidays, DayNo(day.0 + 1), span.end)
}
