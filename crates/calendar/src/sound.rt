// Which first years, holidays and days are sound. The span is found once and handed on.
ghost use Rattle.std.specs.Prelude.{◌≡◌, ◌&&◌, ℕ};
ghost use Rattle.arith.specs.Lists.{every};
ghost use Rattle.rules.specs.Days.{Calendar, business_day, in_span};
ghost use Rattle.rules.specs.Header.{rising, first_year_sound, calendar_sound};
ghost use Rattle.months.specs.Bounds.{FirstYear};
ghost use Rattle.months.specs.Spans.{IsSpan, lies_in};

use crate::days::is_business_day;
use months::{Span, is_in};
use rules::DayNo;
use rules::ranges::{LEAST_FIRST_YEAR, MOST_FIRST_YEAR, MOST_HOLIDAYS};

pub fn is_first_year_sound(first_year: u64) -> bool
    ensures { result ≡ first_year_sound first_year }
{
    (LEAST_FIRST_YEAR <= first_year) & (first_year <= MOST_FIRST_YEAR)
}

// Whether the numbers rise strictly.
pub fn are_rising(numbers: &[u64]) -> bool
    ensures { result ≡ rising numbers.now }
{
    numbers.is_sorted_by(|x, y| x < y)
}

fn are_in(span: Span, days: &[u64]) -> bool
    ensures { (k : Calendar) → IsSpan span k → result ≡ every (in_span k) days.now }
{
    days.iter().all(|day| is_in(span, DayNo(*day)))
}

// Whether a calendar is sound, given a sound first year and its span.
pub fn is_calendar_sound(first_year: u64, span: Span, holidays: &[u64]) -> bool
    requires { FirstYear first_year × IsSpan span (record { first_year = first_year; holidays = holidays.now }) }
    ensures { result ≡ calendar_sound (record { first_year = first_year; holidays = holidays.now }) }
{
    if MOST_HOLIDAYS < holidays.len() as u64 {
        return false;
    }
    are_rising(holidays) & are_in(span, holidays)
}

// Whether a day is a business day in the span, whatever the first year.
pub fn is_day_sound(span: Span, holidays: &[u64], day: DayNo) -> bool
    ensures { (y : ℕ) → result ≡ lies_in span day.0 && business_day (record { first_year = y; holidays = holidays.now }) day.0 }
{
    is_in(span, day) & is_business_day(holidays, day)
}
