// A ledger's span: six years from the first day of its first year.
ghost use Rattle.std.specs.Prelude.{◌≡◌, List, ℕ, ◌+◌, length};
ghost use Rattle.rules.specs.Ranges.{months_in_span};
ghost use Rattle.rules.specs.Days.{first_month};
ghost use Rattle.months.specs.Bounds.{FirstYear};
ghost use Rattle.months.specs.Spans.{IsSpanOf, lies_in, starts_of};

use crate::months::{Span, months_span, read_months};
use rules::DayNo;
use rules::ranges::{MONTHS_IN_SPAN, MONTHS_IN_YEAR, YEAR_OF_DAY_ZERO};

// The span's first month, whatever the holidays.
pub fn first_month(first_year: u64) -> u64
    requires { FirstYear first_year }
    ensures { (h : List ℕ) → result ≡ first_month (record { first_year = first_year; holidays = h }) }
{
    MONTHS_IN_YEAR * (first_year - YEAR_OF_DAY_ZERO)
}

// The ledger's span, whatever the holidays.
pub fn span_of(first_year: u64) -> Span
    requires { FirstYear first_year }
    ensures { IsSpanOf result first_year }
{
    let month = first_month(first_year);
    months_span(month, month + MONTHS_IN_SPAN)
}

// How many first days a span has: its months', and the day after them.
pub const SPAN_STARTS: usize = MONTHS_IN_SPAN as usize + 1;

// The first days of a ledger's months and the day after them, whatever the holidays.
pub fn read_starts(first_year: u64, starts: &mut [u64])
    requires { FirstYear first_year × (length starts.old ≡ months_in_span + 1) }
    ensures { (h : List ℕ) → starts.new ≡ starts_of (record { first_year = first_year; holidays = h }) }
{
    read_months(first_month(first_year), starts);
}

pub fn is_in(span: Span, day: DayNo) -> bool
    ensures { result ≡ lies_in span day.0 }
{
    (span.start.0 <= day.0) & (day.0 < span.end.0)
}
