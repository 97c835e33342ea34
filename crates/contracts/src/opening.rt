// Closing days, and which contracts are open.
ghost use Rattle.std.specs.Prelude.{◌≡◌, List, ℕ};
ghost use Rattle.rules.specs.ContractTerms.{term_first_day, term_closing_day, still_to_close, open_on};
ghost use Rattle.rules.specs.OtherForms.{open_by_count};
ghost use Rattle.months.specs.Bounds.{FirstYear};
ghost use Rattle.contracts.specs.InLedger.{InLedger};

use crate::terms::{months_in, term_of};
use calendar::business_day_before;
use months::{first_month, month_start};
use rules::ranges::TERM_COUNT;
use rules::{DayNo, Term};

// The first delivery day, whatever the holidays.
fn term_first_day(first_year: u64, t: Term) -> DayNo
    requires { FirstYear first_year × InLedger t }
    ensures { (h : List ℕ) → result.0 ≡ term_first_day (record { first_year = first_year; holidays = h }) t }
{
    month_start(first_month(first_year) + months_in(t.kind) * t.index)
}

fn term_closing_day(first_year: u64, holidays: &[u64], t: Term) -> Option<DayNo>
    requires { FirstYear first_year × InLedger t }
    ensures { result ≡ term_closing_day (record { first_year = first_year; holidays = holidays.now }) t }
{
    business_day_before(
        holidays,
        t.kind.closing_distance(),
        term_first_day(first_year, t),
    )
}

// Whether a contract closes on this day or later.
fn still_to_close(first_year: u64, holidays: &[u64], day: DayNo, t: Term) -> bool
    requires { FirstYear first_year × InLedger t }
    ensures { result ≡ still_to_close (record { first_year = first_year; holidays = holidays.now }) day.0 t }
{
    match term_closing_day(first_year, holidays, t) {
        Some(x) => day.0 <= x.0,
        None => false,
    }
}

// Closing days rise with delivery, so two decide: the contract's own, and that of the contract that must have closed before it opens.
fn is_open_term(first_year: u64, holidays: &[u64], day: DayNo, t: Term) -> bool
    requires { FirstYear first_year × InLedger t }
    ensures { result ≡ open_by_count (record { first_year = first_year; holidays = holidays.now }) day.0 t }
{
    if !still_to_close(first_year, holidays, day, t) {
        return false;
    }
    let n = t.kind.open_count();
    if t.index < n {
        return true;
    }
    let earlier = Term {
        index: t.index - n,
        ..t
    };
    !still_to_close(first_year, holidays, day, earlier)
}

// Whether a contract is open on a day; one without a term never is.
pub fn is_open(first_year: u64, holidays: &[u64], day: DayNo, contract: u64) -> bool
    requires { FirstYear first_year }
    ensures { result ≡ open_on (record { first_year = first_year; holidays = holidays.now }) day.0 contract }
{
    if TERM_COUNT <= contract {
        return false;
    }
    is_open_term(first_year, holidays, day, term_of(contract))
}
