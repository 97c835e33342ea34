// Which contracts are still to close on a day, by their first delivery days. Business days are counted once for each kind;
// `is_open` of `contracts` looks for two closing days for one contract instead.
ghost use Rattle.std.specs.Prelude.{◌≡◌, ℕ, ◌≤◌, ◌<◌};
ghost use Rattle.rules.specs.declared.contract.ContractKind.{ContractKind};
ghost use Rattle.rules.specs.ContractTerms.{closing_distance};
ghost use Rattle.months.specs.Spans.{last_month_start};
ghost use Rattle.contract_phases.specs.Least.{least_first_day, least_of};

use calendar::is_business_day;
use rules::{ContractKind, DayNo};

// For each kind, the day on which or after which a contract must first deliver to be still to close.
#[derive(Clone, Copy)]
pub struct LeastDays {
    pub year: DayNo,
    pub quarter: DayNo,
    pub month: DayNo,
}

pub fn least_of(least: LeastDays, kind: ContractKind) -> DayNo
    ensures { result.0 ≡ least_of least kind }
{
    match kind {
        ContractKind::Year => least.year,
        ContractKind::Quarter => least.quarter,
        ContractKind::Month => least.month,
    }
}

// The day after the nth business day from `day` on, or the day after `end` where fewer lie before `end`.
fn least_first_day(holidays: &[u64], day: DayNo, n: u64, end: DayNo) -> DayNo
    requires { (0 < n) × (end.0 ≤ last_month_start) }
    ensures { (y : ℕ) → result.0 ≡ least_first_day (record { first_year = y; holidays = holidays.now }) day.0 n end.0 }
{
    let mut to_count = n;
    for x in day.0..end.0 {
        if is_business_day(holidays, DayNo(x)) {
            if to_count <= 1 {
                return DayNo(x + 1);
            }
            to_count -= 1;
        }
    }
    DayNo(end.0 + 1)
}

// For each kind the first delivery day from which on a contract is still to close, whatever the first year.
pub fn find_least(holidays: &[u64], day: DayNo, end: DayNo) -> LeastDays
    requires { end.0 ≤ last_month_start }
    ensures { (y : ℕ) (s : ContractKind) → least_of result s
        ≡ least_first_day (record { first_year = y; holidays = holidays.now }) day.0 (closing_distance s) end.0 }
{
    LeastDays {
        year: least_first_day(holidays, day, ContractKind::YEAR_DISTANCE, end),
        quarter: least_first_day(holidays, day, ContractKind::QUARTER_DISTANCE, end),
        month: least_first_day(holidays, day, ContractKind::MONTH_DISTANCE, end),
    }
}
