// The delivery days of all open contracts at once: the table of months is read once, and business days are counted once
// for each kind.
#![tactic(auto)]

ghost use Rattle.std.specs.Prelude.{◌≡◌, cond, ℕ, ◌+◌, ◌-◌, length};
ghost use Rattle.rules.specs.Ranges.{term_count, months_in_span};
ghost use Rattle.rules.specs.Days.{Calendar};
ghost use Rattle.rules.specs.declared.contract.ContractKind.{ContractKind};
ghost use Rattle.rules.specs.ContractTerms.{closing_distance, term_first_day, term_day_after};
ghost use Rattle.rules.specs.OtherForms.{open_by_count};
ghost use Rattle.months.specs.Bounds.{FirstYear};
ghost use Rattle.months.specs.Spans.{starts_of};
ghost use Rattle.contracts.specs.InLedger.{InLedger};
ghost use Rattle.contract_phases.specs.Least.{IsLeast, least_of};
ghost use Rattle.open_days.specs.OpenDays.{open_days, NoneEarlier};

use contract_phases::{LeastDays, find_least, least_of};
use contracts::{months_in, term_of};
use months::{SPAN_STARTS, read_starts};
use rules::{ContractKind, DayNo, Term};

// Whether a contract is open, as `is_open` of `contracts` finds it. Its own first delivery day decides, and that of the
// contract that must have closed before it opens.
fn is_open_from(starts: &[u64], least: DayNo, t: Term) -> bool
    requires { (length starts.now ≡ months_in_span + 1) × InLedger t }
    ensures { (k : Calendar) (d : ℕ) → starts.now ≡ starts_of k → IsLeast k d (closing_distance t.kind) least.0 → result ≡ open_by_count k d t }
{
    let n = months_in(t.kind);
    if starts[(n * t.index) as usize] < least.0 {
        return false;
    }
    let count = t.kind.open_count();
    if t.index < count {
        return true;
    }
    starts[(n * (t.index - count)) as usize] < least.0
}

// The delivery days of a contract, 0 if it is not open.
fn days_if_open(starts: &[u64], least: DayNo, t: Term) -> u64
    requires { (length starts.now ≡ months_in_span + 1) × InLedger t × NoneEarlier starts.now }
    ensures { (k : Calendar) (d : ℕ) → starts.now ≡ starts_of k → IsLeast k d (closing_distance t.kind) least.0 → result
        ≡ cond (open_by_count k d t) (term_day_after k t - term_first_day k t) 0 }
{
    if !is_open_from(starts, least, t) {
        return 0;
    }
    let n = months_in(t.kind);
    let first = n * t.index;
    starts[(first + n) as usize] - starts[first as usize]
}

fn write_open_days(starts: &[u64], least: LeastDays, days: &mut [u64])
    requires { (length starts.now ≡ months_in_span + 1) × NoneEarlier starts.now × (length days.old ≡ term_count) }
    ensures { (k : Calendar) (d : ℕ) → starts.now ≡ starts_of k → ((s : ContractKind) → IsLeast k d (closing_distance s) (least_of least s)) → days.new ≡ open_days k d }
{
    for (contract, open) in days.iter_mut().enumerate() {
        let t = term_of(contract as u64);
        *open = days_if_open(starts, least_of(least, t.kind), t);
    }
}

// The delivery days of every contract that is open on a day, 0 for the others that have a term.
pub fn find_open_days(first_year: u64, holidays: &[u64], day: DayNo, days: &mut [u64])
    requires { FirstYear first_year × (length days.old ≡ term_count) }
    ensures { days.new ≡ open_days (record { first_year = first_year; holidays = holidays.now }) day.0 }
{
    let mut starts = [0u64; SPAN_STARTS];
    read_starts(first_year, &mut starts);
    let end = DayNo(starts[SPAN_STARTS - 1]);
    let least = find_least(holidays, day, end);
    write_open_days(&starts, least, days);
}
