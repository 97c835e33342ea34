// The phase, at the close of a day, of every contract that has a term: the table of months is read once.
ghost use Rattle.std.specs.Prelude.{◌≡◌, ℕ, ◌+◌, ◌≤◌, length, map};
ghost use Rattle.rules.specs.Ranges.{term_count, months_in_span};
ghost use Rattle.rules.specs.Days.{Calendar};
ghost use Rattle.rules.specs.declared.contract.ContractKind.{ContractKind};
ghost use Rattle.rules.specs.ContractTerms.{closing_distance};
ghost use Rattle.months.specs.Bounds.{FirstYear};
ghost use Rattle.months.specs.Spans.{starts_of, last_month_start};
ghost use Rattle.contracts.specs.InLedger.{InLedger};
ghost use Rattle.contract_phases.specs.Least.{IsLeast, least_of};
ghost use Rattle.contract_phases.specs.Phases.{phase_from, term_phase, phases, phase_numbered, number_of};

use crate::least_days::{LeastDays, find_least, least_of};
use contracts::{months_in, term_of};
use months::{SPAN_STARTS, read_starts};
use rules::{DayNo, Term};

// Where a contract stands at the close of a day: it closed before the day, closes on it, or closes later.
#[derive(Clone, Copy, PartialEq, Eq)]
pub enum Phase {
    Closed,
    Closing,
    Later,
}

// What stands in a place of a column of phases: a phase, or its number, for a caller whose columns are all of numbers.
pub trait PhasePlace: Copy {
    ghost use Rattle.contract_phases.specs.declared.by_contract.Phase.{Phase};

    ghost read: { Self → Phase };

    ghost written: { Phase → Self };

    fn to_phase(self) -> Phase
        ensures { result ≡ read self };

    fn from_phase(phase: Phase) -> Self
        ensures { result ≡ written phase };
}

impl PhasePlace for Phase {
    ghost read = { λ x. x };

    ghost written = { λ x. x };

    fn to_phase(self) -> Phase {
        self
    }

    fn from_phase(phase: Phase) -> Phase {
        phase
    }
}

// The numbers of the phases in a column of numbers. A number that is none of them says later, as LATER does.
pub const CLOSED: u64 = 0;

pub const CLOSING: u64 = 1;

const LATER: u64 = 2;

impl PhasePlace for u64 {
    ghost read = { phase_numbered };

    ghost written = { number_of };

    fn to_phase(self) -> Phase {
        match self {
            CLOSED => Phase::Closed,
            CLOSING => Phase::Closing,
            _ => Phase::Later,
        }
    }

    fn from_phase(phase: Phase) -> u64 {
        match phase {
            Phase::Closed => CLOSED,
            Phase::Closing => CLOSING,
            Phase::Later => LATER,
        }
    }
}

// The phase by a contract's first delivery day: from `least` on it is still to close on the day, from `later` on also on the
// next day.
fn phase_from(first: u64, least: DayNo, later: DayNo) -> Phase
    ensures { result ≡ phase_from first least.0 later.0 }
{
    if first < least.0 {
        return Phase::Closed;
    }
    if first < later.0 {
        return Phase::Closing;
    }
    Phase::Later
}

fn phase_of(starts: &[u64], least: LeastDays, later: LeastDays, t: Term) -> Phase
    requires { (length starts.now ≡ months_in_span + 1) × InLedger t }
    ensures { (k : Calendar) (d : ℕ) → starts.now ≡ starts_of k
        → IsLeast k d (closing_distance t.kind) (least_of least t.kind) → IsLeast k (d + 1) (closing_distance t.kind) (least_of later t.kind) → result ≡ term_phase k d t }
{
    let first = starts[(months_in(t.kind) * t.index) as usize];
    phase_from(first, least_of(least, t.kind), least_of(later, t.kind))
}

fn write_from<P: PhasePlace>(starts: &[u64], least: LeastDays, later: LeastDays, column: &mut [P])
    requires { (length starts.now ≡ months_in_span + 1) × (length column.old ≡ term_count) }
    ensures { (k : Calendar) (d : ℕ) → starts.now ≡ starts_of k
        → ((s : ContractKind) → IsLeast k d (closing_distance s) (least_of least s)) → ((s : ContractKind) → IsLeast k (d + 1) (closing_distance s) (least_of later s))
        → column.new ≡ map P.written (phases k d) }
{
    for (contract, place) in column.iter_mut().enumerate() {
        *place = P::from_phase(phase_of(starts, least, later, term_of(contract as u64)));
    }
}

// The phase of each contract that has a term, on a day of the table.
pub fn write_phases<P: PhasePlace>(first_year: u64, holidays: &[u64], day: DayNo, column: &mut [P])
    requires { FirstYear first_year × (day.0 ≤ last_month_start) × (length column.old ≡ term_count) }
    ensures { column.new ≡ map P.written (phases (record { first_year = first_year; holidays = holidays.now }) day.0) }
{
    let mut starts = [0u64; SPAN_STARTS];
    read_starts(first_year, &mut starts);
    let end = DayNo(starts[SPAN_STARTS - 1]);
    let least = find_least(holidays, day, end);
    let later = find_least(holidays, DayNo(day.0 + 1), end);
    write_from(&starts, least, later, column);
}
