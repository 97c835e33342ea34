// The head: its day, and its time with what is counted in the present second.
ghost use Rattle.std.specs.Prelude.{◌≡◌, ◌≤◌, ◌<◌, length};
ghost use Rattle.rules.specs.Ranges.{contract_count, most_members};
ghost use Rattle.rules.specs.Ledger.{Tables, with_head, head_length, is_open, timed};
ghost use Rattle.tables.specs.Fit.{HeadFit, members_in};

use crate::clearing::clear_at;
use rules::DayNo;
use rules::layout::{DAY, FIRST_YEAR, HOLIDAY_COUNT, HOLIDAYS, MEMBERS, SUBMITS, TIME};

// Whether a contract is open on the ledger's day.
pub fn is_contract_open(head: &[u64], contract: u64) -> bool
    requires { HeadFit head.now × (contract < contract_count) }
    ensures { (t : Tables) → result ≡ is_open (with_head head.now t) contract }
{
    let end = HOLIDAYS + head[HOLIDAY_COUNT] as usize;
    contracts::is_open(
        head[FIRST_YEAR],
        &head[HOLIDAYS..end],
        DayNo(head[DAY]),
        contract,
    )
}

// Writes an accepted record's time; in a later second nobody has submitted yet.
pub fn set_time(head: &mut [u64], time: u64)
    requires { (head_length ≤ length head.old) × (members_in head.old ≤ most_members) }
    ensures { (t : Tables) → with_head head.new t ≡ timed time (with_head head.old t) }
{
    if time <= head[TIME] {
        return;
    }
    let members = head[MEMBERS] as usize;
    clear_at(head, SUBMITS, members);
    head[TIME] = time;
}
