// The records of some bytes, one after the other.
ghost use Rattle.std.specs.Prelude.{◌≡◌, ◌+◌, ◌≤◌, ◌<◌, ◌^◌, length};
ghost use Rattle.rules.specs.Ledger.{lines_length};
ghost use Rattle.tables.specs.Lent.{tables_of, SameTables};
ghost use Rattle.journal.specs.declared.stage.Stage.TheVariants.{Records};
ghost use Rattle.journal.specs.Stages.{Advanced, stage_after, wants_after};

use crate::record::{ready_length, run_record};
use crate::stage::{Progress, ROOM, Stage, Wants};
use tables::LentTables;

// Where running some records ended, and what is wanted to go on.
#[tactic(auto, unfolding(crate::specs::Stages::stage_after, crate::specs::Stages::wants_after))]
fn where_ended(
    counted: u64,
    accepted: u64,
    is_stopped: bool,
    is_read: bool,
    room: usize,
) -> (Stage, Wants)
    ensures stage { result.0 ≡ stage_after counted accepted is_stopped is_read room }
    ensures wants { result.1 ≡ wants_after is_stopped is_read room }
{
    if is_stopped {
        (Stage::Stopped { counted, accepted }, Wants::Nothing)
    } else if room < ROOM {
        (Stage::Records { counted, accepted }, Wants::Room)
    } else if is_read {
        (Stage::Read { counted, accepted }, Wants::Nothing)
    } else {
        (Stage::Records { counted, accepted }, Wants::Bytes)
    }
}

pub fn run_records(
    counted_before: u64,
    accepted_before: u64,
    bytes: &[u8],
    is_last: bool,
    out: &mut [u8],
    filled: usize,
    tables: &mut LentTables<'_>,
) -> Progress
    requires { (accepted_before ≤ counted_before) × (counted_before + length bytes.now < 2 ^ 63) × (filled ≤ length out.old) × (lines_length ≤ length tables.old.lines.now) }
    ensures records_run { Advanced (Records counted_before accepted_before) (tables_of tables.old) bytes.now is_last filled out.old out.new (tables_of tables.new) result }
    ensures same { SameTables tables.old tables.new }
{
    let mut place: usize = 0;
    let mut end = filled;
    let mut counted = counted_before;
    let mut accepted = accepted_before;
    let mut is_stopped = false;
    while let Some(n) = ready_length(&bytes[place..], is_last, is_stopped, out.len() - end) {
        let next = place + n;
        counted += 1;
        let done = run_record(&bytes[place..next], counted, out, end, tables);
        place = next;
        end = done.end;
        accepted += u64::from(done.is_accepted);
        is_stopped = done.is_unsound;
    }
    let room = out.len() - end;
    let is_read = is_last & (place == bytes.len());
    let (stage, wants) = where_ended(counted, accepted, is_stopped, is_read, room);
    Progress {
        used: place,
        end,
        stage,
        wants,
    }
}
