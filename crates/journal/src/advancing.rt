// One stage of a journal after the other.
ghost use Rattle.std.specs.Prelude.{◌+◌, ◌≤◌, ◌<◌, ◌^◌, length};
ghost use Rattle.printing.specs.Room.{line_room};
ghost use Rattle.rules.specs.Ledger.{head_length, lines_length};
ghost use Rattle.tables.specs.Lent.{tables_of, SameTables};
ghost use Rattle.journal.specs.Stages.{EndPrinted, Advanced, Counts};

use crate::beginning::begin;
use crate::run::run_records;
use crate::stage::{Progress, ROOM, Stage, Wants, standing};
use printing::put_end;
use tables::LentTables;

// Prints E, and the journal is at its last stage.
fn end_at(
    last: Stage,
    out: &mut [u8],
    filled: usize,
    counted: u64,
    accepted: u64,
    head: &[u64],
) -> Progress
    requires { (filled + line_room ≤ length out.old) × (accepted ≤ counted) × (head_length ≤ length head.now) }
    ensures { EndPrinted last counted accepted head.now filled out.old out.new result }
{
    let end = put_end(out, filled, counted, accepted, head);
    standing(end, last, Wants::Nothing)
}

// Runs what can be run of these bytes at a stage. is_last says that they are the last of the journal.
pub fn advance(
    stage: Stage,
    bytes: &[u8],
    is_last: bool,
    out: &mut [u8],
    filled: usize,
    tables: &mut LentTables<'_>,
) -> Progress
    requires { Counts stage (2 ^ 62) × (length bytes.now < 2 ^ 62) × (filled ≤ length out.old) × (head_length ≤ length tables.old.head.now) × (lines_length ≤ length tables.old.lines.now) }
    ensures advanced { Advanced stage (tables_of tables.old) bytes.now is_last filled out.old out.new (tables_of tables.new) result }
    ensures same { SameTables tables.old tables.new }
{
    if out.len() - filled < ROOM {
        return standing(filled, stage, Wants::Room);
    }
    match stage {
        Stage::Header => begin(bytes, is_last, out, filled, tables),
        Stage::Records { counted, accepted } => {
            run_records(counted, accepted, bytes, is_last, out, filled, tables)
        }
        Stage::Read { counted, accepted } => {
            end_at(
                Stage::ReadToEnd,
                out,
                filled,
                counted,
                accepted,
                tables.head(),
            )
        }
        Stage::Stopped { counted, accepted } => {
            end_at(
                Stage::RecordUnsound,
                out,
                filled,
                counted,
                accepted,
                tables.head(),
            )
        }
        Stage::ReadToEnd | Stage::RecordUnsound | Stage::HeaderUnsound => {
            standing(filled, stage, Wants::Nothing)
        }
    }
}
