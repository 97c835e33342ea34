// One record: where it ends, and what it prints.
ghost use Rattle.std.specs.Prelude.{◌≡◌, ◌+◌, ◌≤◌, length};
ghost use Rattle.rules.specs.Ledger.{lines_length};
ghost use Rattle.rules.specs.Refusals.{apply_spec};
ghost use Rattle.tables.specs.Lent.{tables_of, SameTables};
ghost use Rattle.journal.specs.Room.{record_room};
ghost use Rattle.journal.specs.Stages.{RanOne, length_now, ready_length};

use crate::stage::ROOM;
use codec::front_record;
use printing::{put_deals, put_refusal};
use reply::reply_of;
use rules::Front;
use tables::LentTables;

const ACCEPTED: u64 = 0;

const UNSOUND: u64 = 3;

#[derive(Clone, Copy)]
pub struct Printed {
    pub end: usize,
    pub is_accepted: bool,
    // Whether the record was number 3.
    pub is_unsound: bool,
}

// How many bytes the record at the front has, where there is one and no more bytes may come to it.
#[tactic(auto, unfolding(crate::specs::Stages::length_by_now))]
fn length_now(bytes: &[u8], is_last: bool) -> Option<usize>
    ensures { result ≡ length_now is_last bytes.now }
{
    match front_record(bytes) {
        Front::Whole(n) => Some(n as usize),
        Front::UnknownKind => Some(1),
        Front::Cut if is_last && !bytes.is_empty() => Some(bytes.len()),
        Front::Cut => None,
    }
}

// The same, where it can be run now.
#[tactic(auto, unfolding(crate::specs::Stages::ready_length))]
pub fn ready_length(bytes: &[u8], is_last: bool, is_stopped: bool, room: usize) -> Option<usize>
    ensures { result ≡ ready_length is_last is_stopped room bytes.now }
{
    if is_stopped || room < ROOM {
        None
    } else {
        length_now(bytes, is_last)
    }
}

// The record is applied; its deal lines are printed, or why it was turned back.
pub fn run_record(
    bytes: &[u8],
    number: u64,
    out: &mut [u8],
    place: usize,
    tables: &mut LentTables<'_>,
) -> Printed
    requires { (place + record_room ≤ length out.old) × (lines_length ≤ length tables.old.lines.now) }
    ensures ran { RanOne number place (apply_spec (tables_of tables.old) bytes.now) out.old out.new (tables_of tables.new) result }
    ensures same { SameTables tables.old tables.new }
{
    let answer = engine::apply(tables, bytes);
    let reply = reply_of(answer);
    if reply.number == ACCEPTED {
        return Printed {
            end: put_deals(out, place, tables.lines(), reply.detail as usize),
            is_accepted: true,
            is_unsound: false,
        };
    }
    Printed {
        end: put_refusal(out, place, number, reply.number),
        is_accepted: false,
        is_unsound: reply.number == UNSOUND,
    }
}
