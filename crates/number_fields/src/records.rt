// A record's bytes to a row of numbers, and a row to a record's bytes.
ghost use Rattle.std.specs.Prelude.{◌≡◌};
ghost use Rattle.number_fields.specs.RecordFields.{read_fields, write_fields};

use crate::event::{event_in, legs_in};
use crate::numbers::put_event;
use crate::places::RECORD_FIELDS;
use codec::{read_legs, read_record, write_record};
use record_kinds::leg_count;
use rules::Refusal;

// Reads a record of a ledger of that many members: TableUnsound for a short row before RecordUnsound, and nothing
// written on either; Ok with how many numbers were written.
pub fn read_record_fields(members: u64, bytes: &[u8], row: &mut [u64]) -> Result<u64, Refusal>
    ensures { record { answer = result; after = row.new } ≡ read_fields members bytes.now row.old }
{
    if row.len() < RECORD_FIELDS {
        return Err(Refusal::TableUnsound);
    }
    match read_record(members, bytes) {
        Some(event) => Ok(put_event(row, event, &read_legs(bytes))),
        None => Err(Refusal::RecordUnsound),
    }
}

// Writes the record of a row: TableUnsound for a short row, RecordUnsound, then TableUnsound for a short output, and
// nothing written on any; Ok with the bytes written.
pub fn write_record_fields(members: u64, row: &[u64], out: &mut [u8]) -> Result<u64, Refusal>
    ensures { record { answer = result; after = out.new } ≡ write_fields members row.now out.old }
{
    if row.len() < RECORD_FIELDS {
        return Err(Refusal::TableUnsound);
    }
    match event_in(row) {
        Some(event) => {
            let legs = legs_in(row, leg_count(event) as usize);
            write_record(members, event, &legs, out)
        }
        None => Err(Refusal::RecordUnsound),
    }
}
