// The bytes of headers and records for a host in C: read to rows of numbers, written from them, found one after the other.
ghost use Rattle.std.specs.Prelude.{◌≡◌};
ghost use Rattle.rules.specs.Records.{front_of, reply_of_front};
ghost use Rattle.number_fields.specs.HeaderFields.{read_header_fields, write_header_fields};
ghost use Rattle.number_fields.specs.RecordFields.{read_fields, write_fields};
ghost use Rattle.host.specs.Sent.{sent};

use reply::{Reply, numbered, reply_of};
use rules::{Front, Refusal};

// Reads a record of a ledger of that many members to the fields: 0 with how many numbers were written, or 1 (fewer
// fields than a record may have) or 3, and then the fields are as they were.
#[unsafe(no_mangle)]
pub extern "C" fn ledger_read_record(
    members: u64,
    bytes: &[u8],
    fields: &mut [u64],
    detail: &mut u64,
) -> u64
    ensures { record { number = result; detail = detail.new; after = fields.new } ≡ sent (read_fields members bytes.now fields.old) }
{
    let reply = reply_of(number_fields::read_record_fields(members, bytes, fields));
    *detail = reply.detail;
    reply.number
}

// Writes the record that the fields say in a ledger of that many members: 0 with its bytes, or 1 (too few fields), 3, or
// 1 (too few bytes), in this order, and then the bytes are as they were.
#[unsafe(no_mangle)]
pub extern "C" fn ledger_write_record(
    members: u64,
    fields: &[u64],
    bytes: &mut [u8],
    detail: &mut u64,
) -> u64
    ensures { record { number = result; detail = detail.new; after = bytes.new } ≡ sent (write_fields members fields.now bytes.old) }
{
    let reply = reply_of(number_fields::write_record_fields(members, fields, bytes));
    *detail = reply.detail;
    reply.number
}

// Reads the header that the bytes begin with to the fields: 0 with its length, where the first record begins, or 1 (too
// few fields) or 2, and then the fields are as they were.
#[unsafe(no_mangle)]
pub extern "C" fn ledger_read_header(bytes: &[u8], fields: &mut [u64], detail: &mut u64) -> u64
    ensures { record { number = result; detail = detail.new; after = fields.new } ≡ sent (read_header_fields bytes.now fields.old) }
{
    let reply = reply_of(number_fields::read_header_fields(bytes, fields));
    *detail = reply.detail;
    reply.number
}

// Writes the header that the fields say: 0 with its bytes, or 1 (too few fields), 2, or 1 (too few bytes), in this order,
// and then the bytes are as they were.
#[unsafe(no_mangle)]
pub extern "C" fn ledger_write_header(fields: &[u64], bytes: &mut [u8], detail: &mut u64) -> u64
    ensures { record { number = result; detail = detail.new; after = bytes.new } ≡ sent (write_header_fields fields.now bytes.old) }
{
    let reply = reply_of(number_fields::write_header_fields(fields, bytes));
    *detail = reply.detail;
    reply.number
}

fn reply_of_front(front: Front) -> Reply
    ensures { (result.number ≡ (reply_of_front front).number) × (result.detail ≡ (reply_of_front front).detail) }
{
    match front {
        Front::Whole(length) => numbered(0, length),
        Front::Cut => reply_of(Err(Refusal::RecordUnsound)),
        Front::UnknownKind => reply_of(Err(Refusal::RecordUnsound)),
    }
}

// The record that the bytes begin with, by its kind and legs alone: 0 with its length, or 3 where it is cut or no kind has its
// number. Its fields are not tested.
#[unsafe(no_mangle)]
pub extern "C" fn ledger_front_record(bytes: &[u8], detail: &mut u64) -> u64
    ensures { record { number = result; detail = detail.new } ≡ reply_of_front (front_of bytes.now) }
{
    let reply = reply_of_front(codec::front_record(bytes));
    *detail = reply.detail;
    reply.number
}
