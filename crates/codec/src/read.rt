// Reading a record.
ghost use Rattle.std.specs.Prelude.{◌≡◌, ◌-◌, ◌≤◌, length, get_or, Some};
ghost use Rattle.arith.specs.Columns.{padded};
ghost use Rattle.rules.specs.Fields.{widths, kind_fields};
ghost use Rattle.rules.specs.Records.{kind_byte, record_numbers, fields_of, legs_of, event_sound, read_of};
ghost use Rattle.record_kinds.specs.Numbers.{most_numbers};

use crate::legs::read_legs;
use crate::sound::{is_legless_sound, is_proposal_sound};
use big_endian::{number_at, u8_or_zero};
use header::is_member_count_sound;
use record_kinds::places::{
    FIRST_FIELD_BYTE, FIRST_FIELD_NUMBER, KIND_BYTE, KIND_NUMBER, MOST_NUMBERS, PROPOSAL_LEGS_BYTE,
};
use record_kinds::{event_of, kind_fields, kind_number, leg_count, record_length, width_of};
use rules::Event;
use rules::kinds::PROPOSAL;

// The numbers of a record that has all its fields, its kind first, and 0 in the places past them.
fn record_numbers(kind: u64, bytes: &[u8]) -> [u64; MOST_NUMBERS]
    requires { (kind ≡ get_or bytes.now kind_byte 0) × (widths (kind_fields kind) ≤ length bytes.now - 1) }
    ensures { result ≡ padded most_numbers (record_numbers kind bytes.now) }
{
    let fields = kind_fields(kind);
    let mut numbers = [0u64; MOST_NUMBERS];
    numbers[KIND_NUMBER] = kind;
    let mut at = FIRST_FIELD_BYTE;
    for (i, field) in fields.iter().enumerate() {
        let width = width_of(*field);
        numbers[FIRST_FIELD_NUMBER + i] = number_at(bytes, at, width);
        at += width;
    }
    numbers
}

// What the fields say, in range or not.
fn fields_of(bytes: &[u8]) -> Option<Event>
    ensures { result ≡ fields_of bytes.now }
{
    let kind = u8_or_zero(bytes, KIND_BYTE);
    let legs = u8_or_zero(bytes, PROPOSAL_LEGS_BYTE);
    if bytes.len() as u64 != record_length(kind, legs) {
        return None;
    }
    let numbers = record_numbers(kind, bytes);
    event_of(&numbers)
}

// The ranges of what was read; only a proposal has legs to read.
fn is_sound_as_read(members: u64, event: Event, bytes: &[u8]) -> bool
    requires { fields_of bytes.now ≡ Some event }
    ensures { result ≡ event_sound members event (legs_of bytes.now) }
{
    // By the number of the kind, as [Records]: `legs_of` says which records have legs.
    if kind_number(event) == PROPOSAL {
        return is_proposal_sound(leg_count(event), &read_legs(bytes));
    }
    is_legless_sound(members, event)
}

// What a record says in a ledger of that many members. A proposal's legs are read by read_legs.
pub fn read_record(members: u64, bytes: &[u8]) -> Option<Event>
    ensures { result ≡ read_of members bytes.now }
{
    if !is_member_count_sound(members) {
        return None;
    }
    let event = fields_of(bytes)?;
    is_sound_as_read(members, event, bytes).then_some(event)
}
