// Writing a record.
ghost use Rattle.std.specs.Prelude.{◌≡◌, ◌+◌, ◌<◌, ◌≤◌, length, take};
ghost use mathlib.Core.List.{flat_map};
ghost use Rattle.arith.specs.Lists.{over};
ghost use Rattle.rules.specs.Ranges.{most_legs};
ghost use Rattle.rules.specs.Fields.{widths, kind_fields, bytes_by};
ghost use Rattle.rules.specs.Records.{first_field_byte, first_leg_byte, leg_length, leg_place, record_length};
ghost use Rattle.rules.specs.Records.{leg_bytes, kind_number, event_numbers, field_bytes, write_spec};
ghost use Rattle.record_kinds.specs.Numbers.{leg_count};
ghost use Rattle.codec.specs.Fits.{EventFits};

use crate::sound::is_event_sound;
use big_endian::{put_number, put_u8, put_u16, put_u32};
use header::is_member_count_sound;
use record_kinds::places::{
    FIRST_FIELD_BYTE, FIRST_FIELD_NUMBER, KIND_BYTE, LEG_LOTS_BYTE, LEG_PRICE_BYTE, MOST_NUMBERS,
};
use record_kinds::{
    kind_fields, kind_number, leg_count, leg_place, put_numbers, record_length, width_of,
};
use rules::kinds::PROPOSAL;
use rules::{Event, Leg, Refusal};

// The fields of an event's kind, without legs.
fn put_kind_fields(out: &mut [u8], event: Event)
    requires { (widths (kind_fields (kind_number event)) < length out.old) × EventFits event }
    ensures { out.new ≡ over first_field_byte (bytes_by (kind_fields (kind_number event)) (event_numbers event)) out.old }
{
    let fields = kind_fields(kind_number(event));
    let mut numbers = [0u64; MOST_NUMBERS];
    put_numbers(&mut numbers, event);
    let mut at = FIRST_FIELD_BYTE;
    for (i, field) in fields.iter().enumerate() {
        let width = width_of(*field);
        put_number(out, at, width, numbers[FIRST_FIELD_NUMBER + i]);
        at += width;
    }
}

fn put_leg(out: &mut [u8], at: usize, leg: Leg)
    requires { at + leg_length ≤ length out.old }
    ensures { out.new ≡ over at (leg_bytes leg) out.old }
{
    put_u32(out, at, leg.order);
    put_u16(out, at + LEG_LOTS_BYTE, leg.lots.0);
    put_u32(out, at + LEG_PRICE_BYTE, leg.price.0);
}

fn put_legs(out: &mut [u8], legs: &[Leg])
    requires { (leg_place (length legs.now) ≤ length out.old) × (length legs.now ≤ most_legs) }
    ensures { out.new ≡ over first_leg_byte (flat_map leg_bytes legs.now) out.old }
{
    for (i, leg) in legs.iter().enumerate() {
        put_leg(out, leg_place(i), *leg);
    }
}

fn put_fields(out: &mut [u8], event: Event, legs: &[Leg])
    requires { (record_length (kind_number event) (leg_count event) ≤ length out.old) × EventFits event × (leg_count event ≤ most_legs) × (leg_count event ≤ length legs.now) }
    ensures { out.new ≡ over first_field_byte (field_bytes event (take (leg_count event) legs.now)) out.old }
{
    put_kind_fields(out, event);
    // By the number of the kind, as [Records]: `field_bytes` says which records have legs.
    if kind_number(event) == PROPOSAL {
        put_legs(out, &legs[..leg_count(event) as usize]);
    }
}

// The record of an event, with its legs, the first ones of a slice: RecordUnsound before TableUnsound, and nothing written
// on either.
pub fn write_record(
    members: u64,
    event: Event,
    legs: &[Leg],
    out: &mut [u8],
) -> Result<u64, Refusal>
    ensures { record { answer = result; after = out.new } ≡ write_spec members event (take (leg_count event) legs.now) out.old }
{
    if !is_member_count_sound(members) {
        return Err(Refusal::RecordUnsound);
    }
    if !is_event_sound(members, event, legs) {
        return Err(Refusal::RecordUnsound);
    }
    let kind = kind_number(event);
    let n = record_length(kind, leg_count(event));
    if (out.len() as u64) < n {
        return Err(Refusal::TableUnsound);
    }
    put_u8(out, KIND_BYTE, kind);
    put_fields(out, event, legs);
    Ok(n)
}
