// The numbers of an event, put in a row.
ghost use Rattle.std.specs.Prelude.{◌≡◌, ◌+◌, ◌≤◌, length, take};
ghost use mathlib.Core.List.{flat_map};
ghost use Rattle.arith.specs.Lists.{over};
ghost use Rattle.rules.specs.Ranges.{most_legs};
ghost use Rattle.rules.specs.Records.{leg_numbers};
ghost use Rattle.record_kinds.specs.Numbers.{leg_count};
ghost use Rattle.number_fields.specs.RecordFields.{record_fields, first_leg_field, with_numbers};

use crate::places::FIRST_LEG_FIELD;
use record_kinds::places::FIRST_FIELD_NUMBER;
use record_kinds::{LEG_FIELDS, field_count, kind_number, leg_count, put_numbers};
use rules::{Event, Leg};

fn put_leg(row: &mut [u64], at: usize, leg: Leg)
    requires { at + 3 ≤ length row.old }
    ensures { row.new ≡ over at (leg_numbers leg) row.old }
{
    row[at] = leg.order;
    row[at + 1] = leg.lots.0;
    row[at + 2] = leg.price.0;
}

fn put_legs(row: &mut [u64], legs: &[Leg])
    requires { (record_fields ≤ length row.old) × (length legs.now ≤ most_legs) }
    ensures { row.new ≡ over first_leg_field (flat_map leg_numbers legs.now) row.old }
{
    for (i, leg) in legs.iter().enumerate() {
        put_leg(row, FIRST_LEG_FIELD + LEG_FIELDS * i, *leg);
    }
}

// The event's legs are the first ones of the slice. Answers how many numbers it put: the kind, one for each of its fields,
// and the legs'.
pub fn put_event(row: &mut [u64], event: Event, legs: &[Leg]) -> u64
    requires { (record_fields ≤ length row.old) × (leg_count event ≤ most_legs) × (leg_count event ≤ length legs.now) }
    ensures { record { answer = Ok result; after = row.new } ≡ with_numbers event (take (leg_count event) legs.now) row.old }
{
    let count = leg_count(event) as usize;
    put_numbers(row, event);
    put_legs(row, &legs[..count]);
    let fields = field_count(kind_number(event));
    (FIRST_FIELD_NUMBER + fields + LEG_FIELDS * count) as u64
}
