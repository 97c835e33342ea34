// Which field stands where, by the shape of the bytes.
ghost use Rattle.std.specs.Prelude.{◌≡◌, ℕ, ◌<◌, ◌≤◌, length, get_or};
ghost use Rattle.rules.specs.declared.field.Field.TheVariants.{Kind as firstField};
ghost use Rattle.listing_words.specs.declared.field.Shape.TheVariants.{Header as HeaderShape};
ghost use Rattle.rules.specs.Fields.{fields_of_kind};
ghost use Rattle.listing_words.specs.Fields.{fixed_fields, fields_in};

use listing_words::Shape;
use record_kinds::{LEG_FIELDS, field_count, field_of, leg_field};
use rules::Field;
use rules::kinds::PROPOSAL;

// How many fields a header has before its holidays.
pub const FIXED_FIELDS: u64 = 8;

// After the kind's own fields those of the legs follow, one leg after the other.
fn field_of_kind(kind: u64, legs: u64, i: u64) -> Field
    requires { i < length (fields_of_kind kind legs) }
    ensures { result ≡ get_or (fields_of_kind kind legs) i firstField }
{
    let place = i as usize;
    let count = field_count(kind);
    if place < count {
        return field_of(kind, place);
    }
    leg_field((place - count) % LEG_FIELDS)
}

fn fixed_field(i: u64) -> Field
    requires { i < length fixed_fields }
    ensures { result ≡ get_or fixed_fields i firstField }
{
    match i {
        0 => Field::LetterV,
        1 => Field::LetterJ,
        2 => Field::LetterR,
        3 => Field::Version,
        4 => Field::FirstYear,
        5 => Field::StartDay,
        6 => Field::Members,
        _ => Field::HolidayCount,
    }
}

fn header_field(holidays: u64, i: u64) -> Field
    ensures { (members : ℕ) → i < length (fields_in (HeaderShape holidays members)) → result ≡ get_or (fields_in (HeaderShape holidays members)) i firstField }
{
    if i < FIXED_FIELDS {
        return fixed_field(i);
    }
    if i - FIXED_FIELDS < holidays {
        return Field::Holiday;
    }
    Field::Limit
}

pub fn field_at(shape: Shape, i: u64) -> Field
    requires { i < length (fields_in shape) }
    ensures { result ≡ get_or (fields_in shape) i firstField }
{
    match shape {
        Shape::Header { holidays, members } => header_field(holidays, i),
        Shape::Record { kind, legs } => {
            if i == 0 {
                Field::Kind
            } else {
                field_of_kind(kind, legs, i - 1)
            }
        }
    }
}

pub fn count_of_kind(kind: u64, legs: u64) -> u64
    requires { legs < 256 }
    ensures { (result ≡ length (fields_of_kind kind legs)) × (result ≤ 766) }
{
    let count = field_count(kind) as u64;
    if kind == PROPOSAL {
        return count + LEG_FIELDS as u64 * legs;
    }
    count
}
