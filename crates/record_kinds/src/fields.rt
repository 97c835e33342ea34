// The fields of each kind of record in the order of their bytes, and the width of each. Lengths of records, the places of
// their fields, and the listing's words follow from here.
ghost use Rattle.std.specs.Prelude.{◌≡◌, ◌<◌, ◌≤◌, length, get_or};
ghost use Rattle.rules.specs.declared.field.Field.TheVariants.{Kind as firstField};
ghost use Rattle.rules.specs.Fields.{width_of, leg_fields, kind_fields};
ghost use Rattle.record_kinds.specs.Numbers.{most_fields};

use rules::Field;
use rules::kinds::{CANCEL, CLOSE_OF_DAY, CLOSE_OUT, DAY_LIMITS, DEFAULT, PROPOSAL, SUBMIT};

// How many fields a leg has.
pub const LEG_FIELDS: usize = 3;

// The fields of each kind after the kind itself, and those of a leg.
const SUBMIT_FIELDS: [Field; 7] = [
    Field::Time,
    Field::Member,
    Field::Contract,
    Field::Side,
    Field::OrderKind,
    Field::Price,
    Field::Lots,
];

const CANCEL_FIELDS: [Field; 3] = [Field::Time, Field::Member, Field::Order];

const DAY_LIMITS_FIELDS: [Field; 3] = [Field::Contract, Field::Low, Field::High];

const PROPOSAL_FIELDS: [Field; 1] = [Field::Legs];

const FIELDS_OF_A_LEG: [Field; LEG_FIELDS] = [Field::Order, Field::Lots, Field::Price];

const DEFAULT_FIELDS: [Field; 1] = [Field::Member];

const CLOSE_OUT_FIELDS: [Field; 2] = [Field::Contract, Field::Ratio];

const CLOSE_OF_DAY_FIELDS: [Field; 1] = [Field::Time];

// How many bytes a field takes.
pub fn width_of(field: Field) -> usize
    ensures { (result ≡ width_of field) × (result ≤ 4) }
{
    match field {
        Field::LetterV | Field::LetterJ | Field::LetterR => 1,
        Field::Members | Field::HolidayCount => 1,
        Field::Kind | Field::Member | Field::Contract | Field::Side | Field::OrderKind => 1,
        Field::Legs => 1,
        Field::Version | Field::FirstYear | Field::StartDay | Field::Holiday => 2,
        Field::Lots | Field::Ratio => 2,
        Field::Limit | Field::Time | Field::Price | Field::Order | Field::Low | Field::High => 4,
    }
}

// The fields of a record after its kind, its legs aside; none where no kind has that number.
pub fn kind_fields(kind: u64) -> &'static [Field]
    ensures { (result.now ≡ kind_fields kind) × (length result.now ≤ most_fields) }
{
    match kind {
        SUBMIT => &SUBMIT_FIELDS,
        CANCEL => &CANCEL_FIELDS,
        DAY_LIMITS => &DAY_LIMITS_FIELDS,
        PROPOSAL => &PROPOSAL_FIELDS,
        DEFAULT => &DEFAULT_FIELDS,
        CLOSE_OUT => &CLOSE_OUT_FIELDS,
        CLOSE_OF_DAY => &CLOSE_OF_DAY_FIELDS,
        _ => &[],
    }
}

pub fn field_count(kind: u64) -> usize
    ensures { (result ≡ length (kind_fields kind)) × (result ≤ most_fields) }
{
    kind_fields(kind).len()
}

// Field i of a record, from 0 after its kind.
pub fn field_of(kind: u64, i: usize) -> Field
    requires { i < length (kind_fields kind) }
    ensures { result ≡ get_or (kind_fields kind) i firstField }
{
    kind_fields(kind)[i]
}

// Field i of a leg.
pub fn leg_field(i: usize) -> Field
    requires { i < length leg_fields }
    ensures { result ≡ get_or leg_fields i firstField }
{
    FIELDS_OF_A_LEG[i]
}
