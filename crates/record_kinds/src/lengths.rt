// How many bytes a record takes, and where the legs of a proposal begin.
ghost use Rattle.std.specs.Prelude.{◌≡◌, ◌<◌, ◌≤◌, length};
ghost use Rattle.rules.specs.Fields.{widths, kind_fields};
ghost use Rattle.rules.specs.Ranges.{most_legs};
ghost use Rattle.rules.specs.Records.{leg_place, record_length};
ghost use Rattle.record_kinds.specs.Numbers.{most_fields};

use crate::fields::{kind_fields, width_of};
use crate::places::{FIRST_FIELD_BYTE, FIRST_LEG_BYTE, LEG_LENGTH};
use rules::Field;
use rules::kinds::{CANCEL, CLOSE_OF_DAY, CLOSE_OUT, DAY_LIMITS, DEFAULT, PROPOSAL, SUBMIT};

// Where a leg of a proposal begins.
pub fn leg_place(leg: usize) -> usize
    requires { leg ≤ most_legs }
    ensures { result ≡ leg_place leg }
{
    FIRST_LEG_BYTE + LEG_LENGTH * leg
}

// The bytes of fields one after the other.
fn length_of(fields: &[Field]) -> usize
    requires { length fields.now ≤ most_fields }
    ensures { (result ≡ widths fields.now) × (result ≤ 28) }
{
    let mut bytes = 0;
    for field in fields {
        bytes += width_of(*field);
    }
    bytes
}

// The bytes of a kind's fields, legs aside. An arm for each kind, so that the compiler sums its constant list: a loop over
// kind_fields(kind) took twice the time.
fn fields_length(kind: u64) -> usize
    ensures { (result ≡ widths (kind_fields kind)) × (result ≤ 28) }
{
    match kind {
        SUBMIT => length_of(kind_fields(SUBMIT)),
        CANCEL => length_of(kind_fields(CANCEL)),
        DAY_LIMITS => length_of(kind_fields(DAY_LIMITS)),
        PROPOSAL => length_of(kind_fields(PROPOSAL)),
        DEFAULT => length_of(kind_fields(DEFAULT)),
        CLOSE_OUT => length_of(kind_fields(CLOSE_OUT)),
        CLOSE_OF_DAY => length_of(kind_fields(CLOSE_OF_DAY)),
        _ => 0,
    }
}

// By its kind and, of a proposal, its number of legs; 0 where no kind has that number, since the definition `record_length`
// of rules, on which the theorems about records stand, says so.
pub fn record_length(kind: u64, legs: u64) -> u64
    requires { legs < 256 }
    ensures { result ≡ record_length kind legs }
{
    if kind_fields(kind).is_empty() {
        return 0;
    }
    let length = (FIRST_FIELD_BYTE + fields_length(kind)) as u64;
    // A kind is a number here: it is a byte of a record, and may be that of no kind.
    if kind == PROPOSAL {
        return length + LEG_LENGTH as u64 * legs;
    }
    length
}
