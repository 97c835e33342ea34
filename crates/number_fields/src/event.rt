// The event of a row of numbers, its fields in range or not, and its legs.
ghost use Rattle.std.specs.Prelude.{◌≡◌, ◌+◌, ◌≤◌, length};
ghost use Rattle.rules.specs.Ranges.{most_legs};
ghost use Rattle.rules.specs.Records.{leg_in};
ghost use Rattle.codec.specs.Legs.{in_places};
ghost use Rattle.number_fields.specs.RecordFields.{record_fields, event_in, first_legs};

use crate::places::FIRST_LEG_FIELD;
use codec::NO_LEG;
use record_kinds::places::{KIND_NUMBER, PROPOSAL_LEGS};
use record_kinds::{LEG_FIELDS, event_of};
use rules::kinds::PROPOSAL;
use rules::layout::LEG_PLACES;
use rules::ranges::MOST_LEGS;
use rules::{Event, Kurus, Leg, Lots};

// A row has room for the legs of a proposal of 12.
pub fn event_in(row: &[u64]) -> Option<Event>
    requires { record_fields ≤ length row.now }
    ensures { result ≡ event_in row.now }
{
    let kind = row[KIND_NUMBER];
    let legs = row[PROPOSAL_LEGS];
    if (kind != PROPOSAL) | (legs <= MOST_LEGS) {
        event_of(row)
    } else {
        None
    }
}

fn leg_in(row: &[u64], at: usize) -> Leg
    requires { at + 3 ≤ length row.now }
    ensures { result ≡ leg_in row.now at }
{
    Leg {
        order: row[at],
        lots: Lots(row[at + 1]),
        price: Kurus(row[at + 2]),
    }
}

// The first legs of a row, and no leg in the places past them.
pub fn legs_in(row: &[u64], count: usize) -> [Leg; LEG_PLACES]
    requires { (record_fields ≤ length row.now) × (count ≤ most_legs) }
    ensures { result ≡ in_places (first_legs row.now count) }
{
    let mut legs = [NO_LEG; LEG_PLACES];
    // By index: a host lends the legs as numbers of one row, three for each.
    for i in 0..count {
        legs[i] = leg_in(row, FIRST_LEG_FIELD + LEG_FIELDS * i);
    }
    legs
}
