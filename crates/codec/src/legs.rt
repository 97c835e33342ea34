// The legs of a proposal.
ghost use Rattle.std.specs.Prelude.{◌≡◌, ◌+◌, ◌≤◌, length};
ghost use Rattle.rules.specs.Records.{leg_length, leg_at};
ghost use Rattle.codec.specs.Legs.{Held, held_legs, in_places};

use big_endian::{u8_or_zero, u16_at, u32_at};
use record_kinds::places::{KIND_BYTE, LEG_LOTS_BYTE, LEG_PRICE_BYTE, PROPOSAL_LEGS_BYTE};
use record_kinds::{leg_place, record_length};
use rules::kinds::PROPOSAL;
use rules::layout::LEG_PLACES;
use rules::ranges::MOST_LEGS;
use rules::{Kurus, Leg, Lots};

// What stands in an array's places past a proposal's legs.
pub const NO_LEG: Leg = Leg {
    order: 0,
    lots: Lots(0),
    price: Kurus(0),
};

// The leg whose bytes start at a place.
fn leg_at(bytes: &[u8], at: usize) -> Leg
    requires { at + leg_length ≤ length bytes.now }
    ensures { result ≡ leg_at bytes.now at }
{
    let order = u32_at(bytes, at);
    let lots = u16_at(bytes, at + LEG_LOTS_BYTE);
    let price = u32_at(bytes, at + LEG_PRICE_BYTE);
    Leg {
        order,
        lots: Lots(lots),
        price: Kurus(price),
    }
}

// How many legs a record holds whole: none unless it is a proposal of at most 12 with nothing missing and nothing past them.
fn legs_held(bytes: &[u8]) -> usize
    ensures { Held bytes.now result }
{
    if u8_or_zero(bytes, KIND_BYTE) != PROPOSAL {
        return 0;
    }
    let count = u8_or_zero(bytes, PROPOSAL_LEGS_BYTE);
    if MOST_LEGS < count {
        return 0;
    }
    if bytes.len() as u64 != record_length(PROPOSAL, count) {
        return 0;
    }
    count as usize
}

// The legs that a record holds whole, and no leg in the places past them.
pub fn read_legs(bytes: &[u8]) -> [Leg; LEG_PLACES]
    ensures { result ≡ in_places (held_legs bytes.now) }
{
    let mut legs = [NO_LEG; LEG_PLACES];
    // By index: a leg is read at the place of its number, and the bytes are no list of legs.
    for i in 0..legs_held(bytes) {
        legs[i] = leg_at(bytes, leg_place(i));
    }
    legs
}
