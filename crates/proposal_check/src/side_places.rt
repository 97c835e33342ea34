// Columns with two places for each contract: its buys, its sells.
ghost use Rattle.std.specs.Prelude.{◌≡◌, ◌<◌};
ghost use Rattle.rules.specs.Ranges.{contract_count};
ghost use Rattle.proposal_check.specs.SidePlaces.{side_places, side_place_of};

use rules::Order;
use rules::layout::CONTRACTS;
use sides::side_number;

// Buys and sells.
pub const SIDES: u64 = 2;

pub const SIDE_PLACES: usize = CONTRACTS * SIDES as usize;

// The place of an order's contract and side in a column.
pub fn side_place(o: Order) -> usize
    requires { o.contract < contract_count }
    ensures { (result ≡ side_place_of o) × (result < side_places) }
{
    (o.contract * SIDES + side_number(o.side)) as usize
}
