// A member's position in a contract, beside its limit.
ghost use Rattle.std.specs.Prelude.{◌≡◌, ◌≤◌, ◌<◌, length, get_or, pos, nat_abs, ◌+ℤ◌};
ghost use Rattle.std.specs.Int.Signed.{lt_z};
ghost use Rattle.rules.specs.Ranges.{contract_count, most_members, most_limit, most_lots_run};
ghost use Rattle.rules.specs.Ledger.{row_place, rows_length};
ghost use Rattle.rules.specs.Matching.{mirrored};

use rules::layout::ROW_WIDTH;
use rules::{Lots, Side, SignedLots};

// A member's net lots, its buys less its sells; mirrored for a sell.
pub fn position(lots: &[i64], contract: u64, member: u64, side: Side) -> SignedLots
    requires rows_length_in_bounds { (rows_length ≤ length lots.now) × (contract < contract_count) × (member < most_members) }
    requires pos_bound { nat_abs (get_or lots.now (row_place contract member) (pos 0)) ≤ most_lots_run }
    ensures { (result.0 ≡ mirrored side (get_or lots.now (row_place contract member) (pos 0))) × (nat_abs result.0 ≤ most_lots_run) }
{
    let at = contract as usize * ROW_WIDTH + member as usize;
    let net = lots[at];
    match side {
        Side::Buy => SignedLots(net),
        Side::Sell => SignedLots(-net),
    }
}

// Whether so many lots more would pass the limit.
pub fn is_above(limit: Lots, net: SignedLots, more: Lots) -> bool
    requires { (limit.0 ≤ most_limit) × (nat_abs net.0 ≤ most_lots_run) × (more.0 ≤ most_lots_run) }
    ensures { result ≡ lt_z (pos limit.0) (net.0 +ℤ pos more.0) }
{
    (limit.0 as i64) < net.0 + more.0 as i64
}
