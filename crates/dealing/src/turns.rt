// Lots dealt out in turns.
ghost use Rattle.std.specs.Prelude.{◌≡◌, ℕ, ◌≤◌, ◌<◌, length, get_or};
ghost use Rattle.rules.specs.Default.{sum_of, minimums, round, dealt_out};
ghost use Rattle.rules.specs.Ranges.{most_lots_run};
ghost use Rattle.dealing.specs.Levels.{most_weight, MemberColumn};

use crate::level::{fill_to_level, highest_level, lots_at_level};
use crate::minimums::find_minimums;
use crate::order::put_in_order;
use rules::layout::ROW_WIDTH;

// A round: each member in order receives one lot, never past its minimum, while there are any.
fn take_turns(minima: &[u64], order: &[usize], received: &mut [u64], lots: u64) -> u64
    requires order_len { (length order.now ≡ length minima.now) × (length received.old ≡ length minima.now) }
    requires by_index { (i : ℕ) → get_or order.now i 0 < length minima.now }
    ensures { record { received = received.exit.now; undealt = result } ≡ round minima.now order.now (record { received = received.entry.now; undealt = lots }) }
{
    let mut undealt = lots;
    for &member in order {
        let has = received[member];
        if (0 < undealt) & (has < minima[member]) {
            received[member] = has + 1;
            undealt -= 1;
        }
    }
    undealt
}

// Whole rounds are taken at once: up to the highest level that the lots suffice for; one round deals the rest.
fn deal_by_minimums(lots: u64, weights: &[u64], minima: &[u64], received: &mut [u64])
    requires lots_le_most_lots_run { (lots ≤ most_lots_run) × (0 < sum_of weights.now) × (length received.old ≡ length weights.now) }
    requires member_column { MemberColumn most_weight weights.now × (minima.now ≡ minimums lots weights.now) }
    ensures { received.new ≡ dealt_out lots weights.now }
{
    let mut order = [0usize; ROW_WIDTH];
    let members = weights.len();
    put_in_order(minima, weights, &mut order[..members]);
    let level = highest_level(lots, minima);
    let undealt = lots - lots_at_level(level, minima);
    fill_to_level(level, minima, received);
    take_turns(minima, &order[..members], received, undealt);
}

// Lots dealt out to the members by weight.
pub fn deal_out(lots: u64, weights: &[u64], received: &mut [u64])
    requires lots_le_most_lots_run { (lots ≤ most_lots_run) × (0 < sum_of weights.now) × (length received.old ≡ length weights.now) }
    requires member_column { MemberColumn most_weight weights.now }
    ensures { received.new ≡ dealt_out lots weights.now }
{
    let mut minima = [0u64; ROW_WIDTH];
    let members = weights.len();
    find_minimums(lots, weights, &mut minima[..members]);
    deal_by_minimums(lots, weights, &minima[..members], received);
}
