// Minimums: each member's part of the lots by weight, rounded up.
ghost use Rattle.std.specs.Prelude.{◌≡◌, ◌≤◌, ◌<◌, length};
ghost use Rattle.rules.specs.Default.{sum_of, minimums};
ghost use Rattle.rules.specs.Ranges.{most_lots_run};
ghost use Rattle.dealing.specs.Levels.{most_weight, MemberColumn};

use crate::columns::sum_of;

pub fn find_minimums(lots: u64, weights: &[u64], minima: &mut [u64])
    requires lots_le_most_lots_run { (lots ≤ most_lots_run) × (0 < sum_of weights.now) × (length minima.old ≡ length weights.now) }
    requires member_column { MemberColumn most_weight weights.now }
    ensures { minima.new ≡ minimums lots weights.now }
{
    let total = sum_of(weights);
    for (i, weight) in weights.iter().enumerate() {
        minima[i] = (lots * *weight).div_ceil(total);
    }
}
