// The level up to which whole rounds deal.
ghost use Rattle.std.specs.Prelude.{◌≡◌, ◌≤◌, ◌<◌, length, get_or, EachIndex};
ghost use Rattle.rules.specs.Default.{sum_of};
ghost use Rattle.rules.specs.Ranges.{most_members, most_lots_run};
ghost use Rattle.dealing.specs.Levels.{at_level, Highest};

pub fn lots_at_level(level: u64, minima: &[u64]) -> u64
    requires { (level ≤ most_lots_run) × (length minima.now ≤ most_members) }
    ensures { result ≡ sum_of (at_level level minima.now) }
{
    minima.iter().map(|minimum| level.min(*minimum)).sum()
}

pub fn fill_to_level(level: u64, minima: &[u64], received: &mut [u64])
    requires { length received.old ≡ length minima.now }
    ensures { received.new ≡ at_level level minima.now }
{
    for (i, minimum) in minima.iter().enumerate() {
        received[i] = level.min(*minimum);
    }
}

// The largest minimum.
fn largest(minima: &[u64]) -> u64
    ensures { EachIndex minima.now (λ i. get_or minima.now i 0 ≤ result) }
{
    minima.iter().copied().max().unwrap_or(0)
}

// A level that the lots suffice for, below the top, for which they do not. It is as many below the top as there are members if
// the lots suffice for that one, else 0.
fn level_below(lots: u64, minima: &[u64], top: u64) -> u64
    requires { (top ≤ most_lots_run) × (length minima.now ≤ most_members) × (lots < sum_of (at_level top minima.now)) }
    ensures { (result < top) × (sum_of (at_level result minima.now) ≤ lots) }
{
    let level = top.saturating_sub(minima.len() as u64);
    if lots_at_level(level, minima) <= lots {
        return level;
    }
    0
}

// The highest level that the lots suffice for. Minimums are rounded up, so together they pass the lots by less than one for
// each member. The level is less than so many below the largest, and the number of halvings does not grow with the lots.
pub fn highest_level(lots: u64, minima: &[u64]) -> u64
    requires { (lots ≤ most_lots_run) × (length minima.now ≤ most_members) }
    ensures { Highest lots minima.now result }
{
    let top = lots.min(largest(minima));
    if lots_at_level(top, minima) <= lots {
        return lots;
    }
    let mut low = level_below(lots, minima, top);
    let mut high = top - 1;
    while low < high {
        let middle = high - (high - low) / 2;
        if lots_at_level(middle, minima) <= lots {
            low = middle;
        } else {
            high = middle - 1;
        }
    }
    low
}
