// The lines of a close-out, step after step.
ghost use Rattle.std.specs.Prelude.{◌≡◌, ◌+◌, ◌≤◌, ◌<◌, length};
ghost use Rattle.rules.specs.Default.{given_up, less};
ghost use Rattle.rules.specs.Ledger.{Tables, with_head, with_rows, with_lines};
ghost use Rattle.rules.specs.Ranges.{contract_count, most_price};
ghost use Rattle.tables.specs.Fit.{members_in};
ghost use Rattle.deal_lines.specs.Room.{Bookable};
ghost use Rattle.close_out.specs.Booking.{with_each, step_lines, Dealable};

use crate::booking::book_changes;
use crate::netting::book_netting;
use crate::takers::book_takers;
use dealing::sum_of;
use rules::Kurus;

// Books step 1, then of step 2 what the defaulted have remaining, then the takers. The answer is the number of lines.
pub fn book_steps(
    head: &mut [u64],
    lots: &mut [i64],
    value: &mut [i64],
    lines: &mut [i64],
    contract: u64,
    price: Kurus,
    netted: u64,
    remaining: u64,
    longs: &mut [u64],
    shorts: &mut [u64],
    weights: &[u64],
) -> usize
    requires bookable { Bookable ((netted + netted) + (remaining + remaining)) head.old lots.old value.old lines.old × (contract < contract_count) × (price.0 ≤ most_price) }
    requires dealable { Dealable netted remaining (members_in head.old) longs.old shorts.old weights.now }
    ensures value { result ≡ length (step_lines contract price.0 netted remaining longs.old shorts.old weights.now) }
    ensures longs_after { longs.new ≡ less longs.old (given_up netted longs.old) }
    ensures shorts_after { shorts.new ≡ less shorts.old (given_up netted shorts.old) }
    ensures t_after { (t : Tables) → with_head head.new (with_rows lots.new value.new (with_lines lines.new t))
        ≡ with_each 0 (step_lines contract price.0 netted remaining longs.old shorts.old weights.now)
        (with_head head.old (with_rows lots.old value.old (with_lines lines.old t))) }
{
    let first = book_netting(
        head, lots, value, lines, contract, price, netted, longs, shorts,
    );
    let second = book_changes(
        head, lots, value, lines, first, contract, price, shorts, longs,
    );
    if remaining == 0 {
        return second;
    }
    let long = sum_of(longs);
    book_takers(
        head, lots, value, lines, second, contract, price, long, remaining, weights,
    )
}
