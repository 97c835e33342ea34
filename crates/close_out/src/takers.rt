// Step 2, the takers: the lots remaining are dealt out to the members that are not defaulted.
ghost use Rattle.std.specs.Prelude.{◌≡◌, ◌+◌, ◌≤◌, ◌<◌, length, replicate};
ghost use Rattle.rules.specs.Default.{sum_of};
ghost use Rattle.rules.specs.Ledger.{Tables, with_head, with_rows, with_lines};
ghost use Rattle.rules.specs.Ranges.{contract_count, most_price, least_lines};
ghost use Rattle.tables.specs.Fit.{members_in};
ghost use Rattle.dealing.specs.Levels.{most_weight, MemberColumn};
ghost use Rattle.deal_lines.specs.Room.{Bookable};
ghost use Rattle.close_out.specs.Booking.{with_each, taker_lines};

use crate::booking::book_changes;
use dealing::deal_out;
use rules::Kurus;
use rules::layout::ROW_WIDTH;

fn deal_columns(
    head: &mut [u64],
    lots: &mut [i64],
    value: &mut [i64],
    lines: &mut [i64],
    i: usize,
    contract: u64,
    price: Kurus,
    long: u64,
    remaining: u64,
    weights: &[u64],
    taken: &mut [u64],
    nothing: &[u64],
) -> usize
    requires bookable { Bookable remaining head.old lots.old value.old lines.old × MemberColumn most_weight weights.now × (0 < sum_of weights.now) }
    requires contract_lt_contract_count { (contract < contract_count) × (price.0 ≤ most_price) × (i + length weights.now ≤ least_lines) × (length weights.now ≡ members_in head.old) }
    requires taken_len { (length taken.old ≡ members_in head.old) × (nothing.now ≡ replicate (members_in head.old) 0) }
    ensures value { result ≡ i + length (taker_lines contract price.0 long remaining weights.now) }
    ensures t_after { (t : Tables) → with_head head.new (with_rows lots.new value.new (with_lines lines.new t))
        ≡ with_each i (taker_lines contract price.0 long remaining weights.now)
        (with_head head.old (with_rows lots.old value.old (with_lines lines.old t))) }
{
    deal_out(remaining, weights, taken);
    if 0 < long {
        return book_changes(head, lots, value, lines, i, contract, price, taken, nothing);
    }
    book_changes(head, lots, value, lines, i, contract, price, nothing, taken)
}

// Books the takers' lines after i others: long lots go to them, short lots come from them.
pub fn book_takers(
    head: &mut [u64],
    lots: &mut [i64],
    value: &mut [i64],
    lines: &mut [i64],
    i: usize,
    contract: u64,
    price: Kurus,
    long: u64,
    remaining: u64,
    weights: &[u64],
) -> usize
    requires bookable { Bookable remaining head.old lots.old value.old lines.old × MemberColumn most_weight weights.now × (0 < sum_of weights.now) }
    requires contract_lt_contract_count { (contract < contract_count) × (price.0 ≤ most_price) × (i + length weights.now ≤ least_lines) × (length weights.now ≡ members_in head.old) }
    ensures value { result ≡ i + length (taker_lines contract price.0 long remaining weights.now) }
    ensures t_after { (t : Tables) → with_head head.new (with_rows lots.new value.new (with_lines lines.new t))
        ≡ with_each i (taker_lines contract price.0 long remaining weights.now)
        (with_head head.old (with_rows lots.old value.old (with_lines lines.old t))) }
{
    let members = weights.len();
    let mut taken = [0u64; ROW_WIDTH];
    let nothing = [0u64; ROW_WIDTH];
    deal_columns(
        head,
        lots,
        value,
        lines,
        i,
        contract,
        price,
        long,
        remaining,
        weights,
        &mut taken[..members],
        &nothing[..members],
    )
}
