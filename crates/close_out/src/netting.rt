// Step 1: defaulted longs against defaulted shorts, lowest member first on each side.
ghost use Rattle.std.specs.Prelude.{◌≡◌, ℕ, ◌+◌, ◌≤◌, ◌<◌, length, get_or};
ghost use Rattle.rules.specs.Default.{given_up, less};
ghost use Rattle.rules.specs.Ledger.{Tables, with_head, with_rows, with_lines};
ghost use Rattle.rules.specs.Ranges.{contract_count, most_price};
ghost use Rattle.tables.specs.Fit.{members_in};
ghost use Rattle.deal_lines.specs.Room.{Bookable};
ghost use Rattle.close_out.specs.Booking.{with_each, netting_lines};

use crate::booking::book_changes;
use dealing::give_up;
use rules::Kurus;
use rules::layout::ROW_WIDTH;

// What each has remaining after what it gave up.
fn subtract(held: &mut [u64], given: &[u64])
    requires { (length given.now ≡ length held.old) × ((i : ℕ) → get_or given.now i 0 ≤ get_or held.old i 0) }
    ensures { held.new ≡ less held.old given.now }
{
    for (i, lots) in given.iter().enumerate() {
        held[i] -= *lots;
    }
}

fn net_columns(
    head: &mut [u64],
    lots: &mut [i64],
    value: &mut [i64],
    lines: &mut [i64],
    contract: u64,
    price: Kurus,
    netted: u64,
    longs: &mut [u64],
    shorts: &mut [u64],
    given_longs: &mut [u64],
    given_shorts: &mut [u64],
) -> usize
    requires bookable { Bookable (netted + netted) head.old lots.old value.old lines.old }
    requires contract_lt_contract_count { (contract < contract_count) × (price.0 ≤ most_price) × (length longs.old ≡ members_in head.old) × (length shorts.old ≡ members_in head.old) }
    requires given_longs_len { (length given_longs.old ≡ members_in head.old) × (length given_shorts.old ≡ members_in head.old) }
    ensures value { result ≡ length (netting_lines contract price.0 netted longs.old shorts.old) }
    ensures longs_after { longs.new ≡ less longs.old (given_up netted longs.old) }
    ensures shorts_after { shorts.new ≡ less shorts.old (given_up netted shorts.old) }
    ensures t_after { (t : Tables) → with_head head.new (with_rows lots.new value.new (with_lines lines.new t))
        ≡ with_each 0 (netting_lines contract price.0 netted longs.old shorts.old)
        (with_head head.old (with_rows lots.old value.old (with_lines lines.old t))) }
{
    give_up(netted, longs, given_longs);
    give_up(netted, shorts, given_shorts);
    let count = book_changes(
        head,
        lots,
        value,
        lines,
        0,
        contract,
        price,
        given_shorts,
        given_longs,
    );
    subtract(longs, given_longs);
    subtract(shorts, given_shorts);
    count
}

// Books the lines of step 1, and leaves of longs and shorts what was not netted.
pub fn book_netting(
    head: &mut [u64],
    lots: &mut [i64],
    value: &mut [i64],
    lines: &mut [i64],
    contract: u64,
    price: Kurus,
    netted: u64,
    longs: &mut [u64],
    shorts: &mut [u64],
) -> usize
    requires bookable { Bookable (netted + netted) head.old lots.old value.old lines.old }
    requires contract_lt_contract_count { (contract < contract_count) × (price.0 ≤ most_price) × (length longs.old ≡ members_in head.old) × (length shorts.old ≡ members_in head.old) }
    ensures value { result ≡ length (netting_lines contract price.0 netted longs.old shorts.old) }
    ensures longs_after { longs.new ≡ less longs.old (given_up netted longs.old) }
    ensures shorts_after { shorts.new ≡ less shorts.old (given_up netted shorts.old) }
    ensures t_after { (t : Tables) → with_head head.new (with_rows lots.new value.new (with_lines lines.new t))
        ≡ with_each 0 (netting_lines contract price.0 netted longs.old shorts.old)
        (with_head head.old (with_rows lots.old value.old (with_lines lines.old t))) }
{
    let members = longs.len();
    let mut given_longs = [0u64; ROW_WIDTH];
    let mut given_shorts = [0u64; ROW_WIDTH];
    net_columns(
        head,
        lots,
        value,
        lines,
        contract,
        price,
        netted,
        longs,
        shorts,
        &mut given_longs[..members],
        &mut given_shorts[..members],
    )
}
