// Lines of a close-out booked: a line for each member whose lots change.
ghost use Rattle.std.specs.Prelude.{◌≡◌, ◌≢◌, [], ◌∷◌, ◌+◌, ◌≤◌, ◌<◌, pos, ◌-ℤ◌, length};
ghost use Rattle.rules.specs.Default.{sum_of, change_lines};
ghost use Rattle.rules.specs.Ledger.{Tables, with_head, with_rows, with_lines};
ghost use Rattle.rules.specs.Ranges.{contract_count, most_price, least_lines};
ghost use Rattle.tables.specs.Fit.{members_in};
ghost use Rattle.deal_lines.specs.Lines.{line_of};
ghost use Rattle.deal_lines.specs.Room.{Bookable};
ghost use Rattle.close_out.specs.Booking.{with_each, changes};

use deal_lines::DealLine;
use rules::{Kurus, Lots, Side};

// The line of a member whose lots change: it buys what it gains, and sells what it gives up.
fn change_line(contract: u64, price: Kurus, member: u64, gain: u64, loss: u64) -> DealLine
    requires { gain ≢ loss }
    ensures line { change_lines contract price.0 member ((pos gain -ℤ pos loss) ∷ []) ≡ line_of result ∷ [] }
    ensures terms { (result.member ≡ member) × (result.contract ≡ contract) × (result.price ≡ price) × (result.lots.0 ≤ gain + loss) }
{
    let lots = Lots(gain.abs_diff(loss));
    let side = if loss < gain { Side::Buy } else { Side::Sell };
    DealLine {
        member,
        contract,
        side,
        lots,
        price,
    }
}

// Books the change of one member as line i, if there is one. The answer is the number of lines then.
fn book_change(
    head: &mut [u64],
    lots: &mut [i64],
    value: &mut [i64],
    lines: &mut [i64],
    i: usize,
    contract: u64,
    price: Kurus,
    member: u64,
    gain: u64,
    loss: u64,
) -> usize
    requires bookable { Bookable (gain + loss) head.old lots.old value.old lines.old }
    requires i_lt_least_lines { (i < least_lines) × (contract < contract_count) × (price.0 ≤ most_price) × (member < members_in head.old) }
    ensures value { result ≡ i + length (change_lines contract price.0 member ((pos gain -ℤ pos loss) ∷ [])) }
    ensures t_after { (t : Tables) → with_head head.new (with_rows lots.new value.new (with_lines lines.new t))
        ≡ with_each i (change_lines contract price.0 member ((pos gain -ℤ pos loss) ∷ []))
        (with_head head.old (with_rows lots.old value.old (with_lines lines.old t))) }
{
    if gain == loss {
        return i;
    }
    let line = change_line(contract, price, member, gain, loss);
    deal_lines::book_line(head, lots, value, lines, i, line);
    i + 1
}

// Books the changes of all members, rising, after i other lines. The answer is the number of lines then.
pub fn book_changes(
    head: &mut [u64],
    lots: &mut [i64],
    value: &mut [i64],
    lines: &mut [i64],
    i: usize,
    contract: u64,
    price: Kurus,
    gains: &[u64],
    losses: &[u64],
) -> usize
    requires bookable { Bookable (sum_of gains.now + sum_of losses.now) head.old lots.old value.old lines.old }
    requires gains_bound { (i + length gains.now ≤ least_lines) × (contract < contract_count) × (price.0 ≤ most_price) }
    requires gains_len { (length gains.now ≡ members_in head.old) × (length losses.now ≡ length gains.now) }
    ensures value { result ≡ i + length (change_lines contract price.0 0 (changes gains.now losses.now)) }
    ensures t_after { (t : Tables) → with_head head.new (with_rows lots.new value.new (with_lines lines.new t))
        ≡ with_each i (change_lines contract price.0 0 (changes gains.now losses.now))
        (with_head head.old (with_rows lots.old value.old (with_lines lines.old t))) }
{
    let mut at = i;
    for (member, gain) in gains.iter().enumerate() {
        at = book_change(
            head,
            lots,
            value,
            lines,
            at,
            contract,
            price,
            member as u64,
            *gain,
            losses[member],
        );
    }
    at
}
