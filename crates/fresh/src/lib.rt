// A fresh ledger, written from the fields of its header. Surplus places stay as they were.
#![tactic(auto)]

ghost use Rattle.std.specs.Prelude.{◌≡◌, [], ◌∷◌, ◌+◌, ◌*◌, ◌≤◌, ◌<◌, length};
ghost use Rattle.arith.specs.Lists.{over};
ghost use Rattle.rules.specs.Ranges.{most_holidays, most_members};
ghost use Rattle.rules.specs.Ledger.{Tables, with_head, with_prices, with_rows, head_length, prices_length, rows_length, fresh, fresh_head, fresh_prices, fresh_rows};
ghost use Rattle.fresh.specs.Headers.{header};

use rules::DayNo;
use rules::layout::{
    ACCEPTED_SUBMITS, CONTRACTS, DAY, DAY_LOTS, DAY_VALUE, FIRST_YEAR, GGF, HIGH, HOLIDAY_COUNT,
    HOLIDAYS, LIMITS, LOTS_RUN, LOW, MARKS, MEMBERS, ORDER_COUNT, PRICE_WIDTH, ROW_WIDTH, SUBMITS,
    TIME,
};
use rules::ranges::MOST_PRICE;
use tables::{clear_at, clear_rows};

// Zero rows for each member of each contract. A host lends a table as one row of numbers, so here and below the block
// of a contract is found by its index.
fn write_rows(rows: &mut [i64], members: usize)
    requires { (rows_length ≤ length rows.old) × (members ≤ most_members) }
    ensures { rows.new ≡ fresh_rows members rows.old }
{
    for contract in 0..CONTRACTS {
        let at = contract * ROW_WIDTH;
        clear_rows(&mut rows[at..at + members]);
    }
}

// No GGF, low 1, high 1,000,000, nothing dealt.
fn write_prices(prices: &mut [u64])
    requires { prices_length ≤ length prices.old }
    ensures { prices.new ≡ fresh_prices prices.old }
{
    for contract in 0..CONTRACTS {
        let at = contract * PRICE_WIDTH;
        prices[at + GGF] = 0;
        prices[at + LOW] = 1;
        prices[at + HIGH] = MOST_PRICE;
        prices[at + DAY_LOTS] = 0;
        prices[at + DAY_VALUE] = 0;
    }
}

fn write_at(head: &mut [u64], at: usize, list: &[u64])
    requires { at + length list.now ≤ length head.old }
    ensures { head.new ≡ over at list.now head.old }
{
    head[at..at + list.len()].copy_from_slice(list);
}

// The head's first eight places; time and counts are 0.
fn write_numbers(head: &mut [u64], first_year: u64, members: u64, holidays: u64, start: DayNo)
    requires { head_length ≤ length head.old }
    ensures { head.new ≡ over 0 (first_year ∷ members ∷ holidays ∷ start.0 ∷ 0 ∷ 0 ∷ 0 ∷ 0 ∷ []) head.old }
{
    head[FIRST_YEAR] = first_year;
    head[MEMBERS] = members;
    head[HOLIDAY_COUNT] = holidays;
    head[DAY] = start.0;
    head[TIME] = 0;
    head[ACCEPTED_SUBMITS] = 0;
    head[LOTS_RUN] = 0;
    head[ORDER_COUNT] = 0;
}

// Each member has a limit, so there are as many members as limits.
fn write_head(head: &mut [u64], first_year: u64, start: DayNo, holidays: &[u64], limits: &[u64])
    requires { (head_length ≤ length head.old) × (length holidays.now ≤ most_holidays) × (length limits.now ≤ most_members) }
    ensures { head.new ≡ fresh_head (header first_year start.0 holidays.now limits.now) head.old }
{
    let members = limits.len();
    let count = holidays.len();
    write_numbers(head, first_year, members as u64, count as u64, start);
    write_at(head, HOLIDAYS, holidays);
    write_at(head, LIMITS, limits);
    clear_at(head, MARKS, members);
    clear_at(head, SUBMITS, members);
}

// Every table of a fresh ledger.
pub fn write_fresh(
    head: &mut [u64],
    prices: &mut [u64],
    lots: &mut [i64],
    value: &mut [i64],
    first_year: u64,
    start: DayNo,
    holidays: &[u64],
    limits: &[u64],
)
    requires head_length_in_bounds { (head_length ≤ length head.old) × (prices_length ≤ length prices.old) × (rows_length ≤ length lots.old) × (rows_length ≤ length value.old) }
    requires holidays_len_bound { (length holidays.now ≤ most_holidays) × (length limits.now ≤ most_members) }
    ensures { (t : Tables) → with_head head.new (with_prices prices.new (with_rows lots.new value.new t))
        ≡ fresh (header first_year start.0 holidays.now limits.now)
        (with_head head.old (with_prices prices.old (with_rows lots.old value.old t))) }
{
    let members = limits.len();
    write_head(head, first_year, start, holidays, limits);
    write_prices(prices);
    write_rows(lots, members);
    write_rows(value, members);
}
