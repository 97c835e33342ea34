// The close of a day. It is handed tables that are long enough and not damaged, and a record that was read.
#![tactic(auto)]

mod orders;

ghost use Rattle.std.specs.Prelude.{◌≡◌, ◌*◌, ◌≤◌, length, get_or};
ghost use Rattle.rules.specs.Ranges.{term_count, most_members, most_price};
ghost use Rattle.rules.specs.Ledger.{Tables, with_head, with_prices, with_rows, with_book, head_length, day_place};
ghost use Rattle.rules.specs.CloseOfDay.{priced, on_day};
ghost use Rattle.rules.specs.Refusals.{close_spec};
ghost use Rattle.tables.specs.Fit.{HeadFit, PricesFit, RowsFit, BookFit, members_in, lots_run_in, calendar_in};
ghost use Rattle.contract_phases.specs.Phases.{phases};
ghost use Rattle.close_of_day.specs.Closed.{closed};

use contract_phases::Phase;
use rules::layout::{
    CONTRACTS, DAY, FIRST_YEAR, HOLIDAY_COUNT, HOLIDAYS, MEMBERS, ORDER_COUNT, SUBMITS, TERMS, TIME,
};
use rules::{DayNo, Refusal, Side};

// The phase, on the ledger's day, of each contract that has a term.
fn write_phases(head: &[u64], column: &mut [Phase])
    requires { HeadFit head.now × (length column.old ≡ term_count) }
    ensures { column.new ≡ phases (calendar_in head.now) (get_or head.now day_place 0) }
{
    let end = HOLIDAYS + head[HOLIDAY_COUNT] as usize;
    contract_phases::write_phases(
        head[FIRST_YEAR],
        &head[HOLIDAYS..end],
        DayNo(head[DAY]),
        column,
    );
}

// A new GGF for every open contract; M and V of all contracts become 0.
fn write_prices(head: &[u64], prices: &mut [u64], book: &[u64], column: &[Phase], time: u64)
    requires head_fit { HeadFit head.now × PricesFit (lots_run_in head.now) prices.old × BookFit head.now book.now }
    requires column_value { column.now ≡ phases (calendar_in head.now) (get_or head.now day_place 0) }
    ensures { (t : Tables) → with_prices prices.new (with_head head.now (with_book book.now t))
        ≡ priced time (with_head head.now (with_prices prices.old (with_book book.now t))) }
{
    let day = DayNo(head[DAY]);
    let count = head[ORDER_COUNT] as usize;
    let mut buys = [0u64; CONTRACTS];
    let mut sells = [0u64; CONTRACTS];
    reference_price::write_quotes(book, count, Side::Buy, day, time, &mut buys);
    reference_price::write_quotes(book, count, Side::Sell, day, time, &mut sells);
    reference_price::write_ggfs(prices, column, &buys, &sells);
    reference_price::clear_deals(prices);
}

// The day is written; the second's counts and the time become 0.
fn begin_day(head: &mut [u64], day: DayNo)
    requires { (head_length ≤ length head.old) × (members_in head.old ≤ most_members) }
    ensures { (t : Tables) → with_head head.new t ≡ on_day day.0 (with_head head.old t) }
{
    let members = head[MEMBERS] as usize;
    tables::clear_at(head, SUBMITS, members);
    head[DAY] = day.0;
    head[TIME] = 0;
}

fn close(
    head: &mut [u64],
    prices: &mut [u64],
    lots: &mut [i64],
    value: &mut [i64],
    book: &mut [u64],
    time: u64,
    next: DayNo,
)
    requires head_fit { HeadFit head.old × PricesFit (lots_run_in head.old) prices.old × BookFit head.old book.old }
    requires rows_fit { RowsFit (members_in head.old) (lots_run_in head.old) lots.old × RowsFit (members_in head.old) (most_price * lots_run_in head.old) value.old }
    ensures { (t : Tables) → with_head head.new (with_prices prices.new (with_rows lots.new value.new (with_book book.new t)))
        ≡ closed time next.0 (with_head head.old (with_prices prices.old (with_rows lots.old value.old (with_book book.old t)))) }
{
    let members = head[MEMBERS] as usize;
    let mut column = [Phase::Closed; TERMS];
    write_phases(head, &mut column);
    write_prices(head, prices, book, &column, time);
    cascade::cascade_all(lots, &column, members);
    cascade::cascade_all(value, &column, members);
    orders::remove_closing(head, book, &column);
    begin_day(head, next);
}

// Reference prices, the cascade of the closing contracts, the next business day.
pub fn apply(
    head: &mut [u64],
    prices: &mut [u64],
    lots: &mut [i64],
    value: &mut [i64],
    book: &mut [u64],
    time: u64,
) -> Result<u64, Refusal>
    requires head_fit { HeadFit head.old × PricesFit (lots_run_in head.old) prices.old × BookFit head.old book.old }
    requires rows_fit { RowsFit (members_in head.old) (lots_run_in head.old) lots.old × RowsFit (members_in head.old) (most_price * lots_run_in head.old) value.old }
    ensures { (t : Tables) → record {
      answer = result;
      after = with_head head.new
          (with_prices prices.new (with_rows lots.new value.new (with_book book.new t)));
    }
        ≡ close_spec (with_head head.old (with_prices prices.old (with_rows lots.old value.old (with_book book.old t)))) time }
{
    if time < head[TIME] {
        return Err(Refusal::TimeBelowLedger);
    }
    let end = HOLIDAYS + head[HOLIDAY_COUNT] as usize;
    match calendar::next_business_day(head[FIRST_YEAR], &head[HOLIDAYS..end], DayNo(head[DAY])) {
        Some(next) => {
            close(head, prices, lots, value, book, time, next);
            Ok(0)
        }
        None => Err(Refusal::NoLaterDay),
    }
}
