// A synthetic proposal. It is handed tables that are long enough and not damaged, and legs in their ranges.
#![tactic(auto)]

mod booking;

ghost use Rattle.std.specs.Prelude.{◌≡◌, ◌*◌, ◌≤◌, length};
ghost use Rattle.rules.specs.Ranges.{most_price};
ghost use Rattle.rules.specs.Ledger.{Tables, with_head, with_prices, with_rows, with_book, with_lines, lines_length};
ghost use Rattle.rules.specs.Refusals.{proposal_spec};
ghost use Rattle.tables.specs.Fit.{HeadFit, PricesFit, RowsFit, BookFit, members_in, lots_run_in, order_count_in};
ghost use Rattle.proposal_check.specs.Legs.{LegsFit, places_of};

use crate::booking::{book_legs, total_lots, use_orders};
use proposal_check::{is_acceptable, write_places};
use rules::layout::{LEG_PLACES, LOTS_RUN, ORDER_COUNT};
use rules::ranges::MOST_LOTS_RUN;
use rules::{Leg, Refusal};

// Applies the proposal whose legs name the orders at these places.
fn apply_at(
    head: &mut [u64],
    prices: &[u64],
    lots: &mut [i64],
    value: &mut [i64],
    book: &mut [u64],
    lines: &mut [i64],
    places: &[usize],
    legs: &[Leg],
) -> Result<u64, Refusal>
    requires head_fit { HeadFit head.old × PricesFit (lots_run_in head.old) prices.now × BookFit head.old book.old × (lines_length ≤ length lines.old) }
    requires rows_fit { RowsFit (members_in head.old) (lots_run_in head.old) lots.old × RowsFit (members_in head.old) (most_price * lots_run_in head.old) value.old }
    requires legs_fit { LegsFit legs.now × (places.now ≡ places_of (order_count_in head.old) book.old legs.now) }
    ensures { (t : Tables) → record {
      answer = result;
      after = with_head head.new (with_prices prices.now (with_rows lots.new value.new (with_book book.new (with_lines lines.new t))));
    }
        ≡ proposal_spec (with_head head.old (with_prices prices.now
        (with_rows lots.old value.old (with_book book.old (with_lines lines.old t)))))
        legs.now }
{
    if !is_acceptable(head, prices, book, places, legs) {
        return Err(Refusal::NotAcceptable);
    }
    let run = head[LOTS_RUN] + total_lots(legs).0;
    if MOST_LOTS_RUN < run {
        return Err(Refusal::TotalPassed);
    }
    book_legs(head, lots, value, lines, book, places, legs);
    use_orders(head, book, places, legs);
    Ok(legs.len() as u64)
}

// Finds the orders that the legs name, and applies the proposal.
pub fn apply(
    head: &mut [u64],
    prices: &[u64],
    lots: &mut [i64],
    value: &mut [i64],
    book: &mut [u64],
    lines: &mut [i64],
    legs: &[Leg],
) -> Result<u64, Refusal>
    requires head_fit { HeadFit head.old × PricesFit (lots_run_in head.old) prices.now × BookFit head.old book.old × (lines_length ≤ length lines.old) }
    requires rows_fit { RowsFit (members_in head.old) (lots_run_in head.old) lots.old × RowsFit (members_in head.old) (most_price * lots_run_in head.old) value.old }
    requires legs_fit { LegsFit legs.now }
    ensures { (t : Tables) → record {
      answer = result;
      after = with_head head.new (with_prices prices.now (with_rows lots.new value.new (with_book book.new (with_lines lines.new t))));
    }
        ≡ proposal_spec (with_head head.old (with_prices prices.now
        (with_rows lots.old value.old (with_book book.old (with_lines lines.old t)))))
        legs.now }
{
    let n = legs.len();
    let count = head[ORDER_COUNT] as usize;
    let mut places = [0usize; LEG_PLACES];
    write_places(book, count, legs, &mut places[..n]);
    apply_at(head, prices, lots, value, book, lines, &places[..n], legs)
}
