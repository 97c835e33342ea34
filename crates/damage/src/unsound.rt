// Whether a lent table is too short or damaged.
ghost use Rattle.std.specs.Prelude.{◌≡◌};
ghost use Rattle.rules.specs.Ledger.{Tables, lent, with_head, with_prices, with_rows, with_book};
ghost use Rattle.rules.specs.Refusals.{ledger_unsound, unsound};

use crate::book::is_book_sound;
use crate::head::is_head_sound;
use crate::prices::are_prices_sound;
use crate::rows::are_rows_within;
use calendar::is_first_year_sound;
use months::span_of;
use rules::{layout, ranges};
use tables::{is_ledger_short, is_lines_short};

// Whether a table of the ledger is too short or damaged, the line table apart. The tables may hold anything: each is read only
// where its length and the head's counts allow it.
pub fn is_ledger_unsound(
    head: &[u64],
    prices: &[u64],
    lots: &[i64],
    value: &[i64],
    book: &[u64],
) -> bool
    ensures { (t : Tables) → result ≡ ledger_unsound (with_head head.now (with_prices prices.now (with_rows lots.now value.now
        (with_book book.now t)))) }
{
    if is_ledger_short(head, prices, lots, value, book) {
        return true;
    }
    let first_year = head[layout::FIRST_YEAR];
    if !is_first_year_sound(first_year) {
        return true;
    }
    let span = span_of(first_year);
    if !is_head_sound(head, span) {
        return true;
    }
    let members = head[layout::MEMBERS];
    let run = head[layout::LOTS_RUN];
    if !are_prices_sound(prices, run) {
        return true;
    }
    if !are_rows_within(lots, members, run) {
        return true;
    }
    if !are_rows_within(value, members, ranges::MOST_PRICE * run) {
        return true;
    }
    !is_book_sound(head, book, span)
}

// Whether a table that a record is lent is too short or damaged. Of the line table only the length is tested.
pub fn is_unsound(
    head: &[u64],
    prices: &[u64],
    lots: &[i64],
    value: &[i64],
    book: &[u64],
    lines: &[i64],
) -> bool
    ensures { result ≡ unsound (lent head.now prices.now lots.now value.now book.now lines.now) }
{
    if is_lines_short(lines) {
        return true;
    }
    is_ledger_unsound(head, prices, lots, value, book)
}
