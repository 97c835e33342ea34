// Whether a lent table is shorter than its layout.
ghost use Rattle.std.specs.Prelude.{◌≡◌};
ghost use Rattle.rules.specs.Ledger.{Tables, with_head, with_prices, with_rows, with_book, with_lines, ledger_short, lines_short};

use rules::layout;

pub fn is_ledger_short(
    head: &[u64],
    prices: &[u64],
    lots: &[i64],
    value: &[i64],
    book: &[u64],
) -> bool
    ensures { (t : Tables) → result ≡ ledger_short (with_head head.now (with_prices prices.now (with_rows lots.now value.now
        (with_book book.now t)))) }
{
    if head.len() < layout::HEAD_LENGTH {
        return true;
    }
    if prices.len() < layout::PRICES_LENGTH {
        return true;
    }
    if lots.len() < layout::ROWS_LENGTH {
        return true;
    }
    if value.len() < layout::ROWS_LENGTH {
        return true;
    }
    book.len() < layout::BOOK_LENGTH
}

pub fn is_lines_short(lines: &[i64]) -> bool
    ensures { (t : Tables) → result ≡ lines_short (with_lines lines.now t) }
{
    lines.len() < layout::LINES_LENGTH
}
