// Making a ledger from the bytes of a journal's header.
ghost use Rattle.std.specs.Prelude.{List, ℤ};
ghost use Rattle.rules.specs.Ledger.{lent};
ghost use Rattle.engine.specs.Runs.{Makes};

use header::ReadHeader;
use rules::Refusal;

// Makes a ledger. Of the tables only their length is tested. The book stays as it was: a fresh ledger has no orders.
pub fn make(
    head: &mut [u64],
    prices: &mut [u64],
    lots: &mut [i64],
    value: &mut [i64],
    book: &[u64],
    bytes: &[u8],
) -> Result<u64, Refusal>
    ensures { (n : List ℤ) → Makes (lent head.old prices.old lots.old value.old book.now n) bytes.now result
        (lent head.new prices.new lots.new value.new book.now n) }
{
    if tables::is_ledger_short(head, prices, lots, value, book) {
        return Err(Refusal::TableUnsound);
    }
    let Some(ReadHeader { header, .. }) = header::read_header(bytes) else {
        return Err(Refusal::HeaderUnsound);
    };
    fresh::write_fresh(
        head,
        prices,
        lots,
        value,
        header.first_year,
        header.start_day,
        &header.holidays[..header.holiday_count as usize],
        &header.limits[..header.members as usize],
    );
    Ok(0)
}
