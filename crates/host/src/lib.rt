// The ledger for a host program in C. include/ledger.h declares these functions, docs/LAYOUT.md names every place.
#![tactic(auto)]

ghost use Rattle.std.specs.Prelude.{◌≡◌, List, ℤ};
ghost use Rattle.rules.specs.Ledger.{lent};
ghost use Rattle.host.specs.Entries.{Makes, Applies};
ghost use Rattle.host.specs.Sent.{damage_number};

mod bytes;

pub use bytes::{
    ledger_front_record, ledger_read_header, ledger_read_record, ledger_write_header,
    ledger_write_record,
};
use reply::reply_of;
use tables::LentTables;

// Makes a ledger in the lent tables: 0, or the number of the cause, 1 or 2, and then every table is as it was.
#[unsafe(no_mangle)]
pub extern "C" fn ledger_make(
    head: &mut [u64],
    prices: &mut [u64],
    lots: &mut [i64],
    value: &mut [i64],
    book: &[u64],
    header: &[u8],
) -> u64
    ensures { (n : List ℤ) → Makes (lent head.old prices.old lots.old value.old book.now n) header.now result
        (lent head.new prices.new lots.new value.new book.now n) }
{
    let answer = engine::make(head, prices, lots, value, book, header);
    reply_of(answer).number
}

// Whether any record applied to these tables is answered 1: 1 if a table is too short or damaged, else 0.
#[unsafe(no_mangle)]
pub extern "C" fn ledger_is_damaged(
    head: &[u64],
    prices: &[u64],
    lots: &[i64],
    value: &[i64],
    book: &[u64],
    lines: &[i64],
) -> u64
    ensures { result ≡ damage_number (lent head.now prices.now lots.now value.now book.now lines.now) }
{
    if damage::is_unsound(head, prices, lots, value, book, lines) {
        return 1;
    }
    0
}

// Applies one record to the lent tables: 0, or the number of the cause, and then every table is as it was. The detail
// is what goes with the number.
#[unsafe(no_mangle)]
pub extern "C" fn ledger_apply(
    head: &mut [u64],
    prices: &mut [u64],
    lots: &mut [i64],
    value: &mut [i64],
    book: &mut [u64],
    lines: &mut [i64],
    bytes: &[u8],
    detail: &mut u64,
) -> u64
    ensures { Applies (lent head.old prices.old lots.old value.old book.old lines.old) bytes.now result detail.new
        (lent head.new prices.new lots.new value.new book.new lines.new) }
{
    let mut tables = LentTables {
        head,
        prices,
        lots,
        value,
        book,
        lines,
    };
    let answer = engine::apply(&mut tables, bytes);
    let reply = reply_of(answer);
    *detail = reply.detail;
    reply.number
}
