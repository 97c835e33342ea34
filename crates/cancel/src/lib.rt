// A cancel of a resting order. It is handed tables that are long enough and not damaged, and a record that was read.
#![tactic(auto)]

ghost use Rattle.std.specs.Prelude.{◌≡◌};
ghost use Rattle.rules.specs.Ledger.{Tables, with_head, with_book};
ghost use Rattle.rules.specs.Refusals.{cancel_spec};
ghost use Rattle.tables.specs.Fit.{HeadFit, BookFit};

use order_book::Leaving;
use rules::layout::{ORDER_COUNT, TIME};
use rules::{Cancellation, Refusal};

// The order leaves the book, and the record's time is the ledger's.
pub fn apply(head: &mut [u64], book: &mut [u64], e: Cancellation) -> Result<u64, Refusal>
    requires { HeadFit head.old × BookFit head.old book.old }
    ensures { (t : Tables) → record { answer = result; after = with_head head.new (with_book book.new t) }
        ≡ cancel_spec (with_head head.old (with_book book.old t)) e }
{
    if e.time < head[TIME] {
        return Err(Refusal::TimeBelowLedger);
    }
    let count = head[ORDER_COUNT] as usize;
    let leaving = Leaving::Numbered {
        number: e.order,
        member: e.member,
    };
    if !order_book::would_any_leave(book, count, leaving) {
        return Err(Refusal::NoSuchOrder);
    }
    tables::set_time(head, e.time);
    order_book::remove_orders(head, book, leaving);
    Ok(0)
}
