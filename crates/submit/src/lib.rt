// A submit. It is handed tables that are long enough and not damaged, and a record that was read.
#![tactic(auto)]

mod booking;
mod deals;
mod placing;
mod trade;

ghost use Rattle.std.specs.Prelude.{◌≡◌, ◌*◌, ◌≤◌, length};
ghost use Rattle.rules.specs.Ranges.{most_price};
ghost use Rattle.rules.specs.Ledger.{lines_length};
ghost use Rattle.rules.specs.Refusals.{submit_spec};
ghost use Rattle.tables.specs.Fit.{HeadFit, PricesFit, RowsFit, BookFit, members_in, lots_run_in};
ghost use Rattle.tables.specs.Lent.{tables_of, SameTables};
ghost use Rattle.submit_causes.specs.Fit.{SubmissionFit};

use booking::{book_submit, order_of};
use rules::layout::ORDER_COUNT;
use rules::{Refusal, Submission};
use submit_causes::{first_cause, measured_cause};
use tables::LentTables;

// What refuses a submit is known before anything is written.
pub fn apply(tables: &mut LentTables<'_>, e: Submission) -> Result<u64, Refusal>
    requires head_fit { HeadFit tables.old.head.now × PricesFit (lots_run_in tables.old.head.now) tables.old.prices.now
        × BookFit tables.old.head.now tables.old.book.now × SubmissionFit tables.old.head.now e × (lines_length ≤ length tables.old.lines.now) }
    requires rows_fit { RowsFit (members_in tables.old.head.now) (lots_run_in tables.old.head.now) tables.old.lots.now
        × RowsFit (members_in tables.old.head.now) (most_price * lots_run_in tables.old.head.now) tables.old.value.now }
    ensures answer { record { answer = result; after = tables_of tables.new } ≡ submit_spec (tables_of tables.old) e }
    ensures same { SameTables tables.old tables.new }
{
    first_cause(tables.head(), tables.prices(), e)?;
    let count = tables.head[ORDER_COUNT] as usize;
    let o = order_of(tables.head(), e);
    let found = matching::measure(tables.book(), count, o);
    measured_cause(tables.head(), tables.lots(), e, found)?;
    book_submit(tables, e, found.lots)
}
