// An accepted submit is booked.
ghost use Rattle.std.specs.Prelude.{◌≡◌, ◌+◌, ◌*◌, ◌≤◌, ◌<◌, length, get_or};
ghost use Rattle.rules.specs.Ranges.{most_members, most_price, most_submits_in_second, most_accepted_submits};
ghost use Rattle.rules.specs.Ledger.{Tables, with_head, with_accepted_submits, with_submits_this_second, submits_from, head_length, lines_length};
ghost use Rattle.rules.specs.Matching.{incoming, submit_booked};
ghost use Rattle.tables.specs.Fit.{HeadFit, PricesFit, RowsFit, BookFit, members_in, accepted_in, lots_run_in};
ghost use Rattle.tables.specs.Lent.{tables_of, SameTables};
ghost use Rattle.submit_causes.specs.Fit.{SubmissionFit, Acceptable};

use crate::placing::place_order;
use rules::layout::{ACCEPTED_SUBMITS, DAY, SUBMITS};
use rules::{DayNo, Lots, Order, Refusal, Submission};
use tables::LentTables;

// The order that comes in; its number is the accepted submits before it.
pub fn order_of(head: &[u64], e: Submission) -> Order
    requires { head_length ≤ length head.now }
    ensures { (t : Tables) → result ≡ incoming (with_head head.now t) e }
{
    Order {
        number: head[ACCEPTED_SUBMITS],
        member: e.member,
        contract: e.contract,
        side: e.side,
        price: e.price,
        lots: e.lots,
        day: DayNo(head[DAY]),
        time: e.time,
    }
}

// One more accepted submit, and one more of the member in the present second.
fn count_submit(head: &mut [u64], member: u64)
    requires { (head_length ≤ length head.old) × (member < most_members) × (get_or head.old (submits_from + member) 0 ≤ most_submits_in_second) × (accepted_in head.old ≤ most_accepted_submits) }
    ensures { head.new
        ≡ with_accepted_submits (accepted_in head.old + 1) (with_submits_this_second member (get_or head.old (submits_from + member) 0 + 1) head.old) }
{
    head[SUBMITS + member as usize] += 1;
    head[ACCEPTED_SUBMITS] += 1;
}

// The tables after an accepted submit, step by step as the rules have them.
pub fn book_submit(
    tables: &mut LentTables<'_>,
    e: Submission,
    crossing: Lots,
) -> Result<u64, Refusal>
    requires head_fit { HeadFit tables.old.head.now × PricesFit (lots_run_in tables.old.head.now) tables.old.prices.now
        × BookFit tables.old.head.now tables.old.book.now × SubmissionFit tables.old.head.now e × (lines_length ≤ length tables.old.lines.now) }
    requires rows_fit { RowsFit (members_in tables.old.head.now) (lots_run_in tables.old.head.now) tables.old.lots.now
        × RowsFit (members_in tables.old.head.now) (most_price * lots_run_in tables.old.head.now) tables.old.value.now }
    requires acceptable { Acceptable (tables_of tables.old) e crossing.0 }
    ensures answer { record { answer = result; after = tables_of tables.new } ≡ submit_booked (tables_of tables.old) e }
    ensures same { SameTables tables.old tables.new }
{
    let o = order_of(tables.head(), e);
    tables::set_time(tables.head, e.time);
    count_submit(tables.head, e.member);
    place_order(tables, e.kind, o, crossing)
}
