// The orders of all closing contracts leave the book at once.
ghost use Rattle.std.specs.Prelude.{◌≡◌, not, ◌≤◌, length, get_or};
ghost use Rattle.arith.specs.Lists.{kept};
ghost use Rattle.rules.specs.Ledger.{Tables, with_head, with_book, head_length, with_orders};
ghost use Rattle.tables.specs.Fit.{order_count_in, orders_in};
ghost use Rattle.contract_phases.specs.Phases.{closes};
ghost use Rattle.reference_price.specs.Columns.{BookReads};

use contract_phases::Phase;
use rules::Order;

// A contract without a term has no place in the column and never closes.
fn phase_at(column: &[Phase], contract: usize) -> Phase
    ensures { result ≡ get_or column.now contract Phase.Closed }
{
    column.get(contract).copied().unwrap_or(Phase::Closed)
}

fn does_close(column: &[Phase], o: Order) -> bool
    ensures { result ≡ closes column.now o.contract }
{
    phase_at(column, o.contract as usize) == Phase::Closing
}

pub fn remove_closing(head: &mut [u64], book: &mut [u64], column: &[Phase])
    requires { (head_length ≤ length head.old) × BookReads (order_count_in head.old) book.old }
    ensures { (t : Tables) → with_head head.new (with_book book.new t)
        ≡ with_orders (kept (λ o. not (closes column.now o.contract)) (orders_in (order_count_in head.old) book.old))
        (with_head head.old (with_book book.old t)) }
{
    order_book::remove_where(head, book, |o| does_close(column, o));
}
