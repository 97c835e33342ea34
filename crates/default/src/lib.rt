// The default of a member. It is handed tables that are long enough and not damaged, and a record that was read.
#![tactic(auto)]

ghost use Rattle.std.specs.Prelude.{◌≡◌, ◌<◌};
ghost use Rattle.rules.specs.Ledger.{Tables, with_head, with_book};
ghost use Rattle.rules.specs.Refusals.{default_spec};
ghost use Rattle.tables.specs.Fit.{HeadFit, BookFit, members_in};

use order_book::Leaving;
use rules::Refusal;
use rules::layout::{DEFAULT_MARK, MARKS};

// The member is marked and its orders leave the book.
pub fn apply(head: &mut [u64], book: &mut [u64], member: u64) -> Result<u64, Refusal>
    requires { HeadFit head.old × BookFit head.old book.old × (member < members_in head.old) }
    ensures { (t : Tables) → record { answer = result; after = with_head head.new (with_book book.new t) }
        ≡ default_spec (with_head head.old (with_book book.old t)) member }
{
    let at = MARKS + member as usize;
    // A mark is a number of the head that a host lends.
    if head[at] == DEFAULT_MARK {
        return Err(Refusal::MemberDefaulted(member));
    }
    head[at] = DEFAULT_MARK;
    order_book::remove_orders(head, book, Leaving::OfMember(member));
    Ok(0)
}
