// The deals of a submit: their worth, and the two lines of each.
ghost use Rattle.std.specs.Prelude.{◌≡◌, ℕ, ◌+◌, ◌*◌, ◌≤◌, ◌<◌};
ghost use mathlib.Core.List.{flat_map};
ghost use Rattle.arith.specs.Lists.{total};
ghost use Rattle.rules.specs.Ranges.{contract_count, most_lots, most_price};
ghost use Rattle.rules.specs.Ledger.{booked};
ghost use Rattle.tables.specs.Fit.{members_in};
ghost use Rattle.tables.specs.Lent.{tables_of, SameTables};
ghost use Rattle.matching.specs.Deals.{deal_at, deals_in, line_in, line_out, lines_with};
ghost use Rattle.deal_lines.specs.Lines.{LineFit, with_line};
ghost use Rattle.deal_lines.specs.Room.{Bookable};
ghost use Rattle.submit.specs.Deals.{DealColumnFit, lots_dealt, worth_of};

use deal_lines::{DealLine, book_line};
use matching::{Counterparty, deal_at};
use rules::{Order, Worth};
use sides::other_side;
use tables::LentTables;

// Lots times price over all deals.
pub fn worth_of(deals: &[u64], count: usize) -> Worth
    requires { DealColumnFit count deals.now }
    ensures { (result.0 ≡ total worth_of (deals_in count deals.now)) × (result.0 ≤ most_lots * (most_lots * most_price)) }
{
    let mut worth: u64 = 0;
    for k in 0..count {
        let d = deal_at(deals, k);
        worth += d.lots.times(d.price).0;
    }
    Worth(worth)
}

// The incoming member's line, then the resting member's.
fn book_deal(tables: &mut LentTables<'_>, k: usize, o: Order, d: Counterparty)
    requires bookable { Bookable (2 * d.lots.0) tables.old.head.now tables.old.lots.now tables.old.value.now tables.old.lines.now × (k < most_lots) }
    requires line_fit { LineFit tables.old.head.now (line_in o d) × LineFit tables.old.head.now (line_out o d) }
    ensures booked { tables_of tables.new ≡ with_line (k * 2 + 1) (line_out o d) (with_line (k * 2) (line_in o d) (tables_of tables.old)) }
    ensures same { SameTables tables.old tables.new }
{
    let incoming = DealLine {
        member: o.member,
        contract: o.contract,
        side: o.side,
        lots: d.lots,
        price: d.price,
    };
    let resting = DealLine {
        member: d.member,
        side: other_side(o.side),
        ..incoming
    };
    book_line(
        tables.head,
        tables.lots,
        tables.value,
        tables.lines,
        k * 2,
        incoming,
    );
    book_line(
        tables.head,
        tables.lots,
        tables.value,
        tables.lines,
        k * 2 + 1,
        resting,
    );
}

// Both lines of every deal, in the order of the deals.
pub fn book_deals(tables: &mut LentTables<'_>, o: Order, deals: &[u64], count: usize)
    requires bookable { Bookable (2 * total lots_dealt (deals_in count deals.now)) tables.old.head.now tables.old.lots.now tables.old.value.now tables.old.lines.now
        × DealColumnFit count deals.now }
    requires member_bound { (o.member < members_in tables.old.head.now) × (o.contract < contract_count)
        × ((j : ℕ) → j < count → (deal_at deals.now j).member < members_in tables.old.head.now) }
    ensures booked { tables_of tables.new ≡ (booked (flat_map (lines_with o) (deals_in count deals.now)) (tables_of tables.old)).after }
    ensures same { SameTables tables.old tables.new }
{
    for k in 0..count {
        book_deal(tables, k, o, deal_at(deals, k));
    }
}
