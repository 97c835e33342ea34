// A deal line booked.
ghost use Rattle.std.specs.Prelude.{◌≡◌, [], ◌∷◌, ◌*◌, ◌+◌, ◌^◌, ◌≤◌, ◌<◌, length, get_or, set, ℤ, pos, nat_abs, ◌+ℤ◌};
ghost use Rattle.arith.specs.Lists.{over};
ghost use Rattle.rules.specs.Ranges.{contract_count, most_members, most_price, most_lots_run, least_lines};
ghost use Rattle.rules.specs.Ledger.{Tables, with_head, with_rows, with_lines, lines_length, line_width, line_places, line_lots, line_value, posted};
ghost use Rattle.rules.specs.Sides.{signed};
ghost use Rattle.tables.specs.Fit.{RowsFit};
ghost use Rattle.deal_lines.specs.Lines.{LineFit, line_of, with_line};
ghost use Rattle.deal_lines.specs.Room.{Bookable};

use rules::layout::{
    LINE_CONTRACT, LINE_LOTS, LINE_MEMBER, LINE_PRICE, LINE_WIDTH, LOTS_RUN, MEMBERS, ROW_WIDTH,
};
use rules::{Kurus, Lots, Side, SignedLots, Value};

// The side says whether the member buys or sells.
#[derive(Clone, Copy)]
pub struct DealLine {
    pub member: u64,
    pub contract: u64,
    pub side: Side,
    pub lots: Lots,
    pub price: Kurus,
}

fn with_sign(side: Side, lots: Lots) -> SignedLots
    requires { lots.0 ≤ most_lots_run }
    ensures { (result.0 ≡ signed side lots.0) × (nat_abs result.0 ≡ lots.0) }
{
    let x = lots.0 as i64;
    match side {
        Side::Buy => SignedLots(x),
        Side::Sell => SignedLots(-x),
    }
}

fn add_to_row(lots: &mut [i64], value: &mut [i64], at: usize, more: SignedLots, more_value: Value)
    requires at_in_bounds { (at < length lots.old) × (nat_abs (get_or lots.old at (pos 0)) + nat_abs more.0 < 2 ^ 63) }
    requires at_in_bounds_2 { (at < length value.old) × (nat_abs (get_or value.old at (pos 0)) + nat_abs more_value.0 < 2 ^ 63) }
    ensures lots_after { lots.new ≡ set lots.old at (get_or lots.old at (pos 0) +ℤ more.0) }
    ensures value_after { value.new ≡ set value.old at (get_or value.old at (pos 0) +ℤ more_value.0) }
{
    lots[at] += more.0;
    value[at] += more_value.0;
}

// The line's signed lots go to the lots, these times its price to the value.
fn post_line(lots: &mut [i64], value: &mut [i64], members: u64, run: u64, line: DealLine)
    requires rows_fit { RowsFit members run lots.old × RowsFit members (most_price * run) value.old }
    requires members_le_most_members { (members ≤ most_members) × (line.member < members) × (line.contract < contract_count) × (line.price.0 ≤ most_price) × (run + line.lots.0 ≤ most_lots_run) }
    ensures lots_after { lots.new ≡ posted line_lots (line_of line ∷ []) lots.old }
    ensures value_after { value.new ≡ posted line_value (line_of line ∷ []) value.old }
{
    let at = line.contract as usize * ROW_WIDTH + line.member as usize;
    let signed_lots = with_sign(line.side, line.lots);
    add_to_row(lots, value, at, signed_lots, signed_lots.times(line.price));
}

// Line i of the line table.
fn print_line(lines: &mut [i64], i: usize, line: DealLine)
    requires member_lt_most_members { (line.member < most_members) × (line.contract < contract_count) × (line.price.0 ≤ most_price) × (line.lots.0 ≤ most_lots_run) }
    requires i_lt_least_lines { (i < least_lines) × (lines_length ≤ length lines.old) }
    ensures { lines.new ≡ over (i * line_width) (line_places (line_of line)) lines.old }
{
    let at = i * LINE_WIDTH;
    lines[at + LINE_MEMBER] = line.member as i64;
    lines[at + LINE_CONTRACT] = line.contract as i64;
    lines[at + LINE_LOTS] = with_sign(line.side, line.lots).0;
    lines[at + LINE_PRICE] = line.price.0 as i64;
}

// One more line of a record, the one after i others.
pub fn book_line(
    head: &mut [u64],
    lots: &mut [i64],
    value: &mut [i64],
    lines: &mut [i64],
    i: usize,
    line: DealLine,
)
    requires bookable { Bookable line.lots.0 head.old lots.old value.old lines.old }
    requires line_fit { LineFit head.old (line_of line) × (i < least_lines) }
    ensures { (t : Tables) → with_head head.new (with_rows lots.new value.new (with_lines lines.new t))
        ≡ with_line i (line_of line) (with_head head.old (with_rows lots.old value.old (with_lines lines.old t))) }
{
    let run = head[LOTS_RUN];
    post_line(lots, value, head[MEMBERS], run, line);
    print_line(lines, i, line);
    head[LOTS_RUN] = run + line.lots.0;
}
