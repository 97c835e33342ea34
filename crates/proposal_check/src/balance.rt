// In every hour bought equals sold. The hours of a month lie in the same three contracts, so the 72 months are tried, over
// the sums of each contract and side.
ghost use Rattle.std.specs.Prelude.{◌≡◌, ◌&&◌, ◌+◌, ◌*◌, ◌≤◌, ◌<◌, eqb, length, get_or, replicate};
ghost use Rattle.rules.specs.declared.order.Side.TheVariants.{Buy, Sell};
ghost use Rattle.rules.specs.Ranges.{months_in_span, most_orders, most_lots, most_price};
ghost use Rattle.rules.specs.OtherForms.{year_of, quarter_of, month_of};
ghost use Rattle.proposal_check.specs.Legs.{LegsFit, PlacesFit, ContractsFit, lots_of, value_of, balanced_months};
ghost use Rattle.proposal_check.specs.SidePlaces.{side_places};
ghost use Rattle.proposal_check.specs.Sums.{amount_of, SumsTo, SumsFit, month_sum, balanced_sums};

use crate::side_places::{SIDE_PLACES, SIDES, side_place};
use order_book::order_at;
use rules::Leg;
use rules::ranges::{
    CONTRACTS_IN_YEAR, FIRST_QUARTER, JANUARY, MONTHS_IN_QUARTER, MONTHS_IN_SPAN, MONTHS_IN_YEAR,
};

// What a lot adds to a sum beside its price: more than the values of all legs together, so that sums are equal exactly if
// lots and values both are.
const LOT_UNIT: u64 = 4294967296;

// What a leg adds to a sum.
fn leg_amount(leg: Leg) -> u64
    requires { (leg.lots.0 ≤ most_lots) × (leg.price.0 ≤ most_price) }
    ensures { result ≡ amount_of leg }
{
    leg.lots.0 * LOT_UNIT + leg.lots.times(leg.price).0
}

// Each leg is added to the sum of its contract and side.
fn write_sums(book: &[u64], places: &[usize], legs: &[Leg], sums: &mut [u64])
    requires { PlacesFit most_orders places.now × ContractsFit book.now places.now × LegsFit legs.now × (length places.now ≡ length legs.now) × (sums.old ≡ replicate side_places 0) }
    ensures { SumsTo book.now places.now legs.now (length legs.now) sums.new }
{
    for (i, leg) in legs.iter().enumerate() {
        let at = side_place(order_at(book, places[i]));
        sums[at] += leg_amount(*leg);
    }
}

// The three contracts that hold a month.
#[derive(Clone, Copy)]
struct MonthContracts {
    year: u64,
    quarter: u64,
    month: u64,
}

fn contracts_of(i: u64) -> MonthContracts
    requires { i < months_in_span }
    ensures { (result.year ≡ year_of i) × (result.quarter ≡ quarter_of i) × (result.month ≡ month_of i) }
{
    let first = CONTRACTS_IN_YEAR * (i / MONTHS_IN_YEAR);
    MonthContracts {
        year: first,
        quarter: first + FIRST_QUARTER + i % MONTHS_IN_YEAR / MONTHS_IN_QUARTER,
        month: first + JANUARY + i % MONTHS_IN_YEAR,
    }
}

fn sum_of_three(sums: &[u64], year: usize, quarter: usize, month: usize) -> u64
    requires { SumsFit sums.now × (year < side_places) × (quarter < side_places) × (month < side_places) }
    ensures { result ≡ get_or sums.now year 0 + get_or sums.now quarter 0 + get_or sums.now month 0 }
{
    sums[year] + sums[quarter] + sums[month]
}

// Whether the month's bought sum equals the sold one; a contract's sold sum follows its bought one.
fn is_month_balanced(sums: &[u64], i: u64) -> bool
    requires { SumsFit sums.now × (i < months_in_span) }
    ensures { result ≡ eqb (month_sum sums.now Buy i) (month_sum sums.now Sell i) }
{
    let held = contracts_of(i);
    let year = (held.year * SIDES) as usize;
    let quarter = (held.quarter * SIDES) as usize;
    let month = (held.month * SIDES) as usize;
    sum_of_three(sums, year, quarter, month) == sum_of_three(sums, year + 1, quarter + 1, month + 1)
}

// Whether the bought sum equals the sold one in every month of the six years.
fn are_months_balanced(sums: &[u64]) -> bool
    requires { SumsFit sums.now }
    ensures { result ≡ balanced_sums sums.now }
{
    let mut ok = true;
    for month in 0..MONTHS_IN_SPAN {
        ok &= is_month_balanced(sums, month);
    }
    ok
}

// Whether lots and lots times price are balanced.
pub fn are_both_balanced(book: &[u64], places: &[usize], legs: &[Leg]) -> bool
    requires { PlacesFit most_orders places.now × ContractsFit book.now places.now × LegsFit legs.now × (length places.now ≡ length legs.now) }
    ensures { result ≡ balanced_months book.now places.now lots_of legs.now
        && balanced_months book.now places.now value_of legs.now }
{
    let mut sums = [0u64; SIDE_PLACES];
    write_sums(book, places, legs, &mut sums);
    are_months_balanced(&sums)
}
