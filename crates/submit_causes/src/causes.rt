// Why a submit is turned back, known before anything is written.
ghost use Rattle.std.specs.Prelude.{◌≡◌, ◌||◌, ◌*◌, ◌≤◌, ◌<◌, ltb, length, get_or};
ghost use Rattle.rules.specs.Answers.{Outcome, decide};
ghost use Rattle.rules.specs.Ranges.{contract_count, most_members, most_lots, most_orders};
ghost use Rattle.rules.specs.Ledger.{Tables, with_head, with_prices, with_rows, head_length, prices_length, low_place, high_place};
ghost use Rattle.rules.specs.Matching.{is_teye, is_resting, submits_at};
ghost use Rattle.tables.specs.Fit.{HeadFit, RowsFit, members_in, lots_run_in};
ghost use Rattle.submit_causes.specs.Fit.{SubmissionFit};
ghost use Rattle.submit_causes.specs.Causes.{outcome, first_causes, measured_causes};

use crate::position::{is_above, position};
use matching::Crossing;
use rules::layout::{
    ACCEPTED_SUBMITS, DEFAULT_MARK, HIGH, LIMITS, LOTS_RUN, LOW, MARKS, ORDER_COUNT, PRICE_WIDTH,
    SUBMITS, TIME,
};
use rules::ranges::{MOST_ACCEPTED_SUBMITS, MOST_LOTS_RUN, MOST_ORDERS, MOST_SUBMITS_IN_SECOND};
use rules::{Kurus, Lots, OrderKind, Refusal, Submission};

fn is_teye(kind: OrderKind) -> bool
    ensures { result ≡ is_teye kind }
{
    kind == OrderKind::Teye
}

pub fn is_resting(kind: OrderKind) -> bool
    ensures { result ≡ is_resting kind }
{
    kind == OrderKind::Resting
}

fn is_price_outside(prices: &[u64], contract: u64, price: Kurus) -> bool
    requires { (prices_length ≤ length prices.now) × (contract < contract_count) }
    ensures { result ≡ ltb price.0 (get_or prices.now (low_place contract) 0) || ltb (get_or prices.now (high_place contract) 0) price.0 }
{
    let at = contract as usize * PRICE_WIDTH;
    (price.0 < prices[at + LOW]) | (prices[at + HIGH] < price.0)
}

// The member's accepted submits that bear this time; in a later second it has none yet.
fn submits_at(head: &[u64], time: u64, member: u64) -> u64
    requires { (head_length ≤ length head.now) × (member < most_members) }
    ensures { (t : Tables) → result ≡ submits_at (with_head head.now t) time member }
{
    if head[TIME] < time {
        return 0;
    }
    head[SUBMITS + member as usize]
}

// The first that holds of the causes that follow from head and prices.
pub fn first_cause(head: &[u64], prices: &[u64], e: Submission) -> Result<(), Refusal>
    requires { HeadFit head.now × (prices_length ≤ length prices.now) × SubmissionFit head.now e }
    ensures { (t : Tables) (b : Outcome Tables) → outcome result (with_head head.now (with_prices prices.now t)) b
        ≡ decide (first_causes (with_head head.now (with_prices prices.now t)) e) (with_head head.now (with_prices prices.now t)) b }
{
    if e.time < head[TIME] {
        return Err(Refusal::TimeBelowLedger);
    }
    // A mark is a number of the head that a host lends.
    if head[MARKS + e.member as usize] == DEFAULT_MARK {
        return Err(Refusal::MemberDefaulted(e.member));
    }
    if !tables::is_contract_open(head, e.contract) {
        return Err(Refusal::ContractNotOpen(e.contract));
    }
    if is_price_outside(prices, e.contract, e.price) {
        return Err(Refusal::PriceOutsideLimits);
    }
    if MOST_SUBMITS_IN_SECOND <= submits_at(head, e.time, e.member) {
        return Err(Refusal::SixthSubmit);
    }
    Ok(())
}

// The first that holds of the causes that need the book: the member's own lots there and the lots that cross.
pub fn measured_cause(
    head: &[u64],
    lots: &[i64],
    e: Submission,
    found: Crossing,
) -> Result<(), Refusal>
    requires head_fit { HeadFit head.now × RowsFit (members_in head.now) (lots_run_in head.now) lots.now × SubmissionFit head.now e }
    requires own_bound { found.own.0 ≤ most_orders * most_lots }
    ensures { (t : Tables) (b : Outcome Tables) → outcome result (with_head head.now (with_rows lots.now t.value t)) b
        ≡ decide (measured_causes found.own.0 found.lots.0 (with_head head.now (with_rows lots.now t.value t)) e)
        (with_head head.now (with_rows lots.now t.value t)) b }
{
    let wanted = e.lots.0;
    let crossing = found.lots.0;
    let limit = Lots(head[LIMITS + e.member as usize]);
    if is_above(
        limit,
        position(lots, e.contract, e.member, e.side),
        Lots(found.own.0 + wanted),
    ) {
        return Err(Refusal::AboveLimit);
    }
    if is_teye(e.kind) & (crossing < wanted) {
        return Err(Refusal::CannotMatchInFull);
    }
    if is_resting(e.kind) & ((crossing == 0) & (MOST_ORDERS <= head[ORDER_COUNT])) {
        return Err(Refusal::BookFull);
    }
    let run = head[LOTS_RUN] + 2 * wanted.min(crossing);
    if (MOST_LOTS_RUN < run) | (MOST_ACCEPTED_SUBMITS <= head[ACCEPTED_SUBMITS]) {
        return Err(Refusal::TotalPassed);
    }
    Ok(())
}
