// The close-out of a contract: netting among the defaulted, lots dealt out to the others. It is handed tables that are
// long enough and not damaged, and a record that was read.
#![tactic(auto)]

mod booking;
mod defaulted;
mod netting;
mod steps;
mod takers;
mod weights;

ghost use Rattle.std.specs.Prelude.{◌≡◌, true, ◌*◌, ◌≤◌, ◌<◌, length};
ghost use Rattle.rules.specs.Ranges.{contract_count, most_price, most_ratio};
ghost use Rattle.rules.specs.Ledger.{Tables, with_head, with_prices, with_rows, with_lines, is_open, ggf};
ghost use Rattle.rules.specs.Refusals.{close_out_spec};
ghost use Rattle.tables.specs.Fit.{HeadFit, PricesFit, members_in, lots_run_in};
ghost use Rattle.deal_lines.specs.Room.{Bookable};

use dealing::sum_of;
use defaulted::{Netting, find_defaulted};
use rules::layout::{GGF, LOTS_RUN, MEMBERS, PRICE_WIDTH, ROW_WIDTH};
use rules::ranges::MOST_LOTS_RUN;
use rules::{CloseOutTerms, Kurus, Refusal};
use steps::book_steps;
use weights::find_weights;

// The causes that need the lots, then the lines. Netted lots and lots remaining each run twice, given up and taken.
fn close_out_lots(
    head: &mut [u64],
    lots: &mut [i64],
    value: &mut [i64],
    lines: &mut [i64],
    e: CloseOutTerms,
    price: Kurus,
    longs: &mut [u64],
    shorts: &mut [u64],
    weights: &mut [u64],
) -> Result<u64, Refusal>
    requires head_fit { HeadFit head.old × Bookable 0 head.old lots.old value.old lines.old }
    requires contract_lt_contract_count { (e.contract < contract_count) × (e.ratio ≤ most_ratio) × (price.0 ≤ most_price) × (0 < price.0) }
    requires longs_len { (length longs.old ≡ members_in head.old) × (length shorts.old ≡ members_in head.old) × (length weights.old ≡ members_in head.old) }
    ensures { (t : Tables) → is_open (with_head head.old (with_rows lots.old value.old (with_lines lines.old t))) e.contract ≡ true
        → ggf t e.contract ≡ price.0
        → record { answer = result; after = with_head head.new (with_rows lots.new value.new (with_lines lines.new t)) }
        ≡ close_out_spec (with_head head.old (with_rows lots.old value.old (with_lines lines.old t))) e }
{
    let contract = e.contract;
    let Netting { netted, remaining } = find_defaulted(head, lots, contract, longs, shorts);
    if netted + remaining == 0 {
        return Err(Refusal::NoDefaultedLots);
    }
    find_weights(head, lots, e, remaining, weights);
    if (0 < remaining) & (sum_of(weights) == 0) {
        return Err(Refusal::NoTaker);
    }
    if MOST_LOTS_RUN < head[LOTS_RUN] + ((netted + netted) + (remaining + remaining)) {
        return Err(Refusal::TotalPassed);
    }
    let count = book_steps(
        head, lots, value, lines, contract, price, netted, remaining, longs, shorts, weights,
    );
    Ok(count as u64)
}

pub fn apply(
    head: &mut [u64],
    prices: &[u64],
    lots: &mut [i64],
    value: &mut [i64],
    lines: &mut [i64],
    e: CloseOutTerms,
) -> Result<u64, Refusal>
    requires head_fit { HeadFit head.old × Bookable 0 head.old lots.old value.old lines.old × PricesFit (lots_run_in head.old) prices.now }
    requires contract_lt_contract_count { (e.contract < contract_count) × (e.ratio ≤ most_ratio) }
    ensures { (t : Tables) → record {
      answer = result;
      after = with_prices prices.now
          (with_head head.new (with_rows lots.new value.new (with_lines lines.new t)));
    }
        ≡ close_out_spec (with_prices prices.now (with_head head.old (with_rows lots.old value.old (with_lines lines.old t)))) e }
{
    let contract = e.contract;
    if !tables::is_contract_open(head, contract) {
        return Err(Refusal::ContractNotOpen(contract));
    }
    let price = prices[contract as usize * PRICE_WIDTH + GGF];
    if price == 0 {
        return Err(Refusal::NoReferencePrice);
    }
    let members = head[MEMBERS] as usize;
    let mut longs = [0u64; ROW_WIDTH];
    let mut shorts = [0u64; ROW_WIDTH];
    let mut weights = [0u64; ROW_WIDTH];
    close_out_lots(
        head,
        lots,
        value,
        lines,
        e,
        Kurus(price),
        &mut longs[..members],
        &mut shorts[..members],
        &mut weights[..members],
    )
}
