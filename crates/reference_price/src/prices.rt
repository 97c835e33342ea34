// The GGF, the reference price, of every open contract.
ghost use Rattle.std.specs.Prelude.{◌≡◌, cond, ◌&&◌, ◌-◌, ◌*◌, ◌≤◌, ◌<◌, ltb, length, map, set};
ghost use Rattle.rules.specs.Ranges.{contract_count, term_count, most_price, most_lots_run};
ghost use Rattle.rules.specs.Ledger.{prices_length, ggf_place};
ghost use Rattle.rules.specs.CloseOfDay.{rounded_half_up, without_deals};
ghost use Rattle.contract_phases.specs.Phases.{is_waiting, open_in, all_open_in};
ghost use Rattle.reference_price.specs.Columns.{DealsFit, ColumnFit, quoted_from, price_from, ggf_from, ggfs_from};

use contract_phases::{Phase, PhasePlace};
use contracts::{contract_of, contracts_in};
use rules::layout::{CONTRACTS, DAY_LOTS, DAY_VALUE, GGF, PRICE_WIDTH};
use rules::{ContractKind, Kurus, Lots, Worth};

// A quotient rounded to the nearest number; halves round up.
fn rounded(n: u64, d: u64) -> u64
    requires { (1 ≤ d) × (d ≤ 8 * most_lots_run) × (n ≤ 8 * (most_price * most_lots_run)) }
    ensures { result ≡ rounded_half_up n d }
{
    (2 * n + d) / (2 * d)
}

// The GGF where fewer lots than the threshold were dealt, from the best buy and the best sell that quote, each 0 where none
// does.
fn quoted_price(lots: Lots, worth: Worth, former: Kurus, buy: Kurus, sell: Kurus) -> Kurus
    requires { (lots.0 ≤ most_lots_run) × (worth.0 ≤ most_price * most_lots_run) × (buy.0 ≤ most_price) × (sell.0 ≤ most_price) }
    ensures { result.0 ≡ quoted_from lots.0 worth.0 former.0 buy.0 sell.0 }
{
    if (buy.0 == 0) | (sell.0 == 0) {
        return former;
    }
    let both = Kurus(buy.0 + sell.0);
    if 0 < lots.0 {
        return Kurus(rounded(6 * worth.0 + lots.times(both).0, 8 * lots.0));
    }
    Kurus(rounded(both.0, 2))
}

fn reference_price(
    threshold: Lots,
    lots: Lots,
    worth: Worth,
    former: Kurus,
    buy: Kurus,
    sell: Kurus,
) -> Kurus
    requires { (1 ≤ threshold.0) × (lots.0 ≤ most_lots_run) × (worth.0 ≤ most_price * most_lots_run) × (buy.0 ≤ most_price) × (sell.0 ≤ most_price) }
    ensures { result.0 ≡ price_from threshold.0 lots.0 worth.0 former.0 buy.0 sell.0 }
{
    if threshold.0 <= lots.0 {
        return Kurus(rounded(worth.0, lots.0));
    }
    quoted_price(lots, worth, former, buy, sell)
}

fn write_ggf(prices: &mut [u64], buys: &[u64], sells: &[u64], contract: usize)
    requires { DealsFit prices.old × ColumnFit buys.now × ColumnFit sells.now × (contract < contract_count) }
    ensures { prices.new ≡ set prices.old (ggf_place contract) (ggf_from buys.now sells.now prices.old contract) }
{
    let at = contract * PRICE_WIDTH;
    let threshold = contracts::kind_of(contract as u64).threshold();
    let ggf = reference_price(
        threshold,
        Lots(prices[at + DAY_LOTS]),
        Worth(prices[at + DAY_VALUE]),
        Kurus(prices[at + GGF]),
        Kurus(buys[contract]),
        Kurus(sells[contract]),
    );
    prices[at + GGF] = ggf.0;
}

// Writes the GGF of a contract that is still to close if more of its kind can be open. The answer is how many more can be then.
fn write_if_open(
    prices: &mut [u64],
    buys: &[u64],
    sells: &[u64],
    contract: usize,
    phase: Phase,
    more: u64,
) -> u64
    requires { DealsFit prices.old × ColumnFit buys.now × ColumnFit sells.now × (contract < contract_count) }
    ensures value { result ≡ cond (is_waiting phase) (more - 1) more }
    ensures prices_after { prices.new
        ≡ cond (is_waiting phase && ltb 0 more)
        (set prices.old (ggf_place contract) (ggf_from buys.now sells.now prices.old contract)) prices.old }
{
    if (phase == Phase::Closed) | (more == 0) {
        return more;
    }
    write_ggf(prices, buys, sells, contract);
    more - 1
}

fn write_kind_ggfs<P: PhasePlace>(
    prices: &mut [u64],
    column: &[P],
    buys: &[u64],
    sells: &[u64],
    kind: ContractKind,
)
    requires { DealsFit prices.old × ColumnFit buys.now × ColumnFit sells.now × (length column.now ≡ term_count) }
    ensures { prices.new ≡ ggfs_from buys.now sells.now (open_in (map P.read column.now) kind) prices.old }
{
    let mut more = kind.open_count();
    // By index: the contracts of a kind are no slice, contract_of gives the number of each.
    for i in 0..contracts_in(kind) {
        let contract = contract_of(kind, i) as usize;
        let phase = column[contract].to_phase();
        more = write_if_open(prices, buys, sells, contract, phase, more);
    }
}

pub fn write_ggfs<P: PhasePlace>(prices: &mut [u64], column: &[P], buys: &[u64], sells: &[u64])
    requires { DealsFit prices.old × ColumnFit buys.now × ColumnFit sells.now × (length column.now ≡ term_count) }
    ensures { prices.new ≡ ggfs_from buys.now sells.now (all_open_in (map P.read column.now)) prices.old }
{
    write_kind_ggfs(prices, column, buys, sells, ContractKind::Year);
    write_kind_ggfs(prices, column, buys, sells, ContractKind::Quarter);
    write_kind_ggfs(prices, column, buys, sells, ContractKind::Month);
}

// M and V of every contract become 0. A host lends the prices as one row of numbers, a block for each contract.
pub fn clear_deals(prices: &mut [u64])
    requires { prices_length ≤ length prices.old }
    ensures { prices.new ≡ without_deals prices.old }
{
    for contract in 0..CONTRACTS {
        let at = contract * PRICE_WIDTH;
        prices[at + DAY_LOTS] = 0;
        prices[at + DAY_VALUE] = 0;
    }
}
