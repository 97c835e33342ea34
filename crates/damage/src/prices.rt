// The prices: five places for each contract.
ghost use Rattle.std.specs.Prelude.{◌≡◌, ◌≤◌, length};
ghost use Rattle.arith.specs.Lists.{every_block};
ghost use Rattle.rules.specs.Ranges.{contract_count, most_lots_run};
ghost use Rattle.rules.specs.Ledger.{price_width, prices_length};
ghost use Rattle.rules.specs.Refusals.{contract_prices_sound};

use crate::between::is_between;
use rules::{layout, ranges};

// Whether a contract's five numbers are sound. A number is tested before it limits another: no sum or product passes 64 bits.
fn is_contract_sound(prices: &[u64], run: u64) -> bool
    requires { (length prices.now ≡ price_width) × (run ≤ most_lots_run) }
    ensures { result ≡ contract_prices_sound run prices.now }
{
    if ranges::MOST_PRICE < prices[layout::GGF] {
        return false;
    }
    let high = prices[layout::HIGH];
    if ranges::MOST_PRICE < high {
        return false;
    }
    if !is_between(prices[layout::LOW], 1, high + 1) {
        return false;
    }
    let lots = prices[layout::DAY_LOTS];
    if run < lots {
        return false;
    }
    is_between(
        prices[layout::DAY_VALUE],
        lots,
        ranges::MOST_PRICE * lots + 1,
    )
}

pub fn are_prices_sound(prices: &[u64], run: u64) -> bool
    requires { (prices_length ≤ length prices.now) × (run ≤ most_lots_run) }
    ensures { result ≡ every_block price_width (contract_prices_sound run) contract_count prices.now }
{
    // By index: a host lends the prices as one row of numbers, a block for each contract.
    for contract in 0..layout::CONTRACTS {
        let at = contract * layout::PRICE_WIDTH;
        if !is_contract_sound(&prices[at..at + layout::PRICE_WIDTH], run) {
            return false;
        }
    }
    true
}
