// Day limits of a contract. It is handed tables that are long enough and not damaged, and a record that was read.
#![tactic(auto)]

ghost use Rattle.std.specs.Prelude.{◌≡◌, ◌≤◌, ◌<◌, length};
ghost use Rattle.rules.specs.Ranges.{contract_count};
ghost use Rattle.rules.specs.Ledger.{Tables, with_head, with_prices, prices_length};
ghost use Rattle.rules.specs.Refusals.{day_limits_spec};
ghost use Rattle.tables.specs.Fit.{HeadFit};

use rules::layout::{HIGH, LOW, PRICE_WIDTH};
use rules::{NewDayLimits, Refusal};

// Writes low and high; orders already resting stay.
pub fn apply(head: &[u64], prices: &mut [u64], e: NewDayLimits) -> Result<u64, Refusal>
    requires { HeadFit head.now × (prices_length ≤ length prices.old) × (e.contract < contract_count) }
    ensures { (t : Tables) → record { answer = result; after = with_head head.now (with_prices prices.new t) }
        ≡ day_limits_spec (with_head head.now (with_prices prices.old t)) e }
{
    if !tables::is_contract_open(head, e.contract) {
        return Err(Refusal::ContractNotOpen(e.contract));
    }
    let at = e.contract as usize * PRICE_WIDTH;
    prices[at + LOW] = e.low.0;
    prices[at + HIGH] = e.high.0;
    Ok(0)
}
