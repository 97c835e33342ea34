// The weights that lots are dealt out by.
ghost use Rattle.std.specs.Prelude.{◌≡◌, List, ◌*◌, ◌≤◌, ◌<◌, ℤ, length};
ghost use Rattle.rules.specs.Ranges.{contract_count, most_members, most_lots_run, most_ratio};
ghost use Rattle.rules.specs.Default.{lots_remaining, weights};
ghost use Rattle.dealing.specs.Levels.{most_weight, MemberColumn};
ghost use Rattle.rules.specs.Ledger.{Tables, with_head, with_rows};
ghost use Rattle.tables.specs.Fit.{HeadFit, RowsFit, members_in};

use close_out_weights::{Part, read_column, weigh_by_days};
use dealing::sum_of;
use rules::CloseOutTerms;

const PER_MILLE: u64 = 1000;

// Weights by days if 1000 L ≥ ratio times the others' lots in the contract; else those lots.
pub fn find_weights(
    head: &[u64],
    lots: &[i64],
    e: CloseOutTerms,
    remaining: u64,
    column: &mut [u64],
)
    requires head_fit { HeadFit head.now × RowsFit (members_in head.now) most_lots_run lots.now × (length column.old ≡ members_in head.now) }
    requires contract_lt_contract_count { (e.contract < contract_count) × (e.ratio ≤ most_ratio) × (remaining ≤ most_members * most_lots_run) }
    ensures column_after { (t : Tables) (v : List ℤ) → lots_remaining (with_head head.now (with_rows lots.now v t)) e.contract ≡ remaining → column.new
        ≡ weights (with_head head.now (with_rows lots.now v t)) e }
    ensures member_column { MemberColumn most_weight column.new }
{
    read_column(Part::Others, head, lots, e.contract, column);
    if PER_MILLE * remaining < e.ratio * sum_of(column) {
        return;
    }
    weigh_by_days(head, lots, column);
}
