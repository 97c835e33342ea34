// What the defaulted hold of a contract.
ghost use Rattle.std.specs.Prelude.{◌≡◌, ◌*◌, ◌≤◌, ◌<◌, length};
ghost use Rattle.rules.specs.Ranges.{contract_count, most_members, most_lots_run};
ghost use Rattle.tables.specs.Fit.{HeadFit, RowsFit, members_in};
ghost use Rattle.close_out.specs.Booking.{Defaulted};

use close_out_weights::{Part, read_column};
use dealing::sum_of;

// Lots netted among the defaulted, and L, the lots that remain on one side.
#[derive(Clone, Copy)]
pub struct Netting {
    pub netted: u64,
    pub remaining: u64,
}

// Finds the longs and shorts of the defaulted, by member; the lots netted are the smaller total.
pub fn find_defaulted(
    head: &[u64],
    lots: &[i64],
    contract: u64,
    longs: &mut [u64],
    shorts: &mut [u64],
) -> Netting
    requires head_fit { HeadFit head.now × RowsFit (members_in head.now) most_lots_run lots.now × (contract < contract_count) }
    requires longs_len { (length longs.old ≡ members_in head.now) × (length shorts.old ≡ members_in head.now) }
    ensures found { Defaulted head.now lots.now contract result.netted result.remaining longs.new shorts.new }
    ensures most { (result.netted ≤ most_members * most_lots_run) × (result.remaining ≤ most_members * most_lots_run) }
{
    read_column(Part::DefaultedLongs, head, lots, contract, longs);
    read_column(Part::DefaultedShorts, head, lots, contract, shorts);
    let long = sum_of(longs);
    let short = sum_of(shorts);
    Netting {
        netted: long.min(short),
        remaining: long.abs_diff(short),
    }
}
