// Columns of a contract's lots, one number for each member.
ghost use Rattle.std.specs.Prelude.{◌≡◌, List, ◌≤◌, ◌<◌, ℤ, length, get_or};
ghost use Rattle.arith.specs.Ints.{up, dn};
ghost use Rattle.rules.specs.Ledger.{Tables, members_place, with_head, with_rows, head_length, rows_length};
ghost use Rattle.rules.specs.Ranges.{contract_count, most_members};
ghost use Rattle.close_out_weights.specs.Columns.{lots_in, column_of};

use rules::layout::{DEFAULT_MARK, MARKS, ROW_WIDTH};

#[derive(Clone, Copy)]
pub enum Part {
    DefaultedLongs,
    DefaultedShorts,
    Others,
}

fn long_lots(net: i64) -> u64
    ensures { result ≡ up net }
{
    net.max(0).unsigned_abs()
}

fn short_lots(net: i64) -> u64
    ensures { result ≡ dn net }
{
    net.min(0).unsigned_abs()
}

fn lots_in(part: Part, marked: bool, net: i64) -> u64
    ensures { result ≡ lots_in part marked net }
{
    match part {
        Part::DefaultedLongs => if marked { long_lots(net) } else { 0 },
        Part::DefaultedShorts => if marked { short_lots(net) } else { 0 },
        Part::Others => if marked { 0 } else { net.unsigned_abs() },
    }
}

// One part of a contract's lots, by member.
pub fn read_column(part: Part, head: &[u64], lots: &[i64], contract: u64, column: &mut [u64])
    requires head_length_in_bounds { (head_length ≤ length head.now) × (rows_length ≤ length lots.now) × (contract < contract_count) }
    requires column_len { (length column.old ≡ get_or head.now members_place 0) × (length column.old ≤ most_members) }
    ensures { (t : Tables) (v : List ℤ) → column.new ≡ column_of part (with_head head.now (with_rows lots.now v t)) contract }
{
    let row = contract as usize * ROW_WIDTH;
    for (i, place) in column.iter_mut().enumerate() {
        // A mark is a number of the head that a host lends.
        let marked = head[MARKS + i] == DEFAULT_MARK;
        *place = lots_in(part, marked, lots[row + i]);
    }
}
