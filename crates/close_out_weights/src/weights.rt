// Weights by days: the sum over open contracts of days times absolute lots.
ghost use Rattle.std.specs.Prelude.{◌≡◌, cond, List, map, eqb, ℕ, ◌+◌, ◌*◌, ◌≤◌, ◌<◌, ℤ, pos, nat_abs, length, get_or, replicate};
ghost use Rattle.arith.specs.Lists.{from};
ghost use Rattle.rules.specs.Ranges.{contract_count, term_count, most_members, most_lots_run};
ghost use Rattle.dealing.specs.Levels.{most_days};
ghost use Rattle.rules.specs.Ledger.{Tables, with_head, with_rows, marks_from, row_place};
ghost use Rattle.tables.specs.Fit.{HeadFit, RowsFit, members_in};
ghost use Rattle.close_out_weights.specs.Columns.{weight_by, days_weights};

use rules::DayNo;
use rules::layout::{
    DAY, DEFAULT_MARK, FIRST_YEAR, HOLIDAY_COUNT, HOLIDAYS, MARKS, ROW_WIDTH, TERMS,
};

// Days times the absolute lots of each member in one contract, added to its sum.
fn add_contract(lots: &[i64], contract: usize, days: u64, sums: &mut [u64])
    requires contract_lt_contract_count { (contract < contract_count) × (days ≤ most_days) × RowsFit (length sums.old) most_lots_run lots.now × (length sums.old ≤ most_members) }
    requires by_index { (m : ℕ) → get_or sums.old m 0 ≤ contract * (most_days * most_lots_run) }
    ensures { sums.new ≡ map (λ m. get_or sums.old m 0 + days * nat_abs (get_or lots.now (row_place contract m) (pos 0))) (from 0 (length sums.old)) }
{
    let row = contract * ROW_WIDTH;
    for (i, sum) in sums.iter_mut().enumerate() {
        *sum += days * lots[row + i].unsigned_abs();
    }
}

// A contract without days, which is not open, is passed over.
fn add_if_open(lots: &[i64], contract: usize, days: u64, sums: &mut [u64])
    requires contract_lt_contract_count { (contract < contract_count) × (days ≤ most_days) × RowsFit (length sums.old) most_lots_run lots.now × (length sums.old ≤ most_members) }
    requires by_index { (m : ℕ) → get_or sums.old m 0 ≤ contract * (most_days * most_lots_run) }
    ensures { sums.new ≡ map (λ m. get_or sums.old m 0 + days * nat_abs (get_or lots.now (row_place contract m) (pos 0))) (from 0 (length sums.old)) }
{
    if days == 0 {
        return;
    }
    add_contract(lots, contract, days, sums);
}

// Contract after contract, so that the rows of one are read together.
fn add_contracts(lots: &[i64], days: &[u64], sums: &mut [u64])
    requires days_len { (length days.now ≡ term_count) × ((i : ℕ) → get_or days.now i 0 ≤ most_days) }
    requires rows_fit { RowsFit (length sums.old) most_lots_run lots.now × (length sums.old ≤ most_members) × (sums.old ≡ replicate (length sums.old) 0) }
    ensures { sums.new ≡ map (weight_by term_count days.now lots.now) (from 0 (length sums.old)) }
{
    for (contract, days) in days.iter().enumerate() {
        add_if_open(lots, contract, *days, sums);
    }
}

// The weight of each member that is not defaulted.
fn write_weights(head: &[u64], sums: &[u64], weights: &mut [u64])
    requires { HeadFit head.now × (length sums.now ≡ members_in head.now) × (length weights.old ≡ members_in head.now) }
    ensures { weights.new ≡ map (λ m. cond (eqb (get_or head.now (marks_from + m) 0) 1) 0 (get_or sums.now m 0)) (from 0 (members_in head.now)) }
{
    for (i, weight) in weights.iter_mut().enumerate() {
        // A mark is a number of the head that a host lends.
        *weight = if head[MARKS + i] == DEFAULT_MARK {
            0
        } else {
            sums[i]
        };
    }
}

fn weigh(head: &[u64], lots: &[i64], days: &[u64], sums: &mut [u64], weights: &mut [u64])
    requires head_fit { HeadFit head.now × RowsFit (members_in head.now) most_lots_run lots.now × (length weights.old ≡ members_in head.now) × (sums.old ≡ replicate (members_in head.now) 0) }
    requires days_len { (length days.now ≡ term_count) × ((i : ℕ) → get_or days.now i 0 ≤ most_days) }
    ensures { weights.new
        ≡ map (λ m. cond (eqb (get_or head.now (marks_from + m) 0) 1) 0 (weight_by term_count days.now lots.now m)) (from 0 (members_in head.now)) }
{
    add_contracts(lots, days, sums);
    write_weights(head, sums, weights);
}

pub fn weigh_by_days(head: &[u64], lots: &[i64], weights: &mut [u64])
    requires { HeadFit head.now × RowsFit (members_in head.now) most_lots_run lots.now × (length weights.old ≡ members_in head.now) }
    ensures { (t : Tables) (v : List ℤ) → weights.new ≡ days_weights (with_head head.now (with_rows lots.now v t)) }
{
    let members = weights.len();
    let mut days = [0u64; TERMS];
    let mut sums = [0u64; ROW_WIDTH];
    let end = HOLIDAYS + head[HOLIDAY_COUNT] as usize;
    open_days::find_open_days(
        head[FIRST_YEAR],
        &head[HOLIDAYS..end],
        DayNo(head[DAY]),
        &mut days,
    );
    weigh(head, lots, &days, &mut sums[..members], weights);
}
