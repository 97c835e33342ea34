// The cascade: a closing year's rows are added to its quarters, a closing quarter's to its months, and set to zero.
ghost use Rattle.std.specs.Prelude.{◌≡◌, cond, ℕ, ◌+◌, ◌*◌, ◌-◌, ◌%◌, ◌^◌, ◌≤◌, ◌<◌, length, get_or, take, drop, map, pos, nat_abs, ◌+ℤ◌};
ghost use mathlib.Core.List.{zip_with};
ghost use Rattle.arith.specs.Lists.{from, over, kept};
ghost use Rattle.rules.specs.Ranges.{contract_count, term_count, contracts_in_year, quarters_in_span, last_quarter, most_members};
ghost use Rattle.rules.specs.OtherForms.{contracts_in};
ghost use Rattle.rules.specs.ContractTerms.{contracts_of};
ghost use Rattle.rules.specs.Ledger.{rows_length, rows_from, row_place};
ghost use Rattle.rules.specs.CloseOfDay.{contract_rows, added_to, zero_rows, cascaded, all_cascaded};
ghost use Rattle.tables.specs.Fit.{RowsFit};
ghost use Rattle.contract_phases.specs.Phases.{is_closing, closes, closing};
ghost use Rattle.cascade.specs.Rows.{most_row};

use contract_phases::{Phase, PhasePlace};
use contracts::{contract_of, contracts_in};
use rules::ContractKind;
use rules::layout::{
    CONTRACTS_IN_YEAR, FIRST_QUARTER, JANUARY, MONTHS_IN_QUARTER, QUARTERS_IN_YEAR, ROW_WIDTH,
};

// The rows from a place on, copied out of the column.
fn rows_from(rows: &[i64], at: usize, members: usize) -> [i64; ROW_WIDTH]
    requires { (members ≤ most_members) × (at + members ≤ length rows.now) }
    ensures { (take members result ≡ take members (drop at rows.now)) × (length result ≡ most_members) }
{
    let mut copied = [0i64; ROW_WIDTH];
    copied[..members].copy_from_slice(&rows[at..at + members]);
    copied
}

fn add_rows(child: &mut [i64], parent: [i64; ROW_WIDTH])
    requires child_len_bound { length child.old ≤ most_members }
    requires by_index { (m : ℕ) → m < length child.old → nat_abs (get_or child.old m (pos 0)) + nat_abs (get_or parent m (pos 0)) < 2 ^ 63 }
    ensures { child.new ≡ zip_with ◌+ℤ◌ child.old parent }
{
    // By index: child and parent have the same places, and the line says no more than that.
    for i in 0..child.len() {
        child[i] += parent[i];
    }
}

// The child contract's rows are lent as a part of the column.
fn add_to_child(rows: &mut [i64], members: usize, child: usize, parent: [i64; ROW_WIDTH])
    requires rows_length_in_bounds { (rows_length ≤ length rows.old) × (members ≤ most_members) × (child < contract_count) }
    requires by_index { (m : ℕ) → m < members → nat_abs (get_or rows.old (row_place child m) (pos 0)) + nat_abs (get_or parent m (pos 0)) < 2 ^ 63 }
    ensures { rows.new ≡ over (rows_from child) (zip_with ◌+ℤ◌ (contract_rows members child rows.old) parent) rows.old }
{
    let at = child * ROW_WIDTH;
    let end = at + members;
    add_rows(&mut rows[at..end], parent);
}

// The children follow each other, after their parent; each is a block of the numbers that a host lends.
fn add_to_children(rows: &mut [i64], members: usize, contract: usize, first: usize, end: usize)
    requires rows_fit { RowsFit members (2 ^ 61) rows.old × (members ≤ most_members) }
    requires contract_lt_first { (contract < first) × (first ≤ end) × (end ≤ contract_count) }
    ensures { rows.new ≡ added_to members contract (from first (end - first)) rows.old }
{
    let at = contract * ROW_WIDTH;
    let parent = rows_from(rows, at, members);
    for child in first..end {
        add_to_child(rows, members, child, parent);
    }
}

fn move_rows(rows: &mut [i64], members: usize, contract: usize, first: usize, end: usize)
    requires rows_fit { RowsFit members (2 ^ 61) rows.old × (members ≤ most_members) }
    requires contract_lt_first { (contract < first) × (first ≤ end) × (end ≤ contract_count) }
    ensures { rows.new ≡ zero_rows members contract (added_to members contract (from first (end - first)) rows.old) }
{
    let at = contract * ROW_WIDTH;
    let after = at + members;
    add_to_children(rows, members, contract, first, end);
    tables::clear_rows(&mut rows[at..after]);
}

// A year's or a quarter's rows go to its children.
fn cascade(rows: &mut [i64], members: usize, contract: usize)
    requires rows_fit { RowsFit members (2 ^ 61) rows.old × (members ≤ most_members) }
    requires contract_lt_term_count { (contract < term_count) × (contract % contracts_in_year ≤ last_quarter) }
    ensures { rows.new ≡ cascaded members contract rows.old }
{
    let k = contract % CONTRACTS_IN_YEAR;
    if k == 0 {
        let first = contract + FIRST_QUARTER;
        move_rows(rows, members, contract, first, first + QUARTERS_IN_YEAR);
        return;
    }
    let january = CONTRACTS_IN_YEAR * (contract / CONTRACTS_IN_YEAR) + JANUARY;
    let first = january + MONTHS_IN_QUARTER * (k - FIRST_QUARTER);
    move_rows(rows, members, contract, first, first + MONTHS_IN_QUARTER);
}

fn cascade_closing(rows: &mut [i64], members: usize, contract: usize, phase: Phase)
    requires rows_fit { RowsFit members (2 ^ 61) rows.old × (members ≤ most_members) }
    requires contract_lt_term_count { (contract < term_count) × (contract % contracts_in_year ≤ last_quarter) }
    ensures { rows.new ≡ cond (is_closing phase) (cascaded members contract rows.old) rows.old }
{
    if phase == Phase::Closing {
        cascade(rows, members, contract);
    }
}

// The closing contracts of a kind that has children. A row grows by one parent's at a time, so none passes 64 bits.
fn cascade_kind<P: PhasePlace>(rows: &mut [i64], column: &[P], members: usize, kind: ContractKind)
    requires rows_fit { RowsFit members (7 * most_row) rows.old × (members ≤ most_members) }
    requires kind_bound { (contracts_in kind ≤ quarters_in_span) × (length column.now ≡ term_count) }
    ensures { rows.new ≡ all_cascaded members (kept (closes (map P.read column.now)) (contracts_of kind)) rows.old }
{
    // By index: the contracts of a kind are no slice, contract_of gives the number of each.
    for i in 0..contracts_in(kind) {
        let contract = contract_of(kind, i) as usize;
        cascade_closing(rows, members, contract, column[contract].to_phase());
    }
}

// The closing years, then the closing quarters; a month's rows stay.
pub fn cascade_all<P: PhasePlace>(rows: &mut [i64], column: &[P], members: usize)
    requires { RowsFit members most_row rows.old × (members ≤ most_members) × (length column.now ≡ term_count) }
    ensures { rows.new ≡ all_cascaded members (closing (map P.read column.now)) rows.old }
{
    cascade_kind(rows, column, members, ContractKind::Year);
    cascade_kind(rows, column, members, ContractKind::Quarter);
}
