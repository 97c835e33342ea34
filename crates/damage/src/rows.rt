// The rows: net lots and value by contract and member. A host lends them as one row of numbers, a block for each
// contract, so the loops over contracts go by index.
ghost use Rattle.std.specs.Prelude.{◌≡◌, ℕ, ◌+◌, ◌*◌, ◌/◌, ◌%◌, ◌^◌, ◌<◌, ◌≤◌, ◌&&◌, leb, length, nat_le, nat_lt, unsigned_abs};
ghost use Rattle.arith.specs.Bits.{bits_of, in_window};
ghost use Rattle.arith.specs.Lists.{every};
ghost use Rattle.rules.specs.Ranges.{most_members, most_price, most_lots_run};
ghost use Rattle.rules.specs.Ledger.{rows_length};
ghost use Rattle.rules.specs.Refusals.{every_row};
ghost use Rattle.damage.specs.Windows.{every_column, IsHalf, IsWidth};

use rules::layout;

// Whether each is within the bound in absolute size. The flag keeps branches out of the loop.
fn are_within(rows: &[i64], bound: u64) -> bool
    ensures { result ≡ every (λ z. leb (unsigned_abs z) bound) rows.now }
{
    let mut ok = true;
    for x in rows {
        ok &= x.unsigned_abs() <= bound;
    }
    ok
}

// Whether each row is within the bound, by comparing it with the bound itself.
fn is_each_within(rows: &[i64], n: usize, bound: u64) -> bool
    requires { (rows_length ≤ length rows.now) × (n ≤ most_members) }
    ensures { result ≡ every_row (λ z. leb (unsigned_abs z) bound) n rows.now }
{
    let mut ok = true;
    for contract in 0..layout::CONTRACTS {
        let at = contract * layout::ROW_WIDTH;
        ok &= are_within(&rows[at..at + n], bound);
    }
    ok
}

// x with half a window's width added: below the width exactly if x is in the window.
fn raised(x: i64, half: u64) -> u64
    ensures { result ≡ (bits_of x + half) % 2 ^ 64 }
{
    x.cast_unsigned().wrapping_add(half)
}

// The bitwise or of all rows, half a width added to each: below a power of two exactly if each is. No test stands in the loop,
// so the compiler takes several places at once.
fn or_of(rows: &[i64], half: u64) -> u64
    ensures { (k : ℕ) → IsHalf half k → nat_lt result (2 ^ k) ≡ every (in_window (2 ^ k)) rows.now }
{
    let mut seen: u64 = 0;
    for x in rows {
        seen |= raised(*x, half);
    }
    seen
}

// The same for one member's place in every row.
fn or_of_column(rows: &[i64], member: usize, half: u64) -> u64
    requires { (rows_length ≤ length rows.now) × (member < most_members) }
    ensures { (k : ℕ) → IsHalf half k → nat_lt result (2 ^ k) ≡ every_column (in_window (2 ^ k)) member rows.now }
{
    let mut seen: u64 = 0;
    for contract in 0..layout::CONTRACTS {
        seen |= raised(rows[contract * layout::ROW_WIDTH + member], half);
    }
    seen
}

// The same for the places of two members side by side, which the compiler takes at once.
fn or_of_pair(rows: &[i64], member: usize, half: u64) -> u64
    requires { (rows_length ≤ length rows.now) × (member + 1 < most_members) }
    ensures { (k : ℕ) → IsHalf half k → nat_lt result (2 ^ k) ≡ every_column (in_window (2 ^ k)) member rows.now && every_column (in_window (2 ^ k)) (member + 1) rows.now }
{
    let mut seen: u64 = 0;
    for contract in 0..layout::CONTRACTS {
        let at = contract * layout::ROW_WIDTH + member;
        seen |= raised(rows[at], half);
        seen |= raised(rows[at + 1], half);
    }
    seen
}

fn or_of_columns(rows: &[i64], n: usize, half: u64) -> u64
    requires { (rows_length ≤ length rows.now) × (n ≤ most_members) }
    ensures { (k : ℕ) → IsHalf half k → nat_lt result (2 ^ k) ≡ every_row (in_window (2 ^ k)) n rows.now }
{
    let mut seen: u64 = 0;
    for pair in 0..n / 2 {
        seen |= or_of_pair(rows, 2 * pair, half);
    }
    if n % 2 == 1 {
        seen |= or_of_column(rows, n - 1, half);
    }
    seen
}

// Whether every row is in a window around 0. Where every place is a member's, one loop goes over all.
fn are_near(rows: &[i64], n: usize, width: u64) -> bool
    requires { (rows_length ≤ length rows.now) × (n ≤ most_members) }
    ensures { (k : ℕ) → IsWidth width k → result ≡ every_row (in_window width) n rows.now }
{
    let half = width / 2;
    if n == layout::ROW_WIDTH {
        return or_of(&rows[..layout::ROWS_LENGTH], half) < width;
    }
    or_of_columns(rows, n, half) < width
}

// The widest window of a power of two that lies within the bound.
fn width_within(bound: u64) -> u64
    requires { bound ≤ most_price * most_lots_run }
    ensures { (k : ℕ) × IsWidth result k × (result ≤ 2 * bound + 1) }
{
    1 << (64 - u64::leading_zeros(bound))
}

// Whether no row of a member passes the bound in absolute size. What deals booked is in the window: of each deal's lots
// a row has one half of what the lots run has.
pub fn are_rows_within(rows: &[i64], members: u64, bound: u64) -> bool
    requires { (rows_length ≤ length rows.now) × (members ≤ most_members) × (bound ≤ most_price * most_lots_run) }
    ensures { result ≡ every_row (λ z. leb (unsigned_abs z) bound) members rows.now }
{
    let n = members as usize;
    let width = width_within(bound);
    if are_near(rows, n, width) {
        return true;
    }
    is_each_within(rows, n, bound)
}
