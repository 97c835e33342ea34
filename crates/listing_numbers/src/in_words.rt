// Numbers in words: times, prices and names of contracts.
ghost use Rattle.std.specs.Prelude.{◌∷◌, ◌+◌, ◌^◌, ◌≤◌, ◌<◌, length};
ghost use Rattle.rules.specs.Text.{space};
ghost use Rattle.listing_numbers.specs.Short.{Short};
ghost use Rattle.listing_numbers.specs.Numbers.{two_digits, time_text, price_text, quarter_text, month_text, term_name, contract_text};

use contracts::term_of;
use rules::ContractKind;
use rules::ranges::{MONTHS_IN_YEAR, QUARTERS_IN_YEAR, TERM_COUNT};
use text::{put_byte, put_bytes, put_decimal, put_field};

fn put_two_digits(out: &mut [u8], place: usize, n: u64) -> usize
    requires { place + 2 ≤ length out.old }
    ensures { Short 2 place (two_digits n) out.old out.new result }
{
    let tens = n / 10 % 10;
    let ones = n % 10;
    let next = put_byte(out, place, b'0' + tens as u8);
    put_byte(out, next, b'0' + ones as u8)
}

// A space and hh:mm:ss.
pub fn put_time(out: &mut [u8], place: usize, seconds: u64) -> usize
    requires { place + 9 ≤ length out.old }
    ensures { Short 9 place (space ∷ time_text seconds) out.old out.new result }
{
    let i = put_byte(out, place, b' ');
    let i = put_two_digits(out, i, seconds / 3600);
    let i = put_byte(out, i, b':');
    let i = put_two_digits(out, i, seconds / 60 % 60);
    let i = put_byte(out, i, b':');
    put_two_digits(out, i, seconds % 60)
}

// A space, liras, a point and kuruş.
pub fn put_price(out: &mut [u8], place: usize, kurus: u64) -> usize
    requires { place + 24 ≤ length out.old }
    ensures { Short 24 place (space ∷ price_text kurus) out.old out.new result }
{
    let i = put_field(out, place, kurus / 100);
    let i = put_byte(out, i, b'.');
    put_two_digits(out, i, kurus % 100)
}

fn put_quarter(out: &mut [u8], place: usize, index: u64) -> usize
    requires { place + 3 ≤ length out.old }
    ensures { Short 3 place (quarter_text index) out.old out.new result }
{
    let quarter = 1 + index % QUARTERS_IN_YEAR;
    let i = put_byte(out, place, b' ');
    let i = put_byte(out, i, b'Q');
    put_byte(out, i, b'0' + quarter as u8)
}

fn put_month(out: &mut [u8], place: usize, index: u64) -> usize
    requires { place + 3 ≤ length out.old }
    ensures { Short 3 place (month_text index) out.old out.new result }
{
    let i = put_byte(out, place, b'-');
    put_two_digits(out, i, 1 + index % MONTHS_IN_YEAR)
}

fn put_term(out: &mut [u8], place: usize, first_year: u64, kind: ContractKind, index: u64) -> usize
    requires { (place + 23 ≤ length out.old) × (first_year ≤ 2 ^ 32) × (index ≤ 2 ^ 32) }
    ensures { Short 23 place (term_name first_year kind index) out.old out.new result }
{
    match kind {
        ContractKind::Year => put_decimal(out, place, first_year + index),
        ContractKind::Quarter => {
            let i = put_decimal(out, place, first_year + index / QUARTERS_IN_YEAR);
            put_quarter(out, i, index)
        }
        ContractKind::Month => {
            let i = put_decimal(out, place, first_year + index / MONTHS_IN_YEAR);
            put_month(out, i, index)
        }
    }
}

// A contract's number and, if it has a term, its name in brackets.
pub fn put_contract(out: &mut [u8], place: usize, first_year: u64, contract: u64) -> usize
    requires { (place + 47 ≤ length out.old) × (first_year ≤ 2 ^ 32) × (contract < 2 ^ 32) }
    ensures { Short 47 place (contract_text first_year contract) out.old out.new result }
{
    let i = put_field(out, place, contract);
    if TERM_COUNT <= contract {
        return i;
    }
    let term = term_of(contract);
    let i = put_bytes(out, i, b" (");
    let i = put_term(out, i, first_year, term.kind, term.index);
    put_byte(out, i, b')')
}
