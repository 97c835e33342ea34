// The number and the range of a field, and what is found of it.
ghost use Rattle.std.specs.Prelude.{◌≡◌, ◌||◌, ◌+◌, ◌-◌, ◌^◌, ◌≤◌, ◌<◌, length};
ghost use Rattle.rules.specs.Days.{saturday, sunday};
ghost use Rattle.rules.specs.Header.{u16_at, u32_at};
ghost use Rattle.rules.specs.Fields.{number_at};
ghost use Rattle.listing_words.specs.Fields.{quantity_of, range as rangeFrom, span_range, holiday_range, range_of, within, day_verdict, verdict_of, passes};
ghost use Rattle.listing.specs.Sizes.{most_bytes};
ghost use Rattle.listing_words.specs.Words.{other_way_round};

use big_endian::u8_or_zero;
use calendar::{DAYS_IN_WEEK, SATURDAY, SUNDAY, is_first_year_sound};
use header::{FIRST_HOLIDAY_BYTE, FIRST_YEAR_BYTE, START_DAY_BYTE};
use listing_words::{Quantity, Range, Verdict};
use months::span_of;
use record_kinds::places::FIRST_FIELD_BYTE;
use record_kinds::width_of;
use rules::Field;
use rules::kinds::{CLOSE_OF_DAY, SUBMIT};
use rules::ranges::{
    LAST_CONTRACT, LAST_ORDER_KIND, LAST_SECOND, LAST_SIDE, LEAST_FIRST_YEAR, LEAST_LEGS,
    MOST_FIRST_YEAR, MOST_HOLIDAYS, MOST_LEGS, MOST_LIMIT, MOST_LOTS, MOST_MEMBERS, MOST_PRICE,
    MOST_RATIO, ORDER_NUMBERS_END,
};

const LAST_ORDER_NUMBER: u64 = ORDER_NUMBERS_END - 1;

// What a header begins with, as LETTERS_AND_VERSION of `header` has it.
const LETTER_V: u64 = b'V' as u64;

const LETTER_J: u64 = b'J' as u64;

const LETTER_R: u64 = b'R' as u64;

const VERSION: u64 = 1;

// A day limits record's low comes after its contract, which takes a byte.
const DAY_LIMITS_LOW_BYTE: usize = FIRST_FIELD_BYTE + 1;

pub fn quantity_of(field: Field) -> Quantity
    ensures { result ≡ quantity_of field }
{
    match field {
        Field::LetterV | Field::LetterJ | Field::LetterR => Quantity::Letter,
        Field::StartDay => Quantity::StartDayNumber,
        Field::Holiday => Quantity::HolidayNumber,
        Field::Kind => Quantity::KindNumber,
        Field::Time => Quantity::Seconds,
        Field::Contract => Quantity::ContractNumber,
        Field::Side => Quantity::SideNumber,
        Field::OrderKind => Quantity::OrderKindNumber,
        Field::Price | Field::Low | Field::High => Quantity::Kurus,
        Field::Version
        | Field::FirstYear
        | Field::Members
        | Field::HolidayCount
        | Field::Limit
        | Field::Member
        | Field::Lots
        | Field::Order
        | Field::Legs
        | Field::Ratio => Quantity::Number,
    }
}

// The number of so many bytes at a place; bytes past the end are 0.
pub fn number_at(bytes: &[u8], place: usize, size: usize) -> u64
    requires { place ≤ most_bytes }
    ensures { (result ≡ number_at bytes.now place size) × (result < 2 ^ 32) }
{
    if size == 1 {
        return u8_or_zero(bytes, place);
    }
    if size == 2 {
        return u16_or_zero(bytes, place);
    }
    u32_or_zero(bytes, place)
}

fn u16_or_zero(bytes: &[u8], place: usize) -> u64
    requires { place ≤ most_bytes + 4 }
    ensures { (result ≡ u16_at bytes.now place) × (result < 65536) }
{
    u8_or_zero(bytes, place) * 256 + u8_or_zero(bytes, place + 1)
}

fn u32_or_zero(bytes: &[u8], place: usize) -> u64
    requires { place ≤ most_bytes }
    ensures { (result ≡ u32_at bytes.now place) × (result < 2 ^ 32) }
{
    u16_or_zero(bytes, place) * 65536 + u16_or_zero(bytes, place + 2)
}

fn range(least: u64, most: u64) -> Range
    ensures { result ≡ rangeFrom least most }
{
    Range { least, most }
}

// The days of the span; none where the first year is out of its range.
fn span_range(first_year: u64) -> Range
    ensures { result ≡ span_range first_year }
{
    if !is_first_year_sound(first_year) {
        return range(1, 0);
    }
    let span = span_of(first_year);
    range(span.start.0, span.end.0 - 1)
}

// The range of a holiday: each is above the one before it.
fn holiday_range(bytes: &[u8], place: usize) -> Range
    requires { place ≤ most_bytes }
    ensures { result ≡ holiday_range bytes.now place }
{
    let span = span_range(u16_or_zero(bytes, FIRST_YEAR_BYTE));
    if place <= FIRST_HOLIDAY_BYTE {
        return span;
    }
    range(u16_or_zero(bytes, place - 2) + 1, span.most)
}

fn last_member(members: u64) -> u64
    ensures { result ≡ members - 1 }
{
    members.saturating_sub(1)
}

pub fn range_of(members: u64, bytes: &[u8], place: usize, field: Field) -> Range
    requires { place ≤ most_bytes }
    ensures { result ≡ range_of members bytes.now place field }
{
    match field {
        Field::LetterV => range(LETTER_V, LETTER_V),
        Field::LetterJ => range(LETTER_J, LETTER_J),
        Field::LetterR => range(LETTER_R, LETTER_R),
        Field::Version => range(VERSION, VERSION),
        Field::FirstYear => range(LEAST_FIRST_YEAR, MOST_FIRST_YEAR),
        Field::StartDay => span_range(u16_or_zero(bytes, FIRST_YEAR_BYTE)),
        Field::Members => range(1, MOST_MEMBERS),
        Field::HolidayCount => range(0, MOST_HOLIDAYS),
        Field::Holiday => holiday_range(bytes, place),
        Field::Limit => range(0, MOST_LIMIT),
        Field::Kind => range(SUBMIT, CLOSE_OF_DAY),
        Field::Time => range(0, LAST_SECOND),
        Field::Member => range(0, last_member(members)),
        Field::Contract => range(0, LAST_CONTRACT),
        Field::Side => range(0, LAST_SIDE),
        Field::OrderKind => range(0, LAST_ORDER_KIND),
        Field::Price => range(1, MOST_PRICE),
        Field::Lots => range(1, MOST_LOTS),
        Field::Order => range(0, LAST_ORDER_NUMBER),
        Field::Low => range(1, MOST_PRICE),
        Field::High => range(u32_or_zero(bytes, DAY_LIMITS_LOW_BYTE), MOST_PRICE),
        Field::Legs => range(LEAST_LEGS, MOST_LEGS),
        Field::Ratio => range(1, MOST_RATIO),
    }
}

pub fn does_pass(verdict: Verdict) -> bool
    ensures { result ≡ passes verdict }
{
    matches!(verdict, Verdict::Passes)
}

pub fn is_within(range: Range, number: u64) -> bool
    ensures { result ≡ within range number }
{
    (range.least <= number) & (number <= range.most)
}

fn is_weekend(day: u64) -> bool
    ensures { result ≡ saturday day || sunday day }
{
    (day % DAYS_IN_WEEK == SATURDAY) | (day % DAYS_IN_WEEK == SUNDAY)
}

fn day_verdict(bytes: &[u8], quantity: Quantity, number: u64) -> Verdict
    ensures { result ≡ day_verdict bytes.now quantity number }
{
    match quantity {
        Quantity::StartDayNumber => {
            if is_weekend(number) {
                Verdict::NoBusinessDay
            } else {
                Verdict::Passes
            }
        }
        Quantity::HolidayNumber => {
            if number == u16_or_zero(bytes, START_DAY_BYTE) {
                Verdict::OnStartDay
            } else {
                Verdict::Passes
            }
        }
        Quantity::Letter
        | Quantity::Number
        | Quantity::KindNumber
        | Quantity::SideNumber
        | Quantity::OrderKindNumber
        | Quantity::Seconds
        | Quantity::ContractNumber
        | Quantity::Kurus => Verdict::Passes,
    }
}

// What is found of a field at a place of the bytes, in a ledger of that many members.
pub fn verdict_of(members: u64, bytes: &[u8], place: usize, field: Field) -> Verdict
    requires { (place ≤ length bytes.now) × (length bytes.now ≤ most_bytes) }
    ensures { result ≡ verdict_of members bytes.now place field }
{
    let size = width_of(field);
    if bytes.len() < place + size {
        return Verdict::Cut;
    }
    let number = number_at(bytes, place, size);
    if is_within(range_of(members, bytes, place, field), number) {
        return day_verdict(bytes, quantity_of(field), number);
    }
    Verdict::OutOfRange
}

// The number whose bytes are the same the other way round.
pub fn other_way_round(size: usize, number: u64) -> u64
    ensures { (result ≡ other_way_round size number) × ((number < 2 ^ 32) → result < 2 ^ 32) }
{
    if size == 1 {
        return number;
    }
    if size == 2 {
        return number % 256 * 256 + number / 256 % 256;
    }
    (number % 256 * 256 + number / 256 % 256) * 65536
        + (number / 65536 % 256 * 256 + number / 16777216 % 256)
}
