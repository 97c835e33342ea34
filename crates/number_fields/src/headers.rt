// A header's bytes to a row of numbers, and a row to a header's bytes.
ghost use Rattle.std.specs.Prelude.{◌≡◌, ◌+◌, ◌≤◌, length, get_or};
ghost use Rattle.arith.specs.Columns.{padded};
ghost use Rattle.arith.specs.Lists.{over};
ghost use Rattle.rules.specs.Ranges.{most_holidays, most_members};
ghost use Rattle.header.specs.Journal.{header_columns};
ghost use Rattle.number_fields.specs.HeaderFields.{header_fields, members_field, holiday_count_field, with_header, numbers_at, header_in, read_header_fields, write_header_fields};

use crate::places::{
    FIRST_YEAR_FIELD, HEADER_FIELDS, HOLIDAY_COUNT_FIELD, HOLIDAYS_FIELD, LIMITS_FIELD,
    MEMBERS_FIELD, START_DAY_FIELD,
};
use header::{JournalHeader, ReadHeader, read_header, write_header};
use rules::ranges::{MOST_HOLIDAYS, MOST_MEMBERS};
use rules::{DayNo, Refusal};

// A list over a part of a row.
fn put_list(row: &mut [u64], at: usize, list: &[u64])
    requires { at + length list.now ≤ length row.old }
    ensures { row.new ≡ over at list.now row.old }
{
    row[at..at + list.len()].copy_from_slice(list);
}

// Each member has a limit, so there are as many members as limits.
fn put_header(row: &mut [u64], first_year: u64, start: DayNo, holidays: &[u64], limits: &[u64])
    requires { (header_fields ≤ length row.old) × (length holidays.now ≤ most_holidays) × (length limits.now ≤ most_members) }
    ensures { row.new
        ≡ with_header (record { first_year = first_year; start_day = start.0; members = length limits.now; holidays = holidays.now; limits = limits.now })
        row.old }
{
    row[FIRST_YEAR_FIELD] = first_year;
    row[START_DAY_FIELD] = start.0;
    row[MEMBERS_FIELD] = limits.len() as u64;
    row[HOLIDAY_COUNT_FIELD] = holidays.len() as u64;
    put_list(row, HOLIDAYS_FIELD, holidays);
    put_list(row, LIMITS_FIELD, limits);
}

// Reads the header that bytes begin with: TableUnsound for a short row before HeaderUnsound, and nothing written on
// either; Ok with the header's length in bytes, where the first record begins.
pub fn read_header_fields(bytes: &[u8], row: &mut [u64]) -> Result<u64, Refusal>
    ensures { record { answer = result; after = row.new } ≡ read_header_fields bytes.now row.old }
{
    if row.len() < HEADER_FIELDS {
        return Err(Refusal::TableUnsound);
    }
    let Some(ReadHeader { length, header }) = read_header(bytes) else {
        return Err(Refusal::HeaderUnsound);
    };
    put_header(
        row,
        header.first_year,
        header.start_day,
        &header.holidays[..header.holiday_count as usize],
        &header.limits[..header.members as usize],
    );
    Ok(length)
}

// So many numbers of a row, and 0 in the places past them.
fn column_in<const PLACES: usize>(row: &[u64], at: usize, count: usize) -> [u64; PLACES]
    requires { (count ≤ PLACES) × (at + count ≤ length row.now) }
    ensures { result ≡ padded PLACES (numbers_at row.now at count) }
{
    let mut column = [0u64; PLACES];
    column[..count].copy_from_slice(&row[at..at + count]);
    column
}

fn header_in(row: &[u64]) -> JournalHeader
    requires { (header_fields ≤ length row.now) × (get_or row.now members_field 0 ≤ most_members) × (get_or row.now holiday_count_field 0 ≤ most_holidays) }
    ensures { result ≡ header_columns (header_in row.now) }
{
    let members = row[MEMBERS_FIELD];
    let holiday_count = row[HOLIDAY_COUNT_FIELD];
    JournalHeader {
        first_year: row[FIRST_YEAR_FIELD],
        start_day: DayNo(row[START_DAY_FIELD]),
        members,
        holiday_count,
        holidays: column_in(row, HOLIDAYS_FIELD, holiday_count as usize),
        limits: column_in(row, LIMITS_FIELD, members as usize),
    }
}

// Writes the header of a row: TableUnsound for a short row, HeaderUnsound, then TableUnsound for a short output, and
// nothing written on any; Ok with the bytes written.
pub fn write_header_fields(row: &[u64], out: &mut [u8]) -> Result<u64, Refusal>
    ensures { record { answer = result; after = out.new } ≡ write_header_fields row.now out.old }
{
    if row.len() < HEADER_FIELDS {
        return Err(Refusal::TableUnsound);
    }
    if MOST_MEMBERS < row[MEMBERS_FIELD] {
        return Err(Refusal::HeaderUnsound);
    }
    if MOST_HOLIDAYS < row[HOLIDAY_COUNT_FIELD] {
        return Err(Refusal::HeaderUnsound);
    }
    write_header(header_in(row), out)
}
