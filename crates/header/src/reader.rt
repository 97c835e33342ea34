// Reading the header of a journal.
ghost use Rattle.std.specs.Prelude.{◌≡◌, ◌+◌, ◌*◌, ◌<◌, ◌≤◌, length, get_or, take, map};
ghost use Rattle.arith.specs.Lists.{from};
ghost use Rattle.big_endian.specs.Width.{Width};
ghost use Rattle.rules.specs.Fields.{number_at};
ghost use Rattle.rules.specs.Ranges.{most_members, most_holidays};
ghost use Rattle.rules.specs.Header.{same_bytes, letters_and_version, header_of, header_length};
ghost use Rattle.rules.specs.Header.{first_year_byte, members_byte, holiday_count_byte, first_holiday_byte};
ghost use Rattle.arith.specs.Columns.{padded};
ghost use Rattle.header.specs.Journal.{header_columns, header_reading};

use crate::journal::{
    FIRST_HOLIDAY_BYTE, FIRST_YEAR_BYTE, HOLIDAY_COUNT_BYTE, HOLIDAY_LENGTH, JournalHeader,
    LETTERS_AND_VERSION, LIMIT_LENGTH, MEMBERS_BYTE, START_DAY_BYTE, header_length,
    is_header_sound,
};
use big_endian::{number_at, u8_at, u16_at};
use rules::DayNo;
use rules::ranges::{MOST_HOLIDAYS, MOST_MEMBERS};

// A header with its length in bytes, which is where the first record begins.
#[derive(Clone, Copy)]
pub struct ReadHeader {
    pub length: u64,
    pub header: JournalHeader,
}

// So many numbers of one width, one after the other, and 0 in the places past them.
fn column_at<const PLACES: usize>(
    bytes: &[u8],
    at: usize,
    width: usize,
    count: usize,
) -> [u64; PLACES]
    requires { Width width × (count ≤ PLACES) × (at + width * count ≤ length bytes.now) }
    ensures { result ≡ padded PLACES (map (λ j. number_at bytes.now (at + width * j) width) (from 0 count)) }
{
    let mut column = [0u64; PLACES];
    for i in 0..count {
        column[i] = number_at(bytes, at + width * i, width);
    }
    column
}

// The fields of a header, in range or not.
fn fields_at(bytes: &[u8], members: u64, holiday_count: u64) -> JournalHeader
    requires first_holiday_byte_in_bounds { (first_holiday_byte ≤ length bytes.now) × (members ≡ get_or bytes.now members_byte 0) × (holiday_count ≡ get_or bytes.now holiday_count_byte 0) }
    requires members_le_most_members { (members ≤ most_members) × (holiday_count ≤ most_holidays) × (header_length bytes.now ≤ length bytes.now) }
    ensures { result ≡ header_columns (header_of bytes.now) }
{
    let n = holiday_count as usize;
    let first_limit_byte = FIRST_HOLIDAY_BYTE + HOLIDAY_LENGTH * n;
    JournalHeader {
        first_year: u16_at(bytes, FIRST_YEAR_BYTE),
        start_day: DayNo(u16_at(bytes, START_DAY_BYTE)),
        members,
        holiday_count,
        holidays: column_at(bytes, FIRST_HOLIDAY_BYTE, HOLIDAY_LENGTH, n),
        limits: column_at(bytes, first_limit_byte, LIMIT_LENGTH, members as usize),
    }
}

fn begins_with_letters(bytes: &[u8]) -> bool
    requires { first_holiday_byte ≤ length bytes.now }
    ensures { result ≡ same_bytes (take first_year_byte bytes.now) letters_and_version }
{
    bytes.starts_with(&LETTERS_AND_VERSION)
}

// The sound header that the bytes begin with; bytes past it are records.
pub fn read_header(bytes: &[u8]) -> Option<ReadHeader>
    ensures { result ≡ header_reading bytes.now }
{
    if bytes.len() < FIRST_HOLIDAY_BYTE || !begins_with_letters(bytes) {
        return None;
    }
    let members = u8_at(bytes, MEMBERS_BYTE);
    let holiday_count = u8_at(bytes, HOLIDAY_COUNT_BYTE);
    if MOST_MEMBERS < members || MOST_HOLIDAYS < holiday_count {
        return None;
    }
    let length = header_length(members, holiday_count);
    if (bytes.len() as u64) < length {
        return None;
    }
    let header = fields_at(bytes, members, holiday_count);
    if !is_header_sound(header) {
        return None;
    }
    Some(ReadHeader { length, header })
}
