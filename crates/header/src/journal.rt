// The header of a journal, and which are sound.
ghost use Rattle.std.specs.Prelude.{◌≡◌, ◌<◌};
ghost use Rattle.arith.specs.Lists.{every};
ghost use Rattle.rules.specs.Header.{length_of_header, members_sound, limit_sound, header_sound};
ghost use Rattle.header.specs.Journal.{days_sound, header_from};

use rules::DayNo;
use rules::layout::{HOLIDAY_PLACES, MEMBER_PLACES};
use rules::ranges::{MOST_HOLIDAYS, MOST_LIMIT, MOST_MEMBERS};

// The three letters VJR and the 16-bit version, 1.
pub const LETTERS_AND_VERSION: [u8; FIRST_YEAR_BYTE] = *b"VJR\x00\x01";

// Where the other fields of a header stand, in bytes; the limits stand behind the holidays.
pub const FIRST_YEAR_BYTE: usize = 5;

pub const START_DAY_BYTE: usize = 7;

pub const MEMBERS_BYTE: usize = 9;

pub const HOLIDAY_COUNT_BYTE: usize = 10;

pub const FIRST_HOLIDAY_BYTE: usize = 11;

// How many bytes a holiday and a limit take.
pub const HOLIDAY_LENGTH: usize = 2;

pub const LIMIT_LENGTH: usize = 4;

// How many bytes the header of so many members and holidays takes.
pub fn header_length(members: u64, holidays: u64) -> u64
    requires { (members < 256) × (holidays < 256) }
    ensures { result ≡ length_of_header members holidays }
{
    FIRST_HOLIDAY_BYTE as u64 + HOLIDAY_LENGTH as u64 * holidays + LIMIT_LENGTH as u64 * members
}

// The first of the holidays and of the limits count, as many as there are holidays and members; the places past them are surplus.
#[derive(Clone, Copy)]
pub struct JournalHeader {
    pub first_year: u64,
    pub start_day: DayNo,
    pub members: u64,
    pub holiday_count: u64,
    pub holidays: [u64; HOLIDAY_PLACES],
    pub limits: [u64; MEMBER_PLACES],
}

pub fn is_member_count_sound(members: u64) -> bool
    ensures { result ≡ members_sound members }
{
    (1 <= members) & (members <= MOST_MEMBERS)
}

fn are_limits_sound(limits: &[u64]) -> bool
    ensures { result ≡ every limit_sound limits.now }
{
    limits.iter().all(|limit| *limit <= MOST_LIMIT)
}

// The calendar and the start day.
fn are_days_sound(first_year: u64, holidays: &[u64], start_day: DayNo) -> bool
    ensures { result ≡ days_sound (record { first_year = first_year; holidays = holidays.now }) start_day.0 }
{
    if !calendar::is_first_year_sound(first_year) {
        return false;
    }
    let span = months::span_of(first_year);
    calendar::is_calendar_sound(first_year, span, holidays)
        & calendar::is_day_sound(span, holidays, start_day)
}

pub fn is_header_sound(h: JournalHeader) -> bool
    ensures { result ≡ header_sound (header_from h) }
{
    if MOST_HOLIDAYS < h.holiday_count {
        return false;
    }
    if !is_member_count_sound(h.members) {
        return false;
    }
    let holidays = &h.holidays[..h.holiday_count as usize];
    let limits = &h.limits[..h.members as usize];
    are_days_sound(h.first_year, holidays, h.start_day) & are_limits_sound(limits)
}
