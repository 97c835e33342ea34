// Writing the header of a journal.
ghost use Rattle.std.specs.Prelude.{◌≡◌, ◌+◌, ◌*◌, ◌^◌, ◌<◌, ◌≤◌, length, true};
ghost use mathlib.Core.List.{flat_map};
ghost use Rattle.arith.specs.Lists.{All, over};
ghost use Rattle.big_endian.specs.Width.{Width};
ghost use Rattle.rules.specs.Fields.{number_bytes};
ghost use Rattle.rules.specs.Header.{letters_and_version, header_bytes, header_sound, write_header_spec};
ghost use Rattle.rules.specs.Header.{first_year_byte, length_of_header};
ghost use Rattle.header.specs.Journal.{header_from};

use crate::journal::{
    FIRST_HOLIDAY_BYTE, FIRST_YEAR_BYTE, HOLIDAY_COUNT_BYTE, HOLIDAY_LENGTH, JournalHeader,
    LETTERS_AND_VERSION, LIMIT_LENGTH, MEMBERS_BYTE, START_DAY_BYTE, header_length,
    is_header_sound,
};
use big_endian::{put_number, put_u8, put_u16};
use rules::Refusal;

fn put_letters(out: &mut [u8])
    requires { first_year_byte ≤ length out.old }
    ensures { out.new ≡ over 0 letters_and_version out.old }
{
    out[..FIRST_YEAR_BYTE].copy_from_slice(&LETTERS_AND_VERSION);
}

// Numbers of one width, one after the other.
fn put_numbers(out: &mut [u8], at: usize, width: usize, list: &[u64])
    requires room { Width width × (at + width * length list.now ≤ length out.old) }
    requires fit { All (λ n. n < 256 ^ width) list.now }
    ensures { out.new ≡ over at (flat_map (number_bytes width) list.now) out.old }
{
    for (i, number) in list.iter().enumerate() {
        put_number(out, at + width * i, width, *number);
    }
}

fn put_header(out: &mut [u8], h: JournalHeader)
    requires room { length_of_header h.members h.holiday_count ≤ length out.old }
    requires sound { header_sound (header_from h) ≡ true }
    ensures { out.new ≡ over 0 (header_bytes (header_from h)) out.old }
{
    let holidays = &h.holidays[..h.holiday_count as usize];
    let limits = &h.limits[..h.members as usize];
    let first_limit_byte = FIRST_HOLIDAY_BYTE + HOLIDAY_LENGTH * holidays.len();
    put_letters(out);
    put_u16(out, FIRST_YEAR_BYTE, h.first_year);
    put_u16(out, START_DAY_BYTE, h.start_day.0);
    put_u8(out, MEMBERS_BYTE, h.members);
    put_u8(out, HOLIDAY_COUNT_BYTE, h.holiday_count);
    put_numbers(out, FIRST_HOLIDAY_BYTE, HOLIDAY_LENGTH, holidays);
    put_numbers(out, first_limit_byte, LIMIT_LENGTH, limits);
}

// A header: HeaderUnsound before TableUnsound, and nothing written on either; Ok with the bytes written.
pub fn write_header(h: JournalHeader, out: &mut [u8]) -> Result<u64, Refusal>
    ensures { record { answer = result; after = out.new } ≡ write_header_spec (header_from h) out.old }
{
    if !is_header_sound(h) {
        return Err(Refusal::HeaderUnsound);
    }
    let n = header_length(h.members, h.holiday_count);
    if (out.len() as u64) < n {
        return Err(Refusal::TableUnsound);
    }
    put_header(out, h);
    Ok(n)
}
