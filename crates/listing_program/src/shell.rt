// The program's turns: the next record is listed, or bytes are read, or lines are written. No contract can say what a read brought
// or a write took. The promises say what each turn lists of the bytes that came, whichever these are, and how the listing ends.
ghost use Rattle.std.specs.Prelude.{◌≡◌, Bool, List, ℕ, ◌+◌, ◌≤◌, ◌<◌, length, take, drop};
ghost use Rattle.listing.specs.Sizes.{line_room};
ghost use Rattle.streams.specs.declared.ending.Ending.{Ending};
ghost use Rattle.streams.specs.Windows.{Within, held, status_of};
ghost use Rattle.listing_program.specs.Places.{input_length, output_length, most_turns, most_in_two_bytes, LedgerOf, Stands, next_stands, moved_within};
ghost use Rattle.listing_program.specs.Runs.{RecordsEnd, line_listed, written_on, read_on, turned, header_ends, ListingEnds};

use big_endian::u8_or_zero;
use header::{FIRST_YEAR_BYTE, HOLIDAY_COUNT_BYTE, MEMBERS_BYTE, header_length};
use listing::{Piece, ROOM, next_piece, put_header_line, put_record_line};
use std::io::{Eprint, Print, Read};
use std::time::Clock;
use streams::{
    Ending, Progress, Window, finish, first_window, read_more, start, status, write_out,
};

const INPUT: usize = 65536;

// Room for a line beside those that wait.
const OUTPUT: usize = 131072;

// Nothing says that standard input ends, so turns are counted: this many take years.
const MOST_TURNS: u64 = 70368744177664;

// What the header says of the records.
#[derive(Clone, Copy)]
struct Ledger {
    members: u64,
    first_year: u64,
    // In bytes.
    header_size: u64,
}

// So many records and bytes came before what the window holds.
#[derive(Clone, Copy)]
struct Place {
    turns: u64,
    window: Window,
    records: u64,
    base: u64,
}

// What is printed goes out, then more bytes come.
fn read_on(
    rt: &(impl Clock + Print + Eprint),
    reader: &mut impl Read,
    place: Place,
    input: &mut [u8],
    output: &[u8],
) -> Result<Place, Ending>
    requires { Stands place × (length input.old ≡ input_length) × (length output.now ≡ output_length) }
    ensures { next_stands place.turns result × read_on place.window place.records place.base input.old input.new result }
{
    let window = read_more(rt, reader, place.window, place.records, input, output)?;
    Ok(Place { window, ..place })
}

// What is printed so far goes out.
fn write_on(rt: &(impl Print + Eprint), place: Place, output: &[u8]) -> Result<Place, Ending>
    requires { Stands place × (length output.now ≡ output_length) }
    ensures { next_stands place.turns result × written_on place.window place.records place.base result }
{
    let window = write_out(rt, place.window, output)?;
    Ok(Place { window, ..place })
}

// The record of the first bytes; the program ends after one that is unsound, since no later record's place is known.
fn list_record(
    rt: &(impl Print + Eprint),
    ledger: Ledger,
    place: Place,
    size: usize,
    input: &[u8],
    output: &mut [u8],
) -> Result<Place, Ending>
    requires stands { Stands place × (place.turns < most_turns) × (place.window.from + size ≤ place.window.end) × (place.window.filled + line_room ≤ output_length) }
    requires first_year_bound { (ledger.first_year ≤ most_in_two_bytes) × (length input.now ≡ input_length) × (length output.old ≡ output_length) }
    ensures { next_stands (place.turns + 1) result
        × line_listed ledger place size (take size (drop place.window.from input.now)) output.old output.new result }
{
    let window = place.window;
    let from = window.from;
    let to = from + size;
    let number = place.records + 1;
    let listed = put_record_line(
        ledger.members,
        ledger.first_year,
        number,
        place.base,
        &input[from..to],
        output,
        window.filled,
    );
    if !listed.is_sound {
        return Err(finish(rt, output, listed.end, Ending::RecordUnsound));
    }
    Ok(Place {
        turns: place.turns + 1,
        window: Window {
            from: to,
            filled: listed.end,
            ..window
        },
        records: number,
        base: place.base + size as u64,
    })
}

fn turn(
    rt: &(impl Clock + Print + Eprint),
    reader: &mut impl Read,
    ledger: Ledger,
    place: Place,
    input: &mut [u8],
    output: &mut [u8],
) -> Result<Place, Ending>
    requires { Stands place × (place.turns < most_turns) × (ledger.first_year ≤ most_in_two_bytes) × (length input.old ≡ input_length) × (length output.old ≡ output_length) }
    ensures { next_stands (place.turns + 1) result × turned ledger place input.old input.new output.old output.new result }
{
    let window = place.window;
    let next = Place {
        turns: place.turns + 1,
        ..place
    };
    if OUTPUT - window.filled < ROOM {
        return write_on(rt, next, output);
    }
    match next_piece(&input[window.from..window.end], window.is_last) {
        Piece::Record(size) => list_record(rt, ledger, place, size, input, output),
        Piece::More => read_on(rt, reader, next, input, output),
        Piece::End => Err(finish(rt, output, window.filled, Ending::ReadToEnd)),
    }
}

fn list_records(
    rt: &(impl Clock + Print + Eprint),
    reader: &mut impl Read,
    ledger: Ledger,
    first: Place,
    input: &mut [u8],
    output: &mut [u8],
) -> Ending
    requires { Stands first × (first.turns ≡ 0) × (ledger.first_year ≤ most_in_two_bytes) × (length input.old ≡ input_length) × (length output.old ≡ output_length) }
    ensures { (last : Bool) × (left : List ℕ) × RecordsEnd ledger.members last left result }
{
    let mut place = first;
    for _ in 0..MOST_TURNS {
        match turn(rt, reader, ledger, place, input, output) {
            Ok(next) => place = next,
            Err(ending) => return ending,
        }
    }
    let _ = eprintln!(rt; "durskafn: standard input: too long");
    Ending::ReadFailed
}

fn ledger_of(bytes: &[u8]) -> Ledger
    ensures { LedgerOf bytes.now result }
{
    let members = u8_or_zero(bytes, MEMBERS_BYTE);
    let holidays = u8_or_zero(bytes, HOLIDAY_COUNT_BYTE);
    Ledger {
        members,
        first_year: u8_or_zero(bytes, FIRST_YEAR_BYTE) * 256
            + u8_or_zero(bytes, FIRST_YEAR_BYTE + 1),
        header_size: header_length(members, holidays),
    }
}

// The bytes of the header, or all that there are.
fn read_header(
    rt: &(impl Clock + Print + Eprint),
    reader: &mut impl Read,
    first: Window,
    input: &mut [u8],
    output: &[u8],
) -> Result<Window, Ending>
    requires { Within input_length output_length first × (length input.old ≡ input_length) × (length output.now ≡ output_length) }
    ensures { moved_within result × header_ends result }
{
    let mut window = first;
    for _ in 0..MOST_TURNS {
        let bytes = &input[window.from..window.end];
        if window.is_last | (ledger_of(bytes).header_size <= bytes.len() as u64) {
            return Ok(window);
        }
        window = read_more(rt, reader, window, 0, input, output)?;
    }
    Ok(window)
}

// The header's line, then those of the records behind it.
fn list_from(
    rt: &(impl Clock + Print + Eprint),
    reader: &mut impl Read,
    window: Window,
    input: &mut [u8],
    output: &mut [u8],
) -> Ending
    requires { Within input_length output_length window × (length input.old ≡ input_length) × (length output.old ≡ output_length) }
    ensures { ListingEnds (held window input.old) result }
{
    let bytes = &input[window.from..window.end];
    let listed = put_header_line(bytes, output, 0);
    if !listed.is_sound {
        return finish(rt, output, listed.end, Ending::HeaderUnsound);
    }
    let ledger = ledger_of(bytes);
    let size = ledger.header_size;
    let first = Place {
        turns: 0,
        window: Window {
            from: window.from + size as usize,
            filled: listed.end,
            ..window
        },
        records: 0,
        base: size,
    };
    list_records(rt, reader, ledger, first, input, output)
}

// The buffers lie on the stack. They are not to lie on that of a caller, who looks first whether the stack is enough.
#[inline(never)]
fn run(rt: &(impl Clock + Print + Eprint), reader: &mut impl Read, progress: Progress) -> Ending
    ensures { (s : List ℕ) × ListingEnds s result }
{
    let mut input = [0u8; INPUT];
    let mut output = [0u8; OUTPUT];
    match read_header(rt, reader, first_window(progress), &mut input, &output) {
        Ok(window) => list_from(rt, reader, window, &mut input, &mut output),
        Err(ending) => ending,
    }
}

// The exit status: 0 if the journal was listed to its end, 2 after a header and 3 after a record that is unsound, and, with a
// message on standard error, 4 if it could not be read, 5 if not written. It is promised of the bytes that came, whichever these
// are. If is_said, progress goes to standard error; size is how many bytes there are to read, if known.
pub fn listing_run(
    rt: &(impl Clock + Print + Eprint),
    reader: &mut impl Read,
    is_said: bool,
    size: Option<u64>,
) -> u8
    ensures { (ending : Ending) × (s : List ℕ) × (result ≡ status_of ending) × ListingEnds s ending }
{
    status(run(rt, reader, start(rt, is_said, size)))
}
