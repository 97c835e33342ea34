// The program's turns: what the input holds is run, then bytes are read or what was printed is written. No contract can say
// what a read brought or a write took. The promises say what is handed over to be written for the bytes that came, whichever
// these are, and how the run ends.
ghost use Rattle.std.specs.Prelude.{◌≡◌, List, ℕ, ◌+◌, ◌≤◌, ◌<◌, length, false};
ghost use Rattle.rules.specs.Ledger.{head_length, lines_length, zero_tables};
ghost use Rattle.tables.specs.Lent.{tables_of, SameTables};
ghost use Rattle.journal.specs.declared.stage.Stage.TheVariants.{Header};
ghost use Rattle.journal.specs.declared.stage.Wants.TheVariants.{Nothing, Bytes, Room};
ghost use Rattle.journal.specs.Stages.{counted_at};
ghost use Rattle.streams.specs.declared.ending.Ending.{Ending};
ghost use Rattle.streams.specs.Windows.{status_of};
ghost use Rattle.journal_program.specs.Places.{buffer_length, most_turns, Stands, next_stands};
ghost use Rattle.journal_program.specs.Runs.{Follows, Turned, RanTurns, JournalRan};

use journal::{Stage, Wants, advance};
use rules::layout::{BOOK_LENGTH, HEAD_LENGTH, LINES_LENGTH, PRICES_LENGTH, ROWS_LENGTH};
use std::io::{Eprint, Print, Read};
use std::time::Clock;
use streams::{
    Ending, Progress, Window, finish, first_window, read_more, start, status, write_out,
};
use tables::LentTables;

const BUFFER: usize = 65536;

// The rows, and a place before and after them.
const ROWS: usize = ROWS_LENGTH + 2;

// Nothing says that standard input ends, so turns are counted: this many take years.
const MOST_TURNS: u64 = 70368744177664;

#[derive(Clone, Copy)]
struct Place {
    turns: u64,
    window: Window,
    stage: Stage,
}

fn first_place(progress: Progress) -> Place
    ensures stands { Stands result × (result.turns ≡ 0) × (result.stage ≡ Header) }
    ensures from_value { (result.window.from ≡ 0) × (result.window.end ≡ 0) × (result.window.is_last ≡ false) × (result.window.filled ≡ 0) }
{
    Place {
        turns: 0,
        window: first_window(progress),
        stage: Stage::Header,
    }
}

// How many records were run, for progress.
#[tactic(auto, unfolding(journal::specs::Stages::counted_at))]
fn counted_by(stage: Stage) -> u64
    ensures { result ≡ counted_at stage }
{
    match stage {
        Stage::Records { counted, .. }
        | Stage::Read { counted, .. }
        | Stage::Stopped { counted, .. } => counted,
        _ => 0,
    }
}

// What is printed goes out, then more bytes come.
fn read_on(
    rt: &(impl Clock + Print + Eprint),
    reader: &mut impl Read,
    place: Place,
    input: &mut [u8],
    output: &[u8],
) -> Result<Place, Ending>
    requires { Stands place × (length input.old ≡ buffer_length) × (length output.now ≡ buffer_length) × (place.window.is_last ≡ false) }
    ensures { next_stands place.turns result × Follows Bytes place input.old input.new result }
{
    let records = counted_by(place.stage);
    let window = read_more(rt, reader, place.window, records, input, output)?;
    Ok(Place { window, ..place })
}

// What is printed so far goes out.
fn write_on(rt: &(impl Print + Eprint), place: Place, output: &[u8]) -> Result<Place, Ending>
    requires { Stands place × (length output.now ≡ buffer_length) }
    ensures { next_stands place.turns result × ((input : List ℕ) → Follows Room place input input result) }
{
    let window = write_out(rt, place.window, output)?;
    Ok(Place { window, ..place })
}

// The next stage, or the end, when what is printed goes out.
fn go_on(rt: &(impl Print + Eprint), place: Place, output: &[u8]) -> Result<Place, Ending>
    requires { Stands place × (length output.now ≡ buffer_length) }
    ensures { next_stands place.turns result × ((input : List ℕ) → Follows Nothing place input input result) }
{
    let filled = place.window.filled;
    match place.stage {
        Stage::ReadToEnd => Err(finish(rt, output, filled, Ending::ReadToEnd)),
        Stage::RecordUnsound => Err(finish(rt, output, filled, Ending::RecordUnsound)),
        Stage::HeaderUnsound => Err(finish(rt, output, filled, Ending::HeaderUnsound)),
        _ => Ok(place),
    }
}

// What an advance wants is done.
fn follow(
    rt: &(impl Clock + Print + Eprint),
    reader: &mut impl Read,
    wants: Wants,
    place: Place,
    input: &mut [u8],
    output: &[u8],
) -> Result<Place, Ending>
    requires { Stands place × (length input.old ≡ buffer_length) × (length output.now ≡ buffer_length) × (wants ≡ Bytes → place.window.is_last ≡ false) }
    ensures { next_stands place.turns result × Follows wants place input.old input.new result }
{
    match wants {
        Wants::Nothing => go_on(rt, place, output),
        Wants::Bytes => read_on(rt, reader, place, input, output),
        Wants::Room => write_on(rt, place, output),
    }
}

fn turn(
    rt: &(impl Clock + Print + Eprint),
    reader: &mut impl Read,
    place: Place,
    input: &mut [u8],
    output: &mut [u8],
    tables: &mut LentTables<'_>,
) -> Result<Place, Ending>
    requires { Stands place × (place.turns < most_turns) × (length input.old ≡ buffer_length) × (length output.old ≡ buffer_length)
        × (head_length ≤ length tables.old.head.now) × (lines_length ≤ length tables.old.lines.now) }
    ensures next_stands { next_stands (place.turns + 1) result }
    ensures turned { Turned place input.old output.old (tables_of tables.old) input.new output.new (tables_of tables.new) result }
    ensures same { SameTables tables.old tables.new }
{
    let window = place.window;
    let done = advance(
        place.stage,
        &input[window.from..window.end],
        window.is_last,
        output,
        window.filled,
        tables,
    );
    let next = Place {
        turns: place.turns + 1,
        window: Window {
            from: window.from + done.used,
            filled: done.end,
            ..window
        },
        stage: done.stage,
    };
    follow(rt, reader, done.wants, next, input, output)
}

fn run_turns(
    rt: &(impl Clock + Print + Eprint),
    reader: &mut impl Read,
    progress: Progress,
    input: &mut [u8],
    output: &mut [u8],
    tables: &mut LentTables<'_>,
) -> Ending
    requires { (length input.old ≡ buffer_length) × (length output.old ≡ buffer_length) × (head_length ≤ length tables.old.head.now) × (lines_length ≤ length tables.old.lines.now) }
    ensures ran { RanTurns (tables_of tables.old) (tables_of tables.new) output.new result }
    ensures same { SameTables tables.old tables.new }
{
    let mut place = first_place(progress);
    for _ in 0..MOST_TURNS {
        match turn(rt, reader, place, input, output, tables) {
            Ok(next) => place = next,
            Err(ending) => return ending,
        }
    }
    let _ = eprintln!(rt; "durskafn: standard input: too long");
    Ending::ReadFailed
}

// Buffers and tables lie on the stack. They are not to lie on that of a caller, who looks first whether the stack is enough.
// The compiler places arrays 8 bytes past a multiple of 16, where the test of all rows takes a tenth longer. The rows are
// lent from the second place on.
#[inline(never)]
fn run(rt: &(impl Clock + Print + Eprint), reader: &mut impl Read, progress: Progress) -> Ending
    ensures { JournalRan zero_tables result }
{
    let mut input = [0u8; BUFFER];
    let mut output = [0u8; BUFFER];
    let mut head = [0u64; HEAD_LENGTH];
    let mut prices = [0u64; PRICES_LENGTH];
    let mut lots = [0i64; ROWS];
    let mut value = [0i64; ROWS];
    let mut book = [0u64; BOOK_LENGTH];
    let mut lines = [0i64; LINES_LENGTH];
    let mut tables = LentTables {
        head: &mut head,
        prices: &mut prices,
        lots: &mut lots[1..1 + ROWS_LENGTH],
        value: &mut value[1..1 + ROWS_LENGTH],
        book: &mut book,
        lines: &mut lines,
    };
    run_turns(rt, reader, progress, &mut input, &mut output, &mut tables)
}

// The exit status: 0 if the journal was read to its end, 2 after a header and 3 after a record that is unsound, and, with a
// message on standard error, 4 if it could not be read, 5 if not written. The promise is one of these five: no contract of a
// read says which bytes came, so `turn` and `run_turns` say which one it is of the bytes that the input holds.
// If is_said, progress goes to standard error; size is how many bytes there are to read, if known.
pub fn journal_run(
    rt: &(impl Clock + Print + Eprint),
    reader: &mut impl Read,
    is_said: bool,
    size: Option<u64>,
) -> u8
    ensures { (ending : Ending) × (result ≡ status_of ending) × JournalRan zero_tables ending }
{
    status(run(rt, reader, start(rt, is_said, size)))
}
