// What a program holds of its input and output.
ghost use Rattle.std.specs.Prelude.{◌≡◌, ◌≤◌, false, length, take};
ghost use Rattle.streams.specs.Windows.{Within, filled_to, flushed, read_more, wrote_out, finished};

use crate::ending::Ending;
use crate::failure::fail;
use crate::progress::{Progress, read_on, say};
use std::io::{Eprint, ErrorKind, Print, Read};
use std::time::Clock;
use text::shift;

// The input's bytes from a place to end are still to be run, the output's below filled still to be written.
#[derive(Clone, Copy)]
pub struct Window {
    pub from: usize,
    pub end: usize,
    // No more bytes come.
    pub is_last: bool,
    pub filled: usize,
    pub progress: Progress,
}

// One read, to the bytes from end on, and up to where the buffer then holds bytes; None where no more come. A read that a signal
// broke off brings nothing.
fn fill(
    rt: &impl Eprint,
    reader: &mut impl Read,
    input: &mut [u8],
    end: usize,
) -> Result<Option<usize>, Ending>
    requires { end ≤ length input.old }
    ensures { filled_to end (length input.old) result × (take end input.new ≡ take end input.old) }
{
    match reader.read(&mut input[end..]) {
        Ok(0) => Ok(None),
        Ok(got) => Ok(Some(end + got)),
        Err(error) if error.kind() == ErrorKind::Interrupted => Ok(Some(end)),
        Err(error) => Err(fail(rt, "standard input", error, Ending::ReadFailed)),
    }
}

// The buffer's first bytes are written.
fn flush(rt: &(impl Print + Eprint), output: &[u8], filled: usize) -> Result<(), Ending>
    requires { filled ≤ length output.now }
    ensures { flushed result }
{
    match rt.write_all(&output[..filled]) {
        Ok(()) => Ok(()),
        Err(error) => Err(fail(rt, "standard output", error, Ending::WriteFailed)),
    }
}

// Before the first read.
pub fn first_window(progress: Progress) -> Window
    ensures { (result.from ≡ 0) × (result.end ≡ 0) × (result.is_last ≡ false) × (result.filled ≡ 0) × (result.progress ≡ progress) }
{
    Window {
        from: 0,
        end: 0,
        is_last: false,
        filled: 0,
        progress,
    }
}

// What is printed goes out, since a read may wait. Then the rest goes to the front, and more comes behind it.
pub fn read_more(
    rt: &(impl Clock + Print + Eprint),
    reader: &mut impl Read,
    window: Window,
    records: u64,
    input: &mut [u8],
    output: &[u8],
) -> Result<Window, Ending>
    requires { Within (length input.old) (length output.now) window }
    ensures { read_more input.old input.new window result }
{
    flush(rt, output, window.filled)?;
    let progress = say(rt, window.progress, records);
    let rest = window.end - window.from;
    shift(input, window.from, window.end);
    match fill(rt, reader, input, rest)? {
        Some(end) => Ok(Window {
            from: 0,
            end,
            is_last: false,
            filled: 0,
            progress: read_on(progress, (end - rest) as u64),
        }),
        None => Ok(Window {
            from: 0,
            end: rest,
            is_last: true,
            filled: 0,
            progress,
        }),
    }
}

// What is printed goes out.
pub fn write_out(
    rt: &(impl Print + Eprint),
    window: Window,
    output: &[u8],
) -> Result<Window, Ending>
    requires { window.filled ≤ length output.now }
    ensures { wrote_out window result }
{
    flush(rt, output, window.filled)?;
    Ok(Window {
        filled: 0,
        ..window
    })
}

// The same, and the program ends.
pub fn finish(rt: &(impl Print + Eprint), output: &[u8], filled: usize, ending: Ending) -> Ending
    requires { filled ≤ length output.now }
    ensures { finished ending result }
{
    match flush(rt, output, filled) {
        Ok(()) => ending,
        Err(failed) => failed,
    }
}
