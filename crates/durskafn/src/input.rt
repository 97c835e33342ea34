// A program on the file of a call, or on standard input.
ghost use Rattle.std.specs.Prelude.{◌≡◌};
ghost use Rattle.streams.specs.declared.ending.Ending.{Ending};
ghost use Rattle.streams.specs.Windows.{status_of};

use crate::argument::{LONGEST, WRONG_CALL, read_argument, tell, wrong};
use crate::system::{STACK_KIB, has_stack, input_size};
use crate::word::Word;
use journal_program::journal_run;
use listing_program::listing_run;
use std::env::FillError;
use std::fs::File;
use std::io::{Eprint, Read};
use std::{fs, io};
use streams::{Ending, fail, status};

// What the system says where a folder is read, and of a name that is longer than any path.
const IS_A_FOLDER: i32 = 21;

const NAME_IS_TOO_LONG: i32 = 36;

// Where the journal comes from.
#[derive(Clone, Copy)]
pub enum Source {
    Standard,
    // The file that the argument at this place names.
    File(usize),
}

pub fn run_on(rt: &HostRuntime, word: Word, source: Source, is_said: bool) -> u8 {
    if !has_stack(rt) {
        let _ = eprintln!(rt;
            "durskafn: it needs {STACK_KIB} KiB of stack (ulimit -s {STACK_KIB})"
        );
        return WRONG_CALL;
    }
    match source {
        Source::Standard => {
            let size = input_size(rt);
            run_on_reader(rt, word, &mut rt.stdin(), is_said, size)
        }
        Source::File(place) => {
            let mut buffer = [0u8; LONGEST];
            match read_argument(rt, place, &mut buffer) {
                Ok(name) => run_on_file(rt, word, name, is_said),
                Err(FillError::NotPresent) => wrong(rt, "the file's name is gone", b""),
                Err(FillError::TooLong) => {
                    let error = io::Error::from_raw_os_error(NAME_IS_TOO_LONG);
                    status(fail(rt, "an argument", error, Ending::ReadFailed))
                }
            }
        }
    }
}

fn run_on_file(rt: &HostRuntime, word: Word, name: &[u8], is_said: bool) -> u8 {
    match str::from_utf8(name) {
        Ok(path) => match open(rt, path) {
            Ok(mut file) => {
                let size = file_size(&file);
                run_on_reader(rt, word, &mut file, is_said, size)
            }
            Err(error) => status(fail(rt, path, error, Ending::ReadFailed)),
        },
        Err(_) => {
            // std's paths are text.
            tell(rt, "", name, ": the name is not UTF-8");
            status(Ending::ReadFailed)
        }
    }
}

fn open(rt: &HostRuntime, path: &str) -> io::Result<File> {
    let file = fs::open(rt, path)?;
    if is_folder(&file) {
        return Err(io::Error::from_raw_os_error(IS_A_FOLDER));
    }
    Ok(file)
}

fn is_folder(file: &File) -> bool {
    file.metadata().is_ok_and(|found| found.is_dir())
}

// How many bytes the file has, where that is known. One that says 0 may be of /proc, or still grow.
fn file_size(file: &File) -> Option<u64> {
    let found = file.metadata().ok()?;
    (found.is_file() && 0 < found.len()).then_some(found.len())
}

fn run_on_reader(
    rt: &HostRuntime,
    word: Word,
    reader: &mut impl Read,
    is_said: bool,
    size: Option<u64>,
) -> u8
    ensures { (ending : Ending) × (result ≡ status_of ending) }
{
    match word {
        Word::Journal => journal_run(rt, reader, is_said, size),
        Word::Listing => listing_run(rt, reader, is_said, size),
    }
}
