// A call of the command: a word and its arguments, or an option.
use crate::argument::{LONGEST, is_option, read_argument, too_long, wrong};
use crate::help::{print_help, print_version, print_word};
use crate::input::{Source, run_on};
use crate::word::Word;
use std::env::FillError;
use std::io;
use std::io::IsTerminal;
use streams::{Ending, fail, status};

// What stands behind a word.
#[derive(Clone, Copy)]
struct Call {
    // None where no argument but options was taken.
    source: Option<Source>,
    wants_help: bool,
    wants_progress: bool,
}

pub fn run(rt: &HostRuntime) -> u8 {
    let mut buffer = [0u8; LONGEST];
    match read_argument(rt, 1, &mut buffer) {
        Ok(text) => run_first(rt, text),
        Err(FillError::NotPresent) => wrong(rt, "a word is missing", b""),
        Err(FillError::TooLong) => too_long(rt),
    }
}

fn run_first(rt: &HostRuntime, text: &[u8]) -> u8 {
    if is_option(text) {
        return run_option(rt, text);
    }
    match Word::named(text) {
        Some(word) => run_word(rt, word),
        None => wrong(rt, "unknown word ", text),
    }
}

// An option in place of a word.
fn run_option(rt: &HostRuntime, text: &[u8]) -> u8 {
    let wants_version = text == b"--version".as_slice();
    if !wants_version && text != b"--help".as_slice() {
        return wrong(rt, "unknown option ", text);
    }
    let mut buffer = [0u8; LONGEST];
    match read_argument(rt, 2, &mut buffer) {
        Ok(surplus) => wrong(rt, "surplus argument ", surplus),
        Err(FillError::NotPresent) => {
            if wants_version {
                status_of_printing(rt, print_version(rt))
            } else {
                status_of_printing(rt, print_help(rt))
            }
        }
        Err(FillError::TooLong) => too_long(rt),
    }
}

// The status after help was printed.
fn status_of_printing(rt: &HostRuntime, printed: io::Result<()>) -> u8 {
    status(match printed {
        Ok(()) => Ending::ReadToEnd,
        Err(error) => fail(rt, "standard output", error, Ending::WriteFailed),
    })
}

fn run_word(rt: &HostRuntime, word: Word) -> u8 {
    let mut call = Call {
        source: None,
        wants_help: false,
        wants_progress: false,
    };
    let mut buffer = [0u8; LONGEST];
    for place in 2..usize::MAX {
        match read_argument(rt, place, &mut buffer) {
            Ok(text) => match take(call, place, text) {
                Ok(more) => call = more,
                Err(what) => return wrong(rt, what, text),
            },
            Err(FillError::NotPresent) => break,
            // No option is as long.
            Err(FillError::TooLong) => match take_source(call, Source::File(place)) {
                Ok(more) => call = more,
                Err(what) => return wrong(rt, what, b""),
            },
        }
    }
    if call.wants_help {
        return status_of_printing(rt, print_word(rt, word));
    }
    let source = call.source.unwrap_or(Source::Standard);
    run_on(
        rt,
        word,
        source,
        call.wants_progress || rt.stderr().is_terminal(),
    )
}

// One argument behind a word, or what is wrong with it.
fn take(call: Call, place: usize, text: &[u8]) -> Result<Call, &'static str> {
    if text == b"--help".as_slice() {
        return Ok(Call {
            wants_help: true,
            ..call
        });
    }
    if text == b"--progress".as_slice() {
        return Ok(Call {
            wants_progress: true,
            ..call
        });
    }
    if is_option(text) {
        return Err("unknown option ");
    }
    let source = if text == b"-".as_slice() {
        Source::Standard
    } else {
        Source::File(place)
    };
    take_source(call, source)
}

// A second one is surplus.
fn take_source(call: Call, source: Source) -> Result<Call, &'static str> {
    if call.source.is_some() {
        return Err("surplus argument ");
    }
    Ok(Call {
        source: Some(source),
        ..call
    })
}
