// What is said on standard error of a read or a write that failed.
ghost use Rattle.std.specs.Prelude.{◌≡◌};

use crate::ending::Ending;
use std::fmt::{Display, Formatter};
use std::io::{Eprint, Write};
use std::{fmt, io};

// Longer than what the system says of any of its errors.
const WORDS: usize = 320;

// An error in the system's own words. std adds the error's number to them, which is left out here.
#[derive(Clone, Copy)]
struct Reason(io::Error);

// The words before the number. All are ASCII while no locale is set.
fn words_of(all: &[u8]) -> &str {
    match str::from_utf8(all) {
        Ok(text) => match text.split_once(" (os error ") {
            Some((words, _)) => words,
            None => text,
        },
        Err(_) => "",
    }
}

impl Display for Reason {
    fn fmt<W: fmt::Write>(&self, f: &mut Formatter<W>) -> fmt::Result {
        let error = self.0;
        let mut all = [0u8; WORDS];
        let mut rest = &mut all[..];
        let _ = write!(rest, "{error}");
        let end = WORDS.saturating_sub(rest.len());
        f.write_str(words_of(&all[..end]))
    }
}

// The line `durskafn: what: reason`, and the program ends so. Where it cannot be written either, nothing is left to say it on.
pub fn fail(rt: &impl Eprint, what: &str, error: io::Error, ending: Ending) -> Ending
    ensures { result ≡ ending }
{
    let reason = Reason(error);
    let _ = eprintln!(rt; "durskafn: {what}: {reason}");
    ending
}
