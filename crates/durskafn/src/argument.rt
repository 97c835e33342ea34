// The arguments, as bytes, and what is said of one that does not fit.
use std::env::{Env, FillError};
use std::io::Print;

// The exit status of a wrong call, or of too little stack. Those of a run are its endings'.
pub const WRONG_CALL: u8 = 1;

// As long as a path may be.
pub const LONGEST: usize = 4096;

// What stands at a place of the call.
pub fn read_argument<'a>(
    rt: &impl Env,
    place: usize,
    buffer: &'a mut [u8],
) -> Result<&'a [u8], FillError> {
    let length = rt.arg(place, buffer)?;
    Ok(&buffer[..length])
}

// An option begins with a minus, and has more behind it.
pub fn is_option(text: &[u8]) -> bool {
    text.len() > 1 && text[0] == b'-'
}

// A line on standard error. Where it cannot be written, nothing is left to say it on.
pub fn tell(rt: &HostRuntime, what: &str, text: &[u8], rest: &str) {
    let said = rt.stderr();
    let _ = print!(said; "durskafn: {what}");
    let _ = said.write_all(text);
    let _ = said.println(rest);
}

pub fn wrong(rt: &HostRuntime, what: &str, text: &[u8]) -> u8 {
    tell(rt, what, text, " (durskafn --help)");
    WRONG_CALL
}

pub fn too_long(rt: &HostRuntime) -> u8 {
    wrong(rt, "an argument is too long", b"")
}
