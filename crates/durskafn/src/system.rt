// What the system says of the process, in files of /proc. Where there are none, it is not known.
use std::fs;
use std::io::Read;
use std::rt::Files;

// Buffers and tables of the programs lie on the stack.
pub const STACK_KIB: u64 = 512;

const STACK: u64 = STACK_KIB * 1024;

// The number behind a name.
fn number_behind(text: &str, name: &str) -> Option<u64> {
    let (_, behind) = text.split_once(name)?;
    behind.split_whitespace().next()?.parse().ok()
}

// The same in a file, whose first part one read brings.
fn number_in(rt: &impl Files, path: &str, name: &str) -> Option<u64> {
    let mut bytes = [0u8; 4096];
    let mut file = fs::open(rt, path).ok()?;
    let length = file.read(&mut bytes).ok()?;
    number_behind(str::from_utf8(&bytes[..length]).ok()?, name)
}

// Whether the stack may become as large. Where no number stands, no limit is known.
pub fn has_stack(rt: &impl Files) -> bool {
    number_in(rt, "/proc/self/limits", "Max stack size").is_none_or(|bytes| STACK <= bytes)
}

// How many bytes standard input still has, where that is known. A file that is read to its end may still grow.
pub fn input_size(rt: &impl Files) -> Option<u64> {
    let found = fs::metadata(rt, "/proc/self/fd/0").ok()?;
    if !found.is_file() {
        return None;
    }
    let passed = number_in(rt, "/proc/self/fdinfo/0", "pos:")?;
    let left = found.len().saturating_sub(passed);
    (0 < left).then_some(left)
}
