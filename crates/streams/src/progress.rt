// How far a run is, said on standard error.
ghost use Rattle.std.specs.Prelude.{◌≡◌, ◌+◌, ◌%◌, ◌^◌};
ghost use Rattle.streams.specs.Windows.{SameRun};

use std::io::Eprint;
use std::time::Clock;

// It is said first after more than a second, then once a second.
const FIRST_WAIT: u64 = 2;

const WAIT: u64 = 1;

// In percent.
const ALL: u64 = 100;

#[derive(Clone, Copy)]
pub struct Progress {
    pub is_said: bool,
    // How many bytes there are to read, where that is known.
    pub size: Option<u64>,
    // How many were read.
    pub bytes: u64,
    // The second from which on it is said again.
    pub due: u64,
}

// Seconds since 1970, or 0 where the clock cannot be read: no line is due then, and an Option would only be asked for the same.
fn seconds(rt: &impl Clock) -> u64 {
    rt.since_1970().map_or(0, |time| time.as_secs())
}

// Before the first byte.
pub fn start(rt: &impl Clock, is_said: bool, size: Option<u64>) -> Progress
    ensures { (result.is_said ≡ is_said) × (result.size ≡ size) × (result.bytes ≡ 0) }
{
    Progress {
        is_said,
        size,
        bytes: 0,
        due: seconds(rt).wrapping_add(FIRST_WAIT),
    }
}

// More bytes were read.
pub fn read_on(progress: Progress, more: u64) -> Progress
    ensures { SameRun progress result × (result.bytes ≡ (progress.bytes + more) % 2 ^ 64) }
{
    Progress {
        bytes: progress.bytes.wrapping_add(more),
        ..progress
    }
}

// A file may have grown.
fn percent(bytes: u64, size: u64) -> u64 {
    if bytes < size {
        bytes / (size / ALL + 1)
    } else {
        ALL
    }
}

// A line: bytes, records, and percent where the size is known. One that cannot be written is left out.
fn put_line(rt: &impl Eprint, progress: Progress, records: u64) {
    let bytes = progress.bytes;
    let _ = match progress.size {
        Some(size) => {
            let part = percent(bytes, size);
            eprintln!(rt; "durskafn: {bytes} bytes, {records} records, {part}%")
        }
        None => eprintln!(rt; "durskafn: {bytes} bytes, {records} records"),
    };
}

// The line, where it is due.
pub fn say(rt: &(impl Clock + Eprint), progress: Progress, records: u64) -> Progress
    ensures { SameRun progress result × (result.bytes ≡ progress.bytes) }
{
    if !progress.is_said {
        return progress;
    }
    let now = seconds(rt);
    if now < progress.due {
        return progress;
    }
    put_line(rt, progress, records);
    Progress {
        due: now.wrapping_add(WAIT),
        ..progress
    }
}
