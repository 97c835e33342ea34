// How far a journal has been run, and why it went no further.
ghost use Rattle.std.specs.Prelude.{◌≡◌};

use printing::LINE_ROOM;
use rules::layout::{LINE_WIDTH, LINES_LENGTH};

// The most that one record prints, 200 lines, and one line more.
pub const ROOM: usize = (LINES_LENGTH / LINE_WIDTH + 1) * LINE_ROOM;

// How far a journal has been run, with the records counted so far and those of them that were accepted.
#[derive(Clone, Copy)]
pub enum Stage {
    // The header is to be read.
    Header,
    // Records are to be read.
    Records { counted: u64, accepted: u64 },
    // Every record was run, and E is left.
    Read { counted: u64, accepted: u64 },
    // A record was number 3, and E is left.
    Stopped { counted: u64, accepted: u64 },
    // All is printed: the journal was read to its end.
    ReadToEnd,
    // All is printed: a record was number 3.
    RecordUnsound,
    // All is printed: the header was number 2.
    HeaderUnsound,
}

#[derive(Clone, Copy)]
pub enum Wants {
    // The next stage can begin.
    Nothing,
    // Less than a whole header or record is left.
    Bytes,
    // The output has less room than a record may need.
    Room,
}

#[derive(Clone, Copy)]
pub struct Progress {
    // The bytes that were run, and the end of what is printed.
    pub used: usize,
    pub end: usize,
    pub stage: Stage,
    pub wants: Wants,
}

// No bytes are run.
pub fn standing(end: usize, stage: Stage, wants: Wants) -> Progress
    ensures { result ≡ record { used = 0; end = end; stage = stage; wants = wants } }
{
    Progress {
        used: 0,
        end,
        stage,
        wants,
    }
}
