// How a program ends.
ghost use Rattle.std.specs.Prelude.{◌≡◌};
ghost use Rattle.streams.specs.Windows.{status_of};

#[derive(Clone, Copy)]
pub enum Ending {
    ReadToEnd,
    HeaderUnsound,
    RecordUnsound,
    ReadFailed,
    WriteFailed,
}

// The exit status.
#[tactic(auto, unfolding(crate::specs::Windows::status_of))]
pub fn status(ending: Ending) -> u8
    ensures { result ≡ status_of ending }
{
    match ending {
        Ending::ReadToEnd => 0,
        Ending::HeaderUnsound => 2,
        Ending::RecordUnsound => 3,
        Ending::ReadFailed => 4,
        Ending::WriteFailed => 5,
    }
}
