use swank_command::Status;
use thiserror::Error;

/// Why a run did not end well. The display is the text that is written to standard error.
#[derive(Clone, Copy, Debug, PartialEq, Eq, Error)]
pub enum Failure {
    #[error("usage")]
    Usage,
    #[error("no memory")]
    NoMemory,
    #[error("read failed")]
    ReadFault,
    #[error("write failed")]
    WriteFault,
    #[error("bad header")]
    BadHeader,
    #[error("truncated input")]
    Truncated,
    #[error("input limit")]
    InputLimit,
    #[error("step limit")]
    Budget,
    #[error("journal full")]
    JournalFull,
}

impl Failure {
    ghost use Rattle.std.specs.Prelude.{◌≡◌};
    ghost use Rattle.swank_main.specs.Failures.{failure_of, number_of};

    /// The failure of a run that ended so.
    pub fn of(status: Status) -> Option<Failure>
        ensures { result ≡ failure_of status }
    {
        match status {
            Status::Ok => None,
            Status::Usage => Some(Failure::Usage),
            Status::NoMemory => Some(Failure::NoMemory),
            Status::ReadFault => Some(Failure::ReadFault),
            Status::WriteFault => Some(Failure::WriteFault),
            Status::BadHeader => Some(Failure::BadHeader),
            Status::Truncated => Some(Failure::Truncated),
            Status::InputLimit => Some(Failure::InputLimit),
            Status::Budget => Some(Failure::Budget),
            Status::JournalFull => Some(Failure::JournalFull),
        }
    }

    /// The status that the process ends with.
    pub fn number(self) -> u8
        ensures { result ≡ number_of self }
    {
        match self {
            Failure::Usage => 2,
            Failure::NoMemory => 3,
            Failure::ReadFault => 4,
            Failure::WriteFault => 5,
            Failure::BadHeader => 8,
            Failure::Truncated => 9,
            Failure::InputLimit => 10,
            Failure::Budget => 11,
            Failure::JournalFull => 12,
        }
    }
}
