ghost use Rattle.std.specs.Prelude.{◌≡◌};
ghost use Rattle.swank_session.specs.Course as course;

use outlet::WriteCause;
use swank_core::CoreFault;

/// Why the schedule stops before its input's end.
#[derive(Clone, Copy, Debug, PartialEq, Eq)]
pub enum Halt {
    /// The session is closed, its journal is full, or it has no step left.
    Stuck,
    /// The sink failed.
    WriteFault,
    NoMemory,
}

/// What the input ended with.
#[derive(Clone, Copy, Debug, PartialEq, Eq)]
pub enum InputEnd {
    /// It ended behind a packet.
    Whole,
    BadHeader,
    Truncated,
    ReadFault,
    InputLimit,
}

/// What a refusal of the core means for the schedule.
pub fn halt_of(fault: CoreFault) -> Halt
    ensures { result ≡ course.halt_of fault }
{
    match fault {
        CoreFault::Failed | CoreFault::NoMemory => Halt::NoMemory,
        CoreFault::Closed | CoreFault::Full => Halt::Stuck,
    }
}

/// What a write that was cut short means for it.
pub fn halt_for(cause: WriteCause) -> Halt
    ensures { result ≡ course.halt_for cause }
{
    match cause {
        WriteCause::WriteFault => Halt::WriteFault,
        WriteCause::NoMemory => Halt::NoMemory,
    }
}
