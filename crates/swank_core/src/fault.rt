/// Why an event is refused. Where several hold, the first of them is answered.
#[derive(Clone, Copy, Debug, PartialEq, Eq)]
pub enum CoreFault {
    /// Memory was wanting in an earlier event.
    Failed,
    /// A request has closed the session, or it was halted.
    Closed,
    /// The journal has as many entries as it may have, but for the place that is kept for a drain.
    Full,
    /// Memory is wanting. The journal and the undrained outputs stand as before the event; nothing more is said of the image and the
    /// threads.
    NoMemory,
}
