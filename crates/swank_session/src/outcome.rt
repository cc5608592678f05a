use lisp_image::Image;
use swank_core::Journal;

/// How a session ended. Where several hold: want of memory, a fault of the sink, a full journal, no step left, and then what the input
/// ended with.
#[derive(Clone, Copy, Debug, PartialEq, Eq)]
pub enum Status {
    /// The input ended behind a packet and all is served, or a request has closed the session.
    Ok,
    /// The words are no command.
    Usage,
    /// Memory was wanting, or the package names of the image are not short, so that a reply could be too long for a packet: one has more
    /// than 2^20 octets, or COMMON-LISP-USER is missing. Such an image is refused before anything is read; see `long_names` of `run_pipe`.
    NoMemory,
    /// The source failed.
    ReadFault,
    /// The sink failed.
    WriteFault,
    /// Six octets that should be a header are not all hexadecimal digits.
    BadHeader,
    /// The input ended inside a packet.
    Truncated,
    /// As many octets were read as a session may have.
    InputLimit,
    /// As many steps were made as a session may make, and a thread could make more.
    Budget,
    /// The journal has no place left for what would come next.
    JournalFull,
}

/// What a session leaves behind. Nothing is said of the image where memory was wanting; an image that was refused for its package names
/// is handed back as it was.
#[derive(Drop)]
pub struct Outcome {
    pub status: Status,
    pub image: Image,
    pub journal: Journal,
    /// How many octets were taken from the source.
    pub taken: u64,
    /// How many octets the sink took. The count stands still at 2^64 - 1.
    pub sent: u64,
}
