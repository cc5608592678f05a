ghost use Rattle.std.specs.Prelude.{◌≡◌};

/// A thread that is lent to a seat, until a burst ends the loan.
#[derive(Drop)]
pub struct Loan {
    pub(crate) thread: u64,
    pub(crate) seat: u64,
}

impl Loan {
    /// The number of the thread.
    pub fn thread(&self) -> u64
        ensures { result ≡ self.now.thread }
    {
        self.thread
    }

    /// How many steps were made outside the session's lock: none yet.
    pub fn steps(&self) -> u64
        ensures { result ≡ 0 }
    {
        0
    }
}
