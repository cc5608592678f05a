use rpc_messages::FromEmacs;

/// What happens in a session.
#[derive(Drop)]
pub enum Event {
    /// A message came.
    Arrive(FromEmacs),
    /// The input ended.
    End,
    /// The thread of this number was lent.
    Lend(u64),
    /// The thread of this number made so many steps, which ended its loan.
    Burst(u64, u64),
    /// So many outputs, all that were undrained, were handed out.
    Drain(u64),
}

/// An entry of the journal: what happened, and the number of the seat that made it happen.
#[derive(Drop)]
pub struct Entry {
    pub seat: u64,
    pub event: Event,
}
