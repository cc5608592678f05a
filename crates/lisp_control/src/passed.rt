use term_model::Ask;

/// What an exit dropped, of what Emacs is to be told.
#[derive(Drop)]
pub enum Passed {
    /// A request that arrived at this place of the journal, with its id: it is aborted.
    Request { at: u64, id: i64 },
    /// A level of the debugger, by its number from 1.
    Level(u64),
    /// A question to Emacs, which nobody waits for any more.
    Question { kind: Ask, tag: u64 },
}
