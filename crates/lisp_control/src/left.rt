use crate::Passed;
use lisp_data::Rows;
use syntax_trees::Forms;
use term_model::Bring;

/// A protected form that an exit met, by its serial number, and its cleanup.
#[derive(Drop)]
pub(crate) struct Met {
    pub serial: u64,
    pub cleanup: Forms,
}

/// What an exit dropped on its way, the inner first, and the protected form that it met, if it met one.
#[derive(Drop)]
pub(crate) struct Way {
    pub passed: Rows<Passed>,
    pub met: Option<Met>,
}

/// How an exit goes on.
#[derive(Drop)]
pub enum Next {
    /// It is at its target, to which it brings this.
    Arrives(Bring),
    /// The cleanup of the protected form of this serial number runs first. It stands on the stack and keeps the exit.
    Cleans { serial: u64, cleanup: Forms },
}

/// What an exit dropped, the inner first, and how it goes on.
#[derive(Drop)]
pub struct Left {
    pub passed: Rows<Passed>,
    pub next: Next,
}
