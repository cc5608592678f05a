use crate::{Ask, Plain, Saved};
use lisp_data::{Condition, Sexp};
use syntax_trees::Forms;

/// A layer of a term, which is a frame of the stack.
#[derive(Drop)]
pub enum Frame {
    On(Plain),
    /// A protected form, with its serial number and its cleanup.
    Protect {
        serial: u64,
        cleanup: Forms,
    },
    /// A cleanup at work, with what it keeps.
    Cleanup {
        serial: u64,
        saved: Saved,
    },
    /// The request that arrived at this place of the journal, with its id and its form.
    Rex {
        at: u64,
        id: i64,
        form: Sexp,
    },
    /// A level of the debugger, by its number from 1, on this condition; `again` says that it is to be announced again.
    Sldb {
        level: u64,
        condition: Condition,
        again: bool,
    },
    /// A question to Emacs.
    Ask {
        kind: Ask,
        tag: u64,
    },
}
