use crate::Placed;
use lisp_data::{Pile, Rows, Sexp, Text};

/// What is open: a list with its items so far, or a quote mark.
#[derive(Drop)]
pub enum Frame {
    Open(Rows<Sexp>),
    Quote,
    Function,
}

/// What the next character belongs to.
#[derive(Clone, Copy, PartialEq, Eq)]
pub enum Mode {
    Between,
    Comment,
    Hash,
    Token,
    Str,
    Escape,
}

/// The forms that are whole and stand in no other. `begun` is where the newest of them began, and `many` says whether
/// another may follow.
#[derive(Drop)]
pub struct Forms {
    pub many: bool,
    pub begun: u64,
    pub placed: Rows<Placed>,
}

/// What was read so far: what is open, the newest first, and the whole forms. The text is that of the string at hand, and
/// the token that of the token at hand; both are empty between forms.
#[derive(Drop)]
pub struct Reader {
    pub stack: Pile<Frame>,
    pub forms: Forms,
    pub mode: Mode,
    pub text: Text,
    pub token: Rows<char>,
}
