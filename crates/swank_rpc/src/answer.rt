use lisp_data::{Condition, Rows, Sexp};
use sexp_reader::Placed;

/// What a request's function says is to be done.
#[derive(Drop)]
pub enum Answer {
    /// To reply this.
    Value(Sexp),
    /// To raise this condition.
    Raised(Condition),
    /// To evaluate these forms of a text one after another, and to make the reply of the last one's value and of what is kept.
    Run { forms: Rows<Placed>, kept: Sexp },
}
