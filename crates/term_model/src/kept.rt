use lisp_data::{Rows, Sexp, Value};

/// What evaluation gives: a value; or, of a request, the form that its reply carries. A reply passes every layer up to its request.
#[derive(Drop)]
pub enum Outcome {
    Value(Value),
    Reply(Sexp),
}

/// What an exit brings to its target.
#[derive(Drop)]
pub enum Bring {
    Value(Value),
    Reply(Sexp),
    /// A clause of the target, by its number from 0, with its arguments.
    Clause { number: u64, args: Rows<Value> },
    /// The target's call once more.
    Call,
    /// Nothing: the place outside the target waits for a request again.
    Nothing,
}

/// An exit: the number of its target, and what it brings there.
#[derive(Drop)]
pub struct Leaving {
    pub target: u64,
    pub bring: Bring,
}

/// What a cleanup keeps while it is at work: the outcome of its protected form, or the exit that left that form.
#[derive(Drop)]
pub enum Saved {
    Kept(Outcome),
    Exit { target: u64, bring: Bring },
}
