use crate::{Focus, Offer, Partial};
use lisp_data::{Name, Rows, Sexp, TypeId, Value};
use syntax_trees::Forms;

/// A handler of `handler-bind`: its type, and the function's name.
#[derive(Drop)]
pub struct HandlerFunction {
    pub kind: TypeId,
    pub function: Name,
}

/// The handlers that one layer establishes.
#[derive(Drop)]
pub enum Cluster {
    Functions(Rows<HandlerFunction>),
    /// The clauses of `handler-case`.
    Clauses(Forms),
    /// The one of `ignore-errors`, which takes errors and gives NIL.
    Ignoring,
}

/// A layer that has no part in requests, levels, protected forms, cleanups and questions: a form that waits for the value of one
/// of its parts, or a marker.
#[derive(Drop)]
pub enum Plain {
    /// A form that waits for the value of the part that was taken last, which isn't among its values yet; `cond` waits for the test of the
    /// first clause that is left.
    Form(Partial),
    /// `(progn _ f)`, where f is a redex.
    Before(Focus),
    /// `mapcar` or `mapc` that waits for a call; `next` is the place of the item after it.
    Map {
        function: Name,
        list: Rows<Value>,
        next: u64,
        collected: Option<Rows<Value>>,
    },
    /// A call of a user function.
    Call {
        function: Name,
        arguments: Rows<Value>,
    },
    /// An evaluation without lexical variables.
    Eval,
    /// A lexical binding.
    Lexical {
        variable: Name,
        value: Value,
    },
    /// A dynamic binding.
    Dynamic {
        variable: Name,
        value: Value,
    },
    Block(Name),
    /// A catch with its tag.
    Catch(Value),
    Handlers(Cluster),
    Restarts(Rows<Offer>),
    /// The handler of this place in the cluster of the layer of this number is running.
    Handling {
        layer: u64,
        index: u64,
    },
    /// Makes the reply of the nearest request from the value inside, with what was kept for that when the request's function began.
    Answer(Sexp),
}
