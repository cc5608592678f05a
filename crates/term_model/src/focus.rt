use crate::{Outcome, Partial};
use lisp_data::{Condition, Name, Pile, Rows, Text, Value};
use rpc_messages::Pattern;
use sexp_reader::Placed;
use syntax_trees::{Code, Forms};

/// A variable with its value.
#[derive(Drop)]
pub struct Bound {
    pub variable: Name,
    pub value: Value,
}

/// Where a text that is compiled stands: the buffer, and the position in it.
#[derive(Drop)]
pub struct Origin {
    pub buffer: Text,
    pub position: i64,
}

/// The redex: what the next step rewrites.
#[derive(Drop)]
pub enum Focus {
    /// An outcome in the layer that is directly around it.
    Given(Outcome),
    /// A form whose parts are evaluated, as far as it wants them before its own step.
    Form(Partial),
    /// The loop that has its block, before a turn.
    Loop(Forms),
    /// `dotimes` before the turn of this number, with the value of its count.
    DoTimes {
        variable: Name,
        turn: i64,
        count: Value,
        body: Forms,
    },
    /// `dolist` before the turn for the item at this place, with the value of its list.
    DoList {
        variable: Name,
        turn: u64,
        list: Value,
        body: Forms,
    },
    /// A function definition that is itself a form of a compiled text, with its place there in characters.
    DefunAt {
        definition: Code,
        origin: Origin,
        at: u64,
    },
    /// A call that a function makes.
    Apply {
        function: Name,
        arguments: Rows<Value>,
    },
    /// `mapcar`, which collects the values of its calls, or `mapc`, which doesn't, before the call for the item at this place.
    Map {
        function: Name,
        list: Rows<Value>,
        next: u64,
        collected: Option<Rows<Value>>,
    },
    /// Waiting for a message.
    Wait(Pattern),
    /// An interrupt, with the outcome that it came upon, if any.
    Break(Option<Outcome>),
    /// Leaving by the innermost visible ABORT.
    Abort,
    /// Searching the handlers for a condition.
    Signal(Condition),
    /// The same from after a handler, which declined: the number of its layer and its place in the cluster.
    SignalPast {
        condition: Condition,
        layer: u64,
        index: u64,
    },
    /// Entering the debugger.
    Enter(Condition),
    /// A warning that no handler took: its text is to be written.
    Warn(Condition),
    /// The function that the form of the nearest request calls.
    Rpc,
    /// The forms of a text, to be resolved and evaluated one after another; of a compiled text with its place.
    Forms {
        forms: Pile<Placed>,
        origin: Option<Origin>,
    },
}
