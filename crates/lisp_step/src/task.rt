ghost use Rattle.std.specs.Prelude.{◌≡◌};
ghost use Rattle.lisp_step.specs.Rows.{part_of, task_of};

use lisp_data::{Pile, Sexp};
use rpc_messages::Pattern;
use sexp_reader::Placed;
use term_model::{Focus, Origin, Outcome, Plain};

/// What a redex asks for, of the rows that are built.
#[derive(Drop)]
pub(crate) enum Task {
    Wait(Pattern),
    /// To evaluate these forms of a text.
    Run {
        forms: Pile<Placed>,
        origin: Option<Origin>,
    },
    /// To give an outcome to the layer that is directly around it.
    Give(Outcome),
    /// To call the function of the nearest request.
    Call,
    /// Every other redex leaves.
    Leave,
}

/// What a redex asks for.
pub(crate) fn task_of(redex: Focus) -> Task
    ensures { result ≡ task_of redex }
{
    match redex {
        Focus::Wait(pattern) => Task::Wait(pattern),
        Focus::Forms { forms, origin } => Task::Run { forms, origin },
        Focus::Given(outcome) => Task::Give(outcome),
        Focus::Rpc => Task::Call,
        _ => Task::Leave,
    }
}

/// What a plain layer does with an outcome.
#[derive(Drop)]
pub(crate) enum Part {
    /// This redex was put off.
    Before(Focus),
    /// A value makes the reply, with what was kept.
    Answer(Sexp),
    /// The outcome goes on to what is around.
    Other,
}

/// What this layer does with an outcome.
pub(crate) fn part_of(layer: Plain) -> Part
    ensures { result ≡ part_of layer }
{
    match layer {
        Plain::Before(redex) => Part::Before(redex),
        Plain::Answer(kept) => Part::Answer(kept),
        _ => Part::Other,
    }
}
