use crate::{Ask, Focus, Found, Leaving, Outcome, Plain};
use lisp_data::{Condition, Rows, Text};
use rpc_messages::Pattern;
use syntax_trees::{Code, Forms};

/// What a row of the table of steps comes to, in place of the redex and of what the row has done before.
#[derive(Drop)]
pub enum End {
    /// This form stands there, in these markers, the outermost first.
    Goes(Rows<Plain>, Found),
    /// This outcome stands there.
    Gives(Outcome),
    /// This condition is raised there: the handlers are searched, and then the debugger is entered.
    Raises(Condition),
    /// This redex stands there, which was put off by an interrupt or by the forms before it.
    Resumes(Focus),
    /// A protected form, a cleanup or a request has this outcome, which is the redex.
    Passes(Outcome),
    /// A form is protected by a cleanup.
    Protects { form: Code, cleanup: Forms },
    /// A question of this kind, with its text, is asked.
    Asks(Ask, Text),
    /// The debugger is entered on a condition.
    Opens(Condition),
    /// The debugger is entered by an interrupt, which came upon this outcome.
    Breaks(Outcome),
    /// An exit.
    Exits(Leaving),
    /// A message is taken.
    Takes(Pattern),
    /// The session is closed.
    Closes,
}
