//! The stack of a thread: the layers of its term, its redex, and the serial of its next protected form.
//!
//! The frames and the redex are the types of `term_model`, which are passed on here. The layer above uses that a [`Stack`] is the
//! record of `specs/Stack.antt`: a context, the innermost layer first, with its redex and a serial. Each call is an equation on that
//! record with the definitions of `term_model`: how variables are found, how evaluation goes into a form, and how many layers there
//! may be.
#![tactic(auto)]

mod changes;
mod look_ups;
mod room;
mod sought;
mod stack;

pub use going_in::{advance, body, cond, look};
pub use sought::Sought;
pub use stack::{PushFault, Stack};
pub use term_model::{
    Action, Ask, Bound, Bring, Cluster, Focus, Found, Frame, HandlerFunction, Offer, Origin,
    Outcome, Partial, Plain, Restart, Saved,
};
