//! The functions that a request from Emacs may call: those of SLIME's packages SWANK and SWANK-REPL.
//!
//! A request's form is called by [`call_rpc`], which answers at once or gives the forms of a text that are to be evaluated; [`end_rpc`]
//! makes the reply of their value. What the layer above uses is that both answer what the table of functions says: `called` in
//! `specs/Commands.antt` and `ended` in `specs/Finishes.antt`, which stand in the table of steps as `command` and `finish`. How a head
//! names a function stands in `specs/Names.antt`, what a call's arguments are in `specs/Calls.antt`, and the parts of the answers in
//! `specs/Info.antt`, `specs/Texts.antt` and `specs/Kept.antt`. [`is_served`] tells whether the function of a form is built.
#![tactic(auto)]

mod answer;
mod call;
mod calling;
mod ending;
mod function;
mod kept;
mod laws;
mod packages;
mod refusal;
mod text;

pub use answer::Answer;
pub use call::is_served;
pub use calling::call_rpc;
pub use ending::end_rpc;
pub use laws::{
    calls_bind_their_package, each_function_is_found_by_its_name, requests_are_carried_out,
};
