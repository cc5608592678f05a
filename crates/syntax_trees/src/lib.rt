//! The trees of forms: a row of the syntax with its own parts, and the list of its subforms.
//!
//! A tree says which row of the syntax a form fits and holds what evaluation needs of it, so that nothing is searched for when it runs.
//! There is one kind of node, [`Ast`]; nobody copies one: a subform, and a body from a place on, are places of a row of forms that many may
//! own ([`Code`], [`Forms`]). The crate that makes trees of forms is `lisp_syntax`; here stand the types alone, with what their symbols may be
//! in `specs/Symbols.antt` and the places of a row in `specs/Places.antt`.
#![tactic(auto)]

mod ast;
mod code;
mod forms;
mod row;

pub use ast::Ast;
pub use code::Code;
pub use forms::Forms;
pub use row::{Bare, Binding, Designator, Holder, Init, Named, Parameters, Row};
