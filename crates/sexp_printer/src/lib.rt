//! The text of a form or of a value.
//!
//! A form prints as wire text ([`print_wire`]), which the peer reads, and as text to be shown ([`print_form`]); a value prints as
//! user text ([`print_user`]). Each text is a definition of the whole tree: `printed` and `shown` in `specs/Printed.antt`,
//! `user_text` in `specs/UserText.antt`. Printing takes time and memory in proportion to its text; [`user_length`] tells how long
//! a user text is before any of it is made.
#![tactic(auto)]

mod form;
mod law;
mod length;
mod piece;
mod value;

pub use form::{print_form, print_wire};
pub use law::printed_again;
pub use length::user_length;
pub use value::print_user;

#[cfg(test)]
mod tests;
