//! Going into a form, and going on with the value of one of its parts.
//!
//! [`look`] says what going into a form meets first: that it is a value, that it is a redex, or its next part to evaluate with the layer
//! round that part. [`resumed`] says what a layer becomes with the value of what is inside it; [`advance`], [`body`] and [`cond`] are
//! how the rows go on that come a part at a time. What the layer above uses is that each answers what the definition of its name in
//! `term_model` says, for all rows. There is no stack here: `lisp_frames` puts the layers on one. Code is shared, and no form is copied.
#![tactic(auto)]

mod going;
mod needs;
mod resuming;

pub use going::{advance, body, cond, look};
pub use resuming::{Next, resumed};
