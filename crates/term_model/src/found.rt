use crate::{Focus, Partial};
use lisp_data::Value;
use syntax_trees::Code;

/// What going into a form meets: that it is a value, that it is a redex, or its next part to evaluate and the form that waits for it.
#[derive(Drop)]
pub enum Found {
    Already(Value),
    Here(Focus),
    Inside(Partial, Code),
}
