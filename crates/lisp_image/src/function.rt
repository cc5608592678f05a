use lisp_data::{Name, Rows, Text};
use syntax_trees::Forms;

/// Where a function's text stands: the buffer, the position of the text in it, and the place of the form in the text, in characters.
#[derive(Drop)]
pub struct Place {
    pub buffer: Text,
    pub position: i64,
    pub offset: u64,
}

/// A user function: its parameters, its body, and where its text stands, if that is known.
pub struct Function {
    pub required: Rows<Name>,
    pub optional: Rows<Name>,
    pub rest: Option<Name>,
    pub body: Forms,
    pub source: Option<Place>,
}

impl Drop for Function {
    fn drop(self) {
        let Function {
            required: _,
            optional: _,
            rest: _,
            body: _,
            source: _,
        } = self;
    }
}
