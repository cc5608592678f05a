use lisp_data::Sexp;

/// A form of a text, and how many characters of the text stand before it.
#[derive(Drop)]
pub struct Placed {
    pub form: Sexp,
    pub at: u64,
}
