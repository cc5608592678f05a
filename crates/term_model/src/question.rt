/// The kind of a question to Emacs: one for a line of text, or one for yes or no.
#[derive(Clone, Copy, Debug, PartialEq, Eq)]
pub enum Ask {
    String,
    YesNo,
}
