/// As what a value in a form is read.
#[derive(Clone, Copy, PartialEq, Eq)]
pub enum Sort {
    Form,
    CondClause,
    HandlerClause,
    RestartClause,
}
