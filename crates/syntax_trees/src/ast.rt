use crate::Row;
use lisp_data::{Rows, Shared};

/// A form: its row, and its subforms in the order in which they are written.
#[derive(Drop)]
pub struct Ast {
    pub row: Row,
    pub forms: Shared<Rows<Ast>>,
}
