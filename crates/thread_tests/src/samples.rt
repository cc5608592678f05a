//! Parts of terms that several tests use.

use lisp_data::{Name, NoMemory, Rows, Shared, Symbol, Text, Value};
use std::alloc::Global;
use syntax_trees::{Ast, Row};

/// A symbol of COMMON-LISP-USER.
pub(crate) fn symbol(alloc: Global, name: &str) -> Result<Symbol, NoMemory> {
    Ok(Symbol {
        home: Text::of(alloc, "COMMON-LISP-USER")?,
        name: Text::of(alloc, name)?,
    })
}

pub(crate) fn name(alloc: Global, name: &str) -> Result<Name, NoMemory> {
    Name::new(alloc, symbol(alloc, name)?)
}

/// A row of the syntax with these subforms.
pub(crate) fn node(alloc: Global, row: Row, forms: Rows<Ast>) -> Result<Ast, NoMemory> {
    let forms = Shared::new(alloc, forms)?;
    Ok(Ast { row, forms })
}

pub(crate) fn literal(alloc: Global, number: i64) -> Result<Ast, NoMemory> {
    node(alloc, Row::Literal(Value::Int(number)), Rows::new(alloc))
}

pub(crate) fn variable(alloc: Global, variable: &str) -> Result<Ast, NoMemory> {
    node(
        alloc,
        Row::Variable(name(alloc, variable)?),
        Rows::new(alloc),
    )
}

/// A form of this row with two subforms.
pub(crate) fn form_of(alloc: Global, row: Row, first: Ast, second: Ast) -> Result<Ast, NoMemory> {
    let mut forms = Rows::new(alloc);
    forms.push(first)?;
    forms.push(second)?;
    node(alloc, row, forms)
}

pub(crate) fn is_int(value: Option<&Value>, want: i64) -> bool {
    matches!(value, Some(Value::Int(found)) if *found == want)
}
