use lisp_data::{Name, NoMemory, Rows, Shared, Symbol, Value};
use std::alloc::Global;
use std::test::Fail;
use syntax_trees::{Ast, Bare, Code, Forms, Row};

fn leaf(alloc: Global, row: Row) -> Result<Ast, NoMemory> {
    Ok(Ast {
        row,
        forms: Shared::new(alloc, Rows::new(alloc))?,
    })
}

/// `(progn k 7)`.
fn tree(alloc: Global) -> Result<Ast, NoMemory> {
    let name = Name::new(alloc, Symbol::keyword(alloc, "K")?)?;
    let mut forms = Rows::new(alloc);
    forms.push(leaf(alloc, Row::Variable(name.share()?))?)?;
    forms.push(leaf(alloc, Row::Literal(Value::Int(7)))?)?;
    Ok(Ast {
        row: Row::Bare(Bare::Progn),
        forms: Shared::new(alloc, forms)?,
    })
}

fn is_variable(code: Code) -> bool {
    matches!(code.get().row, Row::Variable(_))
}

/// Whether a form has one more owner, and so have its subforms from the first and from the second on.
fn are_shared(alloc: Global, tree: Ast) -> Result<bool, NoMemory> {
    let other = Code::new(alloc, tree)?.share()?;
    let forms = Forms::of(other.get().forms.share()?);
    let first = forms.first()?;
    let has_first = first.map_or(false, is_variable);
    let rest = forms.share()?.rest();
    Ok(has_first && rest.len() == 1 && !rest.is_empty() && rest.as_slice().len() == 1)
}

#[test]
fn forms_are_shared_where_memory_is_there(rt: HostRuntime) -> Result<(), Fail> {
    let alloc = rt.alloc();
    let are_so = are_shared(alloc, tree(alloc)?)?;
    assert!(rt; are_so);
    Ok(())
}
