use lisp_data::{Name, NoMemory, Rows, Shared, Symbol, Text, Value};
use lisp_syntax::unparse;
use std::alloc::Global;
use std::test::Fail;
use syntax_trees::{Ast, Bare, Row};

fn variable(alloc: Global) -> Result<Name, NoMemory> {
    let symbol = Symbol {
        home: Text::of(alloc, "COMMON-LISP-USER")?,
        name: Text::of(alloc, "X")?,
    };
    Name::new(alloc, symbol)
}

fn node(alloc: Global, row: Row, forms: Rows<Ast>) -> Result<Ast, NoMemory> {
    Ok(Ast {
        row,
        forms: Shared::new(alloc, forms)?,
    })
}

/// The tree of `(when x 7)`.
fn tree(alloc: Global) -> Result<Ast, NoMemory> {
    let name = variable(alloc)?;
    let mut forms = Rows::new(alloc);
    forms.push(node(alloc, Row::Variable(name), Rows::new(alloc))?)?;
    forms.push(node(alloc, Row::Literal(Value::Int(7)), Rows::new(alloc))?)?;
    node(alloc, Row::Bare(Bare::When), forms)
}

/// `(when x 7)`.
fn form(alloc: Global) -> Result<Value, NoMemory> {
    let operator = Value::Sym(Name::common_lisp(alloc, "WHEN")?);
    let variable = Value::Sym(variable(alloc)?);
    Value::list(alloc, [operator, variable, Value::Int(7)])
}

/// The form of this tree.
fn unparsed(alloc: Global, tree: Ast) -> Result<Value, NoMemory> {
    unparse(alloc, &tree)
}

#[test]
fn a_tree_gives_its_form_where_memory_is_there(rt: HostRuntime) -> Result<(), Fail> {
    let alloc = rt.alloc();
    let made = unparsed(alloc, tree(alloc)?)?;
    let form = form(alloc)?;
    assert!(rt; made.same(&form));
    Ok(())
}
