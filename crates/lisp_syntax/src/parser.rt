ghost use Rattle.std.specs.Prelude.{◌≡◌, [], map, IfOk};
ghost use Rattle.lisp_data.specs.Parts.{nil};
ghost use Rattle.lisp_data.specs.Value.{depth_of};
ghost use Rattle.lisp_syntax.specs.Fits.{Gives, IsBelow, Plants, after, fitting_of, written};
ghost use Rattle.lisp_syntax.specs.Parsing.{each, item, node, parsed, parsed_item, subforms};
ghost use Rattle.lisp_syntax.specs.Rows.{fitting};
ghost use Rattle.lisp_syntax.specs.declared.sort.Sort.TheVariants as sort;

use crate::fault::ParseFault;
use crate::fit::{Fit, Misfit};
use crate::rows::row_of;
use crate::shape::body_sort;
use crate::sort::Sort;
use lisp_data::{NoMemory, Rows, Shared, Value};
use std::alloc::Global;
use syntax_trees::{Ast, Row};

/// The row of a value, which is itself the bad form where none fits.
#[tactic(auto, using(crate::proofs::Parses::planted_none))]
fn fit(alloc: Global, sort: Sort, value: &Value) -> Result<Fit, ParseFault>
    ensures row { Plants result (parsed_item (item sort value.now)) }
    ensures below { IfOk result (λ fit. IsBelow (depth_of value.now) (fitting_of fit)) }
{
    match row_of(alloc, sort, value) {
        Ok(fit) => Ok(fit),
        Err(Misfit::NoRow) => Err(ParseFault::Syntax(value.copy(alloc)?)),
        Err(Misfit::NoMemory) => Err(ParseFault::NoMemory),
    }
}

/// No forms, which all the leaves of a tree share.
type NoForms = Shared<Rows<Ast>>;

/// The tree of a row with these subtrees.
fn tree(alloc: Global, none: &NoForms, row: Row, trees: Rows<Ast>) -> Result<Ast, NoMemory>
    requires { none.now ≡ [] }
    ensures { IfOk result (λ tree. tree ≡ node row trees) }
{
    let forms = if trees.is_empty() {
        none.share()?
    } else {
        Shared::new(alloc, trees)?
    };
    Ok(Ast { row, forms })
}

/// The tree of a NIL that isn't written.
#[tactic(auto, using(crate::proofs::Parses::parsed_nil))]
fn nil_tree(alloc: Global, none: &NoForms) -> Result<Ast, ParseFault>
    requires { none.now ≡ [] }
    ensures { Gives result (parsed_item (item sort.Form nil)) }
{
    Ok(tree(
        alloc,
        none,
        Row::Literal(Value::nil(alloc)),
        Rows::new(alloc),
    )?)
}

/// An empty row with room for so many trees, of which there are no more than the form has subforms.
fn room(alloc: Global, lead: usize, body: usize) -> Result<Rows<Ast>, NoMemory>
    ensures { IfOk result (λ trees. trees ≡ []) }
{
    let items = Vec::with_capacity(alloc, lead.saturating_add(body))?;
    Ok(Rows::from_vec(items))
}

/// The tree of a form, or the first bad form in it. It recurses once for each level of the form, and takes its memory for the tree alone.
pub fn parse_form(alloc: Global, form: &Value) -> Result<Ast, ParseFault>
    ensures { Gives result (parsed form.now) }
{
    let none = Shared::new(alloc, Rows::new(alloc))?;
    tree_of(alloc, &none, Sort::Form, form)
}

#[cycle(parse)]
fn tree_of(alloc: Global, none: &NoForms, sort: Sort, value: &Value) -> Result<Ast, ParseFault>
    requires { none.now ≡ [] }
    ensures { Gives result (parsed_item (item sort value.now)) }
{
    let Fit { row, lead, body } = fit(alloc, sort, value)?;
    let trees = subtrees(alloc, none, &row, lead.as_slice(), body)?;
    Ok(tree(alloc, none, row, trees)?)
}

/// The trees of a row's subforms.
#[cycle(parse)]
fn subtrees(
    alloc: Global,
    none: &NoForms,
    row: &Row,
    lead: &[Option<&Value>],
    body: &[Value],
) -> Result<Rows<Ast>, ParseFault>
    requires { none.now ≡ [] }
    ensures { Gives result (each parsed_item (subforms (fitting row.now (map written lead.now) body.now))) }
{
    let trees = room(alloc, lead.len(), body.len())?;
    let trees = match lead_trees(alloc, none, trees, lead) {
        Ok(trees) => trees,
        Err(fault) => return Err(fault),
    };
    body_trees(alloc, none, trees, body_sort(row), body)
}

#[cycle(parse)]
fn lead_tree(alloc: Global, none: &NoForms, form: Option<&Value>) -> Result<Ast, ParseFault>
    requires { none.now ≡ [] }
    ensures { Gives result (parsed_item (item sort.Form (written form.entry))) }
{
    match form {
        Some(form) => tree_of(alloc, none, Sort::Form, form),
        None => nil_tree(alloc, none),
    }
}

/// These trees, and behind them those of the forms before the body.
#[cycle(parse)]
fn lead_trees(
    alloc: Global,
    none: &NoForms,
    trees: Rows<Ast>,
    forms: &[Option<&Value>],
) -> Result<Rows<Ast>, ParseFault>
    requires { none.now ≡ [] }
    ensures { Gives result (after trees (each parsed_item (map (item sort.Form) (map written forms.now)))) }
{
    let mut trees = trees;
    let mut rest = forms;
    while let [form, more @ ..] = rest {
        trees.push(lead_tree(alloc, none, *form)?)?;
        rest = more;
    }
    Ok(trees)
}

/// These trees, and behind them those of the values, which are read as this.
#[cycle(parse)]
fn body_trees(
    alloc: Global,
    none: &NoForms,
    trees: Rows<Ast>,
    sort: Sort,
    values: &[Value],
) -> Result<Rows<Ast>, ParseFault>
    requires { none.now ≡ [] }
    ensures { Gives result (after trees (each parsed_item (map (item sort) values.now))) }
{
    let mut trees = trees;
    let mut rest = values;
    while let [value, more @ ..] = rest {
        trees.push(tree_of(alloc, none, sort, value)?)?;
        rest = more;
    }
    Ok(trees)
}
