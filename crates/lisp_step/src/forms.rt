ghost use Rattle.std.specs.Prelude.{◌≡◌, ◌++◌, Some, IfOk, OnOk, is_some, true};
ghost use Rattle.lisp_packages.specs.Naming.{in_named, valued};
ghost use Rattle.step_model.specs.Requests.{before_forms, placed_found};
ghost use Rattle.step_model.specs.Roles.{role_of};
ghost use Rattle.lisp_syntax.specs.Parsing.{parsed};
ghost use Rattle.syntax_trees.specs.Places.{row_of};
ghost use Rattle.lisp_step.specs.Rows.{formed, gone, image_run, image_with, is_definition, packages_in, packages_with, resolved, runs, tree_of, tree_or_none, value_in};

use crate::going::{give_value, go};
use crate::leaving::leave;
use lisp_data::{NoMemory, Pile, Rows, Sexp, Text, Value};
use lisp_dynamic::current_package;
use lisp_frames::{Stack, look};
use lisp_image::Image;
use lisp_packages::{NameFault, Packages};
use lisp_syntax::{ParseFault, parse_form};
use rpc_messages::ToEmacs;
use sexp_reader::Placed;
use std::alloc::Global;
use syntax_trees::{Code, Row};
use term_model::{Focus, Found, Origin, Plain};

/// The value of a form where this package is current; None where it is refused. No symbol is made.
fn value_of(packages: &Packages, package: &Text, form: &Sexp) -> Result<Option<Value>, NoMemory>
    ensures { IfOk result (λ value. value ≡ value_in (in_named packages.now «package».now (λ i. valued i form.now packages.now))) }
{
    match packages.look(package, form) {
        Ok(value) => Ok(Some(value)),
        Err(NameFault::NoPackage(_)) => Ok(None),
        Err(NameFault::NotExternal(_, _)) => Ok(None),
        Err(NameFault::Clash) => Ok(None),
        Err(NameFault::NoMemory) => Err(NoMemory),
    }
}

/// The tree of a form, to be shared; None where it has none.
fn tree_of(alloc: Global, form: &Value) -> Result<Option<Code>, NoMemory>
    ensures { IfOk result (λ tree. tree ≡ tree_or_none (parsed form.now)) }
{
    match parse_form(alloc, form) {
        Ok(tree) => Ok(Some(Code::new(alloc, tree)?)),
        Err(ParseFault::Syntax(_)) => Ok(None),
        Err(ParseFault::NoMemory) => Err(NoMemory),
    }
}

/// Makes the symbols of a form that are new where this package is current. The form has a value there, so that only memory may be wanting.
fn make_symbols(packages: &mut Packages, package: &Text, form: &Sexp) -> Result<(), NoMemory>
    requires valued { is_some (value_in (in_named packages.old «package».now (λ i. valued i form.now packages.old))) ≡ true }
    ensures { OnOk result (packages.new ≡ packages_in packages.old (in_named packages.old «package».now (λ i. valued i form.now packages.old))) }
{
    match packages.value_of(package, form) {
        Ok(_) => Ok(()),
        Err(NameFault::NoPackage(_)) => unreachable!(),
        Err(NameFault::NotExternal(_, _)) => unreachable!(),
        Err(NameFault::Clash) => unreachable!(),
        Err(NameFault::NoMemory) => Err(NoMemory),
    }
}

/// The tree of a form of a text where this package is current, with its symbols in the packages; None where the form is refused, which makes
/// none.
fn resolve(
    alloc: Global,
    package: &Text,
    form: &Sexp,
    packages: &mut Packages,
) -> Result<Option<Code>, NoMemory>
    ensures tree { IfOk result (λ tree. tree ≡ tree_of (resolved packages.old «package».now form.now)) }
    ensures packages { OnOk result (packages.new ≡ packages_with packages.old (resolved packages.old «package».now form.now)) }
{
    let Some(value) = value_of(packages, package, form)? else {
        return Ok(None);
    };
    let tree = tree_of(alloc, &value)?;
    if tree.is_some() {
        make_symbols(packages, package, form)?;
    }
    Ok(tree)
}

/// The same in the packages of an image.
fn resolve_in(
    alloc: Global,
    package: &Text,
    form: &Sexp,
    image: &mut Image,
) -> Result<Option<Code>, NoMemory>
    ensures tree { IfOk result (λ tree. tree ≡ tree_of (resolved image.old.packages «package».now form.now)) }
    ensures image { OnOk result (image.new ≡ image_with image.old (resolved image.old.packages «package».now form.now)) }
{
    resolve(alloc, package, form, image.packages())
}

fn is_definition(row: &Row) -> bool
    ensures { result ≡ is_definition row.now }
{
    match row {
        Row::Defun { .. } => true,
        _ => false,
    }
}

/// What a form of a text meets first: a function's definition in a compiled text has its place there.
#[tactic(auto, using(crate::proofs::FormLemmas::placed_nowhere))]
fn placed_found(
    alloc: Global,
    tree: Code,
    origin: &Option<Origin>,
    at: u64,
) -> Result<Found, NoMemory>
    ensures { IfOk result (λ found. found ≡ placed_found tree (role_of (row_of tree)) origin.now at) }
{
    match origin {
        Some(origin) => placed_in(alloc, tree, origin, at),
        None => look(alloc, &tree),
    }
}

#[tactic(auto, using(crate::proofs::FormLemmas::placed_plain))]
fn placed_in(alloc: Global, tree: Code, origin: &Origin, at: u64) -> Result<Found, NoMemory>
    ensures { IfOk result (λ found. found ≡ placed_found tree (role_of (row_of tree)) (Some origin.now) at) }
{
    if !is_definition(&tree.get().row) {
        return look(alloc, &tree);
    }
    let origin = Origin {
        buffer: origin.buffer.copy(alloc)?,
        position: origin.position,
    };
    Ok(Found::Here(Focus::DefunAt {
        definition: tree,
        origin,
        at,
    }))
}

/// The marker of the forms that come next, where there are any.
fn before_forms(
    alloc: Global,
    forms: Pile<Placed>,
    origin: Option<Origin>,
) -> Result<Rows<Plain>, NoMemory>
    ensures { IfOk result (λ markers. markers ≡ before_forms forms origin) }
{
    let mut markers = Rows::new(alloc);
    if forms.is_empty() {
        return Ok(markers);
    }
    markers.push(Plain::Before(Focus::Forms { forms, origin }))?;
    Ok(markers)
}

/// Goes into the tree of a form, before the forms behind it.
fn go_into(
    alloc: Global,
    tree: Code,
    at: u64,
    rest: Pile<Placed>,
    origin: Option<Origin>,
    stack: &mut Stack,
) -> Result<(), NoMemory>
    ensures { OnOk result (stack.new ≡ gone stack.old (before_forms rest origin) (placed_found tree (role_of (row_of tree)) origin at)) }
{
    let found = placed_found(alloc, tree, &origin, at)?;
    let markers = before_forms(alloc, rest, origin)?;
    go(alloc, stack, markers, found)
}

/// Goes into the tree of a form, or leaves where the form was refused. It says whether it left; so below.
fn go_or_leave(
    alloc: Global,
    tree: Option<Code>,
    at: u64,
    rest: Pile<Placed>,
    origin: Option<Origin>,
    stack: &mut Stack,
    outs: &mut Rows<ToEmacs>,
) -> Result<bool, NoMemory>
    ensures stack { OnOk result (stack.new ≡ (formed stack.old at rest origin tree).stack) }
    ensures outs { OnOk result (outs.new ≡ outs.old ++ (formed stack.old at rest origin tree).messages) }
    ensures over { IfOk result (λ over. over ≡ (formed stack.old at rest origin tree).over) }
{
    match tree {
        Some(tree) => {
            go_into(alloc, tree, at, rest, origin, stack)?;
            Ok(false)
        }
        None => {
            leave(stack, outs)?;
            Ok(true)
        }
    }
}

/// Evaluates the first of these forms of a text, before the others; without one the value is NIL.
pub(crate) fn run(
    alloc: Global,
    forms: Pile<Placed>,
    origin: Option<Origin>,
    stack: &mut Stack,
    image: &mut Image,
    outs: &mut Rows<ToEmacs>,
) -> Result<bool, NoMemory>
    ensures stack { OnOk result (stack.new ≡ (runs image.old stack.old forms origin).stack) }
    ensures outs { OnOk result (outs.new ≡ outs.old ++ (runs image.old stack.old forms origin).messages) }
    ensures over { IfOk result (λ over. over ≡ (runs image.old stack.old forms origin).over) }
    ensures image { OnOk result (image.new ≡ image_run image.old stack.old.context forms) }
{
    let mut rest = forms;
    let Some(first) = rest.pop() else {
        give_value(alloc, stack, Value::nil(alloc))?;
        return Ok(false);
    };
    let package = current_package(alloc, stack, image)?;
    let tree = resolve_in(alloc, &package, &first.form, image)?;
    go_or_leave(alloc, tree, first.at, rest, origin, stack, outs)
}
