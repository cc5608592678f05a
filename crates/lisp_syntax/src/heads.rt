//! What stands in a form before its body.

ghost use Rattle.std.specs.Prelude.{◌≡◌, [], ◌∷◌, ◌++◌, map, codes, length, drop, take, IfOk};
ghost use Rattle.lisp_data.specs.Symbols.{cl, keyword, value_of_symbol};
ghost use Rattle.lisp_data.specs.declared.value.Value as value;
ghost use Rattle.lisp_syntax.specs.declared.operator.Operator.TheVariants as op;
ghost use Rattle.lisp_syntax.specs.Parts.{at_most_one_form, designator_form, marked, option_forms, options_forms, parameter_forms, report_forms, rest_marked, type_form, variables_form};
ghost use Rattle.lisp_syntax.specs.Rows.{assignment_forms, binding_form, handler_form, held_head, holder_lead, named_head, operator_symbol, row_items, spread};

use crate::operator::Operator;
use crate::values::{
    at_most_one, designator, parameters, symbol, type_form, variable, variables, with_option,
};
use lisp_data::{Boxed, Name, NoMemory, Pile, Rows, Text, TypeId, Value};
use std::alloc::Global;
use syntax_trees::{Binding, Designator, Holder, Init, Named, Parameters, Row};

/// The operator's symbol alone.
fn begun(alloc: Global, operator: Operator) -> Result<Rows<Value>, NoMemory>
    ensures { IfOk result (λ items. items ≡ operator_symbol operator ∷ []) }
{
    let mut items = Rows::new(alloc);
    items.push(Value::Sym(Name::common_lisp(alloc, operator.name())?))?;
    Ok(items)
}

/// The operator's symbol and one part.
fn headed(alloc: Global, operator: Operator, part: Value) -> Result<Rows<Value>, NoMemory>
    ensures { IfOk result (λ items. items ≡ operator_symbol operator ∷ part ∷ []) }
{
    let mut items = begun(alloc, operator)?;
    items.push(part)?;
    Ok(items)
}

// ---- heads that hold no subform

fn defun_head(alloc: Global, name: &Name, list: &Parameters) -> Result<Rows<Value>, NoMemory>
    ensures { IfOk result (λ items. items ≡ operator_symbol op.Defun ∷ value.Sym name.now ∷ value.List (parameter_forms list.now) ∷ []) }
{
    let mut items = headed(alloc, Operator::Defun, variable(name)?)?;
    items.push(parameters(alloc, list)?)?;
    Ok(items)
}

fn named_head(alloc: Global, named: Named, name: &Name) -> Result<Rows<Value>, NoMemory>
    ensures { IfOk result (λ items. items ≡ named_head named name.now) }
{
    let name = symbol(alloc, name)?;
    match named {
        Named::Block => headed(alloc, Operator::Block, name),
        Named::ReturnFrom => headed(alloc, Operator::ReturnFrom, name),
        Named::Call => {
            let mut items = Rows::new(alloc);
            items.push(name)?;
            Ok(items)
        }
    }
}

fn defpackage_head(
    alloc: Global,
    name: &Designator,
    uses: &Option<Rows<Designator>>,
    exports: &Option<Rows<Designator>>,
) -> Result<Rows<Value>, NoMemory>
    ensures { IfOk result (λ items. items ≡ operator_symbol op.Defpackage ∷ designator_form name.now ∷ options_forms (uses.now, exports.now)) }
{
    let items = headed(alloc, Operator::Defpackage, designator(alloc, name)?)?;
    let items = with_option(alloc, items, "USE", uses)?;
    with_option(alloc, items, "EXPORT", exports)
}

fn handler_head(alloc: Global, kind: TypeId, name: &Option<Name>) -> Result<Rows<Value>, NoMemory>
    ensures { IfOk result (λ items. items ≡ type_form kind ∷ at_most_one_form name.now ∷ []) }
{
    let mut items = Rows::new(alloc);
    items.push(type_form(alloc, kind)?)?;
    items.push(at_most_one(alloc, name)?)?;
    Ok(items)
}

fn restart_head(
    alloc: Global,
    name: &Name,
    parameters: &[Name],
    report: &Option<Boxed<Text>>,
) -> Result<Rows<Value>, NoMemory>
    ensures { IfOk result (λ items. items ≡ value.Sym name.now ∷ variables_form parameters.now ∷ report_forms report.now) }
{
    let mut items = Rows::new(alloc);
    items.push(variable(name)?)?;
    items.push(variables(alloc, parameters)?)?;
    if let Some(text) = report {
        items.push(Value::Sym(Name::keyword(alloc, "REPORT")?))?;
        items.push(Value::Str(text.get().copy(alloc)?))?;
    }
    Ok(items)
}

// ---- heads that hold subforms, which are taken off the forms

/// What stands in the form so far, and the forms that are left.
type Begun = (Rows<Value>, Pile<Value>);

/// `V`, `(V)` or `(V E)`
fn binding(alloc: Global, binding: &Binding, form: Value) -> Result<Value, NoMemory>
    ensures { IfOk result (λ made. made ≡ binding_form binding.now form) }
{
    let name = variable(&binding.variable)?;
    match binding.init {
        Init::Bare => Ok(name),
        Init::Empty => Value::list(alloc, [name]),
        Init::Form => Value::list(alloc, [name, form]),
    }
}

fn bindings(alloc: Global, bindings: &[Binding], forms: Pile<Value>) -> Result<Begun, NoMemory>
    ensures items { IfOk result (λ r. r.0 ≡ spread binding_form bindings.now forms) }
    ensures rest { IfOk result (λ r. r.1 ≡ drop (length bindings.now) forms) }
{
    let mut items = Rows::new(alloc);
    let mut forms = forms;
    let mut rest = bindings;
    while let [first, more @ ..] = rest {
        let Some(form) = forms.pop() else {
            return Ok((items, forms));
        };
        items.push(binding(alloc, first, form)?)?;
        rest = more;
    }
    Ok((items, forms))
}

fn handlers(alloc: Global, kinds: &[TypeId], forms: Pile<Value>) -> Result<Begun, NoMemory>
    ensures items { IfOk result (λ r. r.0 ≡ spread handler_form kinds.now forms) }
    ensures rest { IfOk result (λ r. r.1 ≡ drop (length kinds.now) forms) }
{
    let mut items = Rows::new(alloc);
    let mut forms = forms;
    let mut rest = kinds;
    while let [kind, more @ ..] = rest {
        let Some(form) = forms.pop() else {
            return Ok((items, forms));
        };
        items.push(Value::list(alloc, [type_form(alloc, *kind)?, form])?)?;
        rest = more;
    }
    Ok((items, forms))
}

fn assignments(alloc: Global, names: &[Name], forms: Pile<Value>) -> Result<Begun, NoMemory>
    ensures items { IfOk result (λ r. r.0 ≡ operator_symbol op.Setq ∷ assignment_forms names.now forms) }
    ensures rest { IfOk result (λ r. r.1 ≡ drop (length names.now) forms) }
{
    let mut items = begun(alloc, Operator::Setq)?;
    let mut forms = forms;
    let mut rest = names;
    while let [name, more @ ..] = rest {
        let Some(form) = forms.pop() else {
            return Ok((items, forms));
        };
        items.push(variable(name)?)?;
        items.push(form)?;
        rest = more;
    }
    Ok((items, forms))
}

/// These items, and behind them so many of the forms.
fn with_forms(items: Rows<Value>, count: usize, forms: Pile<Value>) -> Result<Begun, NoMemory>
    ensures items { IfOk result (λ r. r.0 ≡ items ++ take count forms) }
    ensures rest { IfOk result (λ r. r.1 ≡ drop count forms) }
{
    let mut items = items;
    let mut forms = forms;
    let mut left = count;
    while left > 0 {
        let Some(form) = forms.pop() else {
            return Ok((items, forms));
        };
        items.push(form)?;
        left -= 1;
    }
    Ok((items, forms))
}

/// `(let (B..)` and `(let* (B..)`
fn let_head(
    alloc: Global,
    operator: Operator,
    list: &[Binding],
    forms: Pile<Value>,
) -> Result<Begun, NoMemory>
    ensures items { IfOk result (λ r. r.0 ≡ operator_symbol operator ∷ value.List (spread binding_form list.now forms) ∷ []) }
    ensures rest { IfOk result (λ r. r.1 ≡ drop (length list.now) forms) }
{
    let (items, rest) = bindings(alloc, list, forms)?;
    Ok((headed(alloc, operator, Value::List(items))?, rest))
}

/// `(handler-bind ((TYPE E)..)`
fn handler_bind_head(alloc: Global, kinds: &[TypeId], forms: Pile<Value>) -> Result<Begun, NoMemory>
    ensures items { IfOk result (λ r. r.0 ≡ operator_symbol op.HandlerBind ∷ value.List (spread handler_form kinds.now forms) ∷ []) }
    ensures rest { IfOk result (λ r. r.1 ≡ drop (length kinds.now) forms) }
{
    let (items, rest) = handlers(alloc, kinds, forms)?;
    Ok((
        headed(alloc, Operator::HandlerBind, Value::List(items))?,
        rest,
    ))
}

/// `(dotimes (V E)`, `(dolist (V E)`, `(defvar V` and `(defparameter V`
fn held_head(
    alloc: Global,
    holder: Holder,
    name: &Name,
    forms: Pile<Value>,
) -> Result<Begun, NoMemory>
    ensures items { IfOk result (λ r. r.0 ≡ held_head holder name.now (take (holder_lead holder) forms)) }
    ensures rest { IfOk result (λ r. r.1 ≡ drop (holder_lead holder) forms) }
{
    let name = variable(name)?;
    match holder {
        Holder::DoTimes | Holder::DoList => {
            let mut items = Rows::new(alloc);
            items.push(name)?;
            let (items, rest) = with_forms(items, 1, forms)?;
            Ok((
                headed(alloc, Operator::Held(holder), Value::List(items))?,
                rest,
            ))
        }
        _ => Ok((headed(alloc, Operator::Held(holder), name)?, forms)),
    }
}

/// `(with-simple-restart (N CONTROL ARG..)`
fn control_head(
    alloc: Global,
    name: &Name,
    control: &Text,
    arguments: usize,
    forms: Pile<Value>,
) -> Result<Begun, NoMemory>
    ensures items { IfOk result (λ r. r.0 ≡ operator_symbol op.WithSimpleRestart ∷ value.List (value_of_symbol name.now ∷ value.Str control.now ∷ take arguments forms) ∷ []) }
    ensures rest { IfOk result (λ r. r.1 ≡ drop arguments forms) }
{
    let mut items = Rows::new(alloc);
    items.push(symbol(alloc, name)?)?;
    items.push(Value::Str(control.copy(alloc)?))?;
    let (items, rest) = with_forms(items, arguments, forms)?;
    let items = headed(alloc, Operator::WithSimpleRestart, Value::List(items))?;
    Ok((items, rest))
}

/// The head of a row's form with its subforms, and the forms that are left. They are all of the form's items, in their order.
#[tactic(auto, using(crate::proofs::HeadLemmas::spread_take, crate::proofs::HeadLemmas::assignments_take))]
pub fn head(alloc: Global, row: &Row, forms: Pile<Value>) -> Result<Begun, NoMemory>
    ensures { IfOk result (λ r. r.0 ++ r.1 ≡ row_items row.now forms) }
{
    let items = match row {
        Row::Let(list) => return let_head(alloc, Operator::Let, list.as_slice(), forms),
        Row::LetStar(list) => return let_head(alloc, Operator::LetStar, list.as_slice(), forms),
        Row::Setq(names) => return assignments(alloc, names.as_slice(), forms),
        Row::HandlerBind(kinds) => return handler_bind_head(alloc, kinds.as_slice(), forms),
        Row::Held(holder, name) => return held_head(alloc, *holder, name, forms),
        Row::WithSimpleRestart {
            name,
            control,
            arguments,
        } => return control_head(alloc, name, control.get(), *arguments, forms),
        Row::Literal(_) | Row::Variable(_) | Row::CondClause => Rows::new(alloc),
        Row::Quote(value) => headed(alloc, Operator::Quote, value.copy(alloc)?)?,
        Row::Function(name) => headed(alloc, Operator::Function, symbol(alloc, name)?)?,
        Row::Bare(bare) => begun(alloc, Operator::Bare(*bare))?,
        Row::Named(named, name) => named_head(alloc, *named, name)?,
        Row::Defun { name, parameters } => defun_head(alloc, name, parameters.get())?,
        Row::InPackage(name) => {
            headed(alloc, Operator::InPackage, designator(alloc, name.get())?)?
        },
        Row::Defpackage {
            name,
            uses,
            exports,
        } => defpackage_head(alloc, name.get(), uses.get(), exports.get())?,
        Row::HandlerClause { kind, variable } => handler_head(alloc, *kind, variable)?,
        Row::RestartClause {
            name,
            parameters,
            report,
        } => restart_head(alloc, name, parameters.get().as_slice(), report)?,
    };
    Ok((items, forms))
}
