ghost use Rattle.std.specs.Prelude.{◌≡◌, ◌++◌, [], IfOk, OnOk, drop};
ghost use Rattle.lisp_acts.specs.Amid.{Rest, amid};
ghost use Rattle.lisp_acts.specs.Runs.{run_by};
ghost use Rattle.step_model.specs.Perform.{clause_bound, condition_bound, parameters_bound, runs};
ghost use Rattle.step_model.specs.Roles.{role_of};

use crate::going::{give, give_value, go, lay};
use crate::runs::Runs;
use lisp_data::{Name, NoMemory, Pile, Rows, Value};
use lisp_frames::{Stack, body};
use std::alloc::Global;
use syntax_trees::{Code, Forms, Row};
use term_model::{Focus, Found, Plain};

/// The bindings of a clause's parameters to arguments: missing ones are NIL, further ones are dropped.
fn parameters_bound(
    alloc: Global,
    parameters: &[Name],
    args: Rows<Value>,
) -> Result<Rows<Plain>, NoMemory>
    ensures { IfOk result (λ markers. markers ≡ parameters_bound parameters.now args) }
{
    let mut left = Pile::of(args);
    let mut markers = Rows::new(alloc);
    'parameters: for parameter in parameters {
        let value = left.pop().unwrap_or_else(|| Value::nil(alloc));
        markers.push(Plain::Lexical {
            variable: parameter.share()?,
            value,
        })?;
    }
    Ok(markers)
}

/// The binding of the variable of a clause of `handler-case` to the first argument.
fn condition_bound(
    alloc: Global,
    variable: &Option<Name>,
    args: Rows<Value>,
) -> Result<Rows<Plain>, NoMemory>
    ensures { IfOk result (λ markers. markers ≡ condition_bound variable.now args) }
{
    let mut markers = Rows::new(alloc);
    let Some(variable) = variable else {
        return Ok(markers);
    };
    let value = Pile::of(args).pop().unwrap_or_else(|| Value::nil(alloc));
    markers.push(Plain::Lexical {
        variable: variable.share()?,
        value,
    })?;
    Ok(markers)
}

/// The bindings inside which a clause runs.
fn clause_bound(alloc: Global, row: &Row, args: Rows<Value>) -> Result<Rows<Plain>, NoMemory>
    ensures { IfOk result (λ markers. markers ≡ clause_bound (role_of row.now) args) }
{
    match row {
        Row::HandlerClause { variable, .. } => condition_bound(alloc, variable, args),
        Row::RestartClause { parameters, .. } => {
            parameters_bound(alloc, parameters.get().as_slice(), args)
        }
        _ => Ok(Rows::new(alloc)),
    }
}

/// Runs the body of a clause inside the bindings of its parameters.
fn run_clause(
    alloc: Global,
    clause: Code,
    args: Rows<Value>,
    stack: &mut Stack,
) -> Result<(), NoMemory>
    ensures { OnOk result ((r : Rest) → runs (amid r stack.old) clause args ≡ amid r stack.new) }
{
    let markers = clause_bound(alloc, &clause.get().row, args)?;
    let forms = Forms::of(clause.get().forms.share()?);
    let found = body(alloc, forms)?;
    go(alloc, stack, markers, found)?;
    Ok(())
}

/// Runs what was found at the target of an exit, with these arguments.
pub(crate) fn run_by(
    alloc: Global,
    found: Runs,
    args: Rows<Value>,
    stack: &mut Stack,
) -> Result<(), NoMemory>
    ensures { OnOk result ((r : Rest) → run_by (amid r stack.old) found args ≡ amid r stack.new) }
{
    match found {
        Runs::Nothing => give_value(alloc, stack, Value::nil(alloc))?,
        Runs::Clause(clause) => run_clause(alloc, clause, args, stack)?,
        Runs::Gives(outcome) => give(alloc, stack, outcome)?,
        Runs::Calls(function, arguments) => {
            let call = Focus::Apply {
                function,
                arguments,
            };
            lay(alloc, stack, Rows::new(alloc), Found::Here(call))?;
        }
    }
    Ok(())
}
