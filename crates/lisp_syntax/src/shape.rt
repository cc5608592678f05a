//! How many subforms the operators take that have no other parts.

ghost use Rattle.std.specs.Prelude.{◌≡◌, take, drop};
ghost use Rattle.lisp_syntax.specs.Rows.{bare_lead, bare_sort, body_sort, few, is_count, lead_of, many, may_follow, may_hold};

use crate::sort::Sort;
use lisp_data::Value;
use syntax_trees::{Bare, Holder, Named, Row};

/// At least how many subforms.
fn few(bare: Bare) -> usize
    ensures { result ≡ few bare }
{
    match bare {
        Bare::If | Bare::Throw => 2,
        Bare::When
        | Bare::Unless
        | Bare::Catch
        | Bare::UnwindProtect
        | Bare::HandlerCase
        | Bare::RestartCase => 1,
        _ => 0,
    }
}

/// At most how many, None where any number may stand.
fn many(bare: Bare) -> Option<usize>
    ensures { result ≡ many bare }
{
    match bare {
        Bare::If => Some(3),
        Bare::Return => Some(1),
        Bare::Throw => Some(2),
        _ => None,
    }
}

/// Whether the operator takes so many subforms.
pub fn is_count(bare: Bare, count: usize) -> bool
    ensures { result ≡ is_count bare count }
{
    few(bare) <= count
        && match many(bare) {
            None => true,
            Some(most) => count <= most,
        }
}

/// The subforms before the body, and the body.
pub fn split(bare: Bare, parts: &[Value]) -> (&[Value], &[Value])
    ensures lead { result.0.now ≡ take (bare_lead bare) parts.now }
    ensures body { result.1.now ≡ drop (bare_lead bare) parts.now }
{
    match bare {
        Bare::HandlerCase | Bare::RestartCase if !parts.is_empty() => parts.split_at(1),
        _ => parts.split_at(0),
    }
}

/// As what the subforms of the body are read.
pub fn body_sort(row: &Row) -> Sort
    ensures { result ≡ body_sort row.now }
{
    match row {
        Row::Bare(Bare::Cond) => Sort::CondClause,
        Row::Bare(Bare::HandlerCase) => Sort::HandlerClause,
        Row::Bare(Bare::RestartCase) => Sort::RestartClause,
        _ => Sort::Form,
    }
}

/// How many subforms stand before the body.
pub fn lead_of(row: &Row) -> usize
    ensures { result ≡ lead_of row.now }
{
    match row {
        Row::Bare(Bare::HandlerCase | Bare::RestartCase) => 1,
        Row::Held(Holder::DoTimes | Holder::DoList, _) => 1,
        Row::Let(bindings) | Row::LetStar(bindings) => bindings.len(),
        Row::Setq(variables) => variables.len(),
        Row::HandlerBind(kinds) => kinds.len(),
        Row::WithSimpleRestart { arguments, .. } => *arguments,
        _ => 0,
    }
}

/// Whether these forms may stand behind the symbol.
pub fn may_follow(named: Named, body: &[Value]) -> bool
    ensures { result ≡ may_follow named body.now }
{
    match named {
        Named::ReturnFrom => body.len() <= 1,
        _ => true,
    }
}

/// Whether these forms may stand behind the variable.
pub fn may_hold(holder: Holder, body: &[Value]) -> bool
    ensures { result ≡ may_hold holder body.now }
{
    match holder {
        Holder::Defvar => body.len() <= 1,
        Holder::Defparameter => body.len() == 1,
        _ => true,
    }
}
