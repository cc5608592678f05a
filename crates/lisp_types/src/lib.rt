//! The types of values and of conditions: the type of a name, which type is a subtype of which, and the type of a value.
//!
//! The table of direct parents is data, with one definition in `specs/Types.antt` and one match here. What the crates above use
//! is that [`is_kind`] holds exactly where a chain of direct parents leads from one type to the other, and that definitions
//! compute with it (`specs/Kinds.antt`). No call takes memory.
#![tactic(auto)]

#[cfg(test)]
mod tests;

ghost use Rattle.std.specs.Prelude.{◌≡◌, ◌↔◌, IsTrue, Some};
ghost use Rattle.lisp_data.specs.declared.type_id.TypeId.{TypeId};
ghost use Rattle.lisp_data.specs.TypeNames.{name_of};
ghost use Rattle.lisp_types.specs.Kinds.{is_kind, type_by_name};
ghost use Rattle.lisp_types.specs.Types.{parents_of, type_of, IsA};

use lisp_data::{Condition, TypeId, Value};

const ALL: [TypeId; 26] = [
    TypeId::T,
    TypeId::Condition,
    TypeId::SeriousCondition,
    TypeId::SimpleCondition,
    TypeId::Warning,
    TypeId::Error,
    TypeId::StorageCondition,
    TypeId::SimpleError,
    TypeId::SimpleWarning,
    TypeId::StyleWarning,
    TypeId::ArithmeticError,
    TypeId::CellError,
    TypeId::ControlError,
    TypeId::ProgramError,
    TypeId::TypeError,
    TypeId::DivisionByZero,
    TypeId::UnboundVariable,
    TypeId::UndefinedFunction,
    TypeId::List,
    TypeId::Symbol,
    TypeId::String,
    TypeId::Number,
    TypeId::Cons,
    TypeId::Null,
    TypeId::Keyword,
    TypeId::Integer,
];

/// The type of that name, which is compared as it stands: a type's name is in upper case.
pub fn type_by_name(name: &str) -> Option<TypeId>
    ensures value { result ≡ type_by_name name.now }
    ensures law { (t : TypeId) → (result ≡ Some t) ↔ (name.now ≡ name_of t) }
{
    first_named(name)
}

#[tactic(auto, unfolding(crate::specs::Kinds::type_by_name))]
fn first_named(name: &str) -> Option<TypeId>
    ensures { result ≡ type_by_name name.now }
{
    ALL.iter().copied().find(|t| t.name() == name)
}

fn parents_of(t: TypeId) -> &'static [TypeId]
    ensures { result.now ≡ parents_of t }
{
    match t {
        TypeId::T => &[],
        TypeId::Condition => &[TypeId::T],
        TypeId::SeriousCondition => &[TypeId::Condition],
        TypeId::SimpleCondition => &[TypeId::Condition],
        TypeId::Warning => &[TypeId::Condition],
        TypeId::Error => &[TypeId::SeriousCondition],
        TypeId::StorageCondition => &[TypeId::SeriousCondition],
        TypeId::SimpleError => &[TypeId::SimpleCondition, TypeId::Error],
        TypeId::SimpleWarning => &[TypeId::SimpleCondition, TypeId::Warning],
        TypeId::StyleWarning => &[TypeId::Warning],
        TypeId::ArithmeticError => &[TypeId::Error],
        TypeId::CellError => &[TypeId::Error],
        TypeId::ControlError => &[TypeId::Error],
        TypeId::ProgramError => &[TypeId::Error],
        TypeId::TypeError => &[TypeId::Error],
        TypeId::DivisionByZero => &[TypeId::ArithmeticError],
        TypeId::UnboundVariable => &[TypeId::CellError],
        TypeId::UndefinedFunction => &[TypeId::CellError],
        TypeId::List => &[TypeId::T],
        TypeId::Symbol => &[TypeId::T],
        TypeId::String => &[TypeId::T],
        TypeId::Number => &[TypeId::T],
        TypeId::Cons => &[TypeId::List],
        TypeId::Null => &[TypeId::Symbol, TypeId::List],
        TypeId::Keyword => &[TypeId::Symbol],
        TypeId::Integer => &[TypeId::Number],
    }
}

/// Whether each value of the first type is one of the second (HyperSpec, function SUBTYPEP).
pub fn is_kind(a: TypeId, b: TypeId) -> bool
    ensures value { result ≡ is_kind a b }
    ensures law { IsTrue result ↔ IsA a b }
{
    if a == b {
        return true;
    }
    for parent in parents_of(a) {
        if is_kind(*parent, b) {
            return true;
        }
    }
    false
}

/// A law of all types: the test holds exactly where a chain of direct parents leads from one to the other. The body is empty,
/// since the law is about the definitions.
pub fn kinds_are_chains()
    ensures { (a b : TypeId) → IsTrue (is_kind a b) ↔ IsA a b }
{}

/// The most specific type of a value (HyperSpec, function TYPE-OF).
pub fn type_of(value: &Value) -> TypeId
    ensures { result ≡ type_of value.now }
{
    match value {
        Value::Int(_) => TypeId::Integer,
        Value::Str(_) => TypeId::String,
        Value::Sym(name) if name.symbol().is_keyword() => TypeId::Keyword,
        Value::Sym(_) => TypeId::Symbol,
        Value::List(items) if items.is_empty() => TypeId::Null,
        Value::List(_) => TypeId::Cons,
        Value::Cond(condition) => type_of_condition(condition.get()),
    }
}

/// The type of a condition, its own kind.
pub fn type_of_condition(c: &Condition) -> TypeId
    ensures { result ≡ c.now.kind }
{
    c.kind
}
