ghost use Rattle.std.specs.Prelude.{◌≡◌, IfOk};
ghost use Rattle.lisp_data.specs.declared.value.Condition.{Condition};
ghost use Rattle.lisp_errors.specs.Limits.{is_too_large, is_condition_too_large, value_too_large, limited};

use crate::fixed::fixed;
use lisp_data::{Condition, NoMemory, TypeId, Value};
use std::alloc::Global;

/// The weight that no value passes.
pub const MAX_WEIGHT: u64 = 1 << 20;

/// The depth that no value passes.
pub const MAX_DEPTH: u64 = 1_000;

/// Whether a value weighs too much or is too deep to be one.
#[tactic(auto, unfolding(crate::specs::Limits::is_too_large))]
pub fn is_too_large(value: &Value) -> bool
    ensures { result ≡ is_too_large value.now }
{
    value.weight() > MAX_WEIGHT || value.depth() > MAX_DEPTH
}

/// The same of a condition.
#[tactic(auto, unfolding(crate::specs::Limits::is_condition_too_large))]
pub fn is_condition_too_large(condition: &Condition) -> bool
    ensures { result ≡ is_condition_too_large condition.now }
{
    condition.weight() > MAX_WEIGHT || condition.depth() > MAX_DEPTH
}

/// What is raised in place of a value, a condition or a text that is too large.
#[tactic(auto, unfolding(crate::specs::Limits::value_too_large))]
pub fn value_too_large(alloc: Global) -> Result<Condition, NoMemory>
    ensures { IfOk result (λ c. c ≡ value_too_large) }
{
    fixed(alloc, TypeId::StorageCondition, "Value too large.")
}

/// The condition that is raised in place of this one: itself, or, where it is too large, the one that says so.
#[tactic(auto, unfolding(crate::specs::Limits::limited))]
pub fn limited(alloc: Global, condition: Condition) -> Result<Condition, NoMemory>
    ensures { IfOk result (λ c. c ≡ limited condition) }
{
    if is_condition_too_large(&condition) {
        Ok(value_too_large(alloc)?)
    } else {
        Ok(condition)
    }
}
