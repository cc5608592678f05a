ghost use Rattle.lisp_builtins.specs.Answers.{Answers, Makes};
ghost use Rattle.lisp_builtins.specs.Outcome.{answer_of, outcome};
ghost use Rattle.lisp_builtins.specs.Signatures.{signature_of};

use crate::answer::refuse_size;
use crate::conditions::of_new_condition;
use crate::lists::{
    of_index_and_list, of_lists, of_one_list, of_one_sequence, of_sequence_and_bounds,
    of_value_and_list, of_values,
};
use crate::numbers::{of_integers, of_one_integer, of_some_integers, of_two_integers};
use crate::signature::{Signature, signature_of};
use crate::texts::{of_one_name, of_one_symbol, of_two_names};
use crate::values::{of_one_value, of_two_values};
use crate::{BuiltinFault, Op};
use lisp_data::{Text, Value};
use lisp_errors::is_too_large;
use std::alloc::Global;

/// The answer, of which a value may be too large.
#[tactic(auto, using(crate::proofs::SizeLemmas::answers_make))]
fn answer(
    alloc: Global,
    signature: Signature,
    op: Op,
    args: &[Value],
    package: &Text,
) -> Result<Value, BuiltinFault>
    ensures { Makes result (answer_of signature op «package».now args.now) }
{
    match signature {
        Signature::Integers(f) => of_integers(alloc, f, args, package),
        Signature::SomeIntegers(f) => of_some_integers(alloc, f, op, args, package),
        Signature::TwoIntegers(f) => of_two_integers(alloc, f, op, args, package),
        Signature::OneInteger(f) => of_one_integer(alloc, f, op, args, package),
        Signature::OneValue(f) => of_one_value(alloc, f, op, args, package),
        Signature::TwoValues(f) => of_two_values(alloc, f, op, args, package),
        Signature::Values => of_values(alloc, args),
        Signature::Lists => of_lists(alloc, args, package),
        Signature::ValueAndList(f) => of_value_and_list(alloc, f, op, args, package),
        Signature::IndexAndList(f) => of_index_and_list(alloc, f, op, args, package),
        Signature::OneList(f) => of_one_list(alloc, f, op, args, package),
        Signature::OneSequence => of_one_sequence(alloc, op, args, package),
        Signature::SequenceAndBounds => of_sequence_and_bounds(alloc, op, args, package),
        Signature::OneName(f) => of_one_name(alloc, f, op, args, package),
        Signature::TwoNames => of_two_names(alloc, op, args, package),
        Signature::OneSymbol => of_one_symbol(alloc, op, args, package),
        Signature::NewCondition => of_new_condition(alloc, op, args, package),
    }
}

/// Calls a one-step function. The package is the full name of the current one, in which messages and texts name symbols.
#[tactic(auto, unfolding(crate::specs::Outcome::outcome))]
pub fn call_builtin(
    alloc: Global,
    op: Op,
    args: &[Value],
    package: &Text,
) -> Result<Value, BuiltinFault>
    ensures { Answers result (outcome op args.now «package».now) }
{
    match answer(alloc, signature_of(op), op, args, package) {
        Ok(value) => {
            if is_too_large(&value) {
                return refuse_size(alloc);
            }
            Ok(value)
        }
        Err(BuiltinFault::Raised(condition)) => Err(BuiltinFault::Raised(condition)),
        Err(BuiltinFault::NoMemory) => Err(BuiltinFault::NoMemory),
    }
}
