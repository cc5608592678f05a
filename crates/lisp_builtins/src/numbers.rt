ghost use Rattle.std.specs.Option.{option_copied};
ghost use Rattle.std.specs.Prelude.{◌≡◌, ◌++◌, IfOk};
ghost use Rattle.lisp_builtins.specs.Answers.{Answers};
ghost use Rattle.lisp_builtins.specs.Numbers.{computed_answer, is_integer, integers_in, first_other, total_of, of_integers, several_of, of_some_integers, pair_of, of_two_integers, single_of, of_one_integer};

use crate::answer::{refuse_kind, refuse_number};
use crate::signature::{Pair, Several, Single, Total};
use crate::{BuiltinFault, Op};
use lisp_data::{NoMemory, Rows, Text, Value};
use lisp_errors::{Wanted, division_by_zero, inexact_quotient, integer_out_of_range};
use lisp_numbers::{
    Computed, absolute, difference, each_pair, floor, greatest, is_even, least, modulo,
    predecessor, product, quotient, remainder, successor, sum, truncate,
};
use std::alloc::Global;

/// The answer of arithmetic.
pub fn computed_answer(alloc: Global, computed: Computed) -> Result<Value, BuiltinFault>
    ensures { Answers result (computed_answer computed) }
{
    match computed {
        Computed::Number(number) => Ok(Value::Int(number)),
        Computed::OutOfRange => Err(BuiltinFault::Raised(integer_out_of_range(alloc)?)),
        Computed::ZeroDivisor => Err(BuiltinFault::Raised(division_by_zero(alloc)?)),
        Computed::Inexact => Err(BuiltinFault::Raised(inexact_quotient(alloc)?)),
    }
}

pub fn is_integer(value: &Value) -> bool
    ensures { result ≡ is_integer value.now }
{
    matches!(value, Value::Int(_))
}

fn first_other(args: &[Value]) -> Option<&Value>
    ensures { option_copied result ≡ first_other args.now }
{
    args.iter().find(|value| !is_integer(value))
}

/// The integers among values.
fn integers_in(alloc: Global, args: &[Value]) -> Result<Rows<i64>, NoMemory>
    ensures { IfOk result (λ numbers. numbers ≡ integers_in args.now) }
{
    let mut numbers = Rows::new(alloc);
    let mut rest = args;
    while let [first, others @ ..] = rest {
        if let Value::Int(number) = first {
            numbers.push(*number)?;
        }
        rest = others;
    }
    Ok(numbers)
}

fn total(function: Total, numbers: &[i64]) -> Computed
    ensures { result ≡ total_of function numbers.now }
{
    match function {
        Total::Sum => sum(numbers),
        Total::Product => product(numbers),
    }
}

pub fn of_integers(
    alloc: Global,
    function: Total,
    args: &[Value],
    package: &Text,
) -> Result<Value, BuiltinFault>
    ensures { Answers result (of_integers function «package».now args.now) }
{
    if let Some(other) = first_other(args) {
        return refuse_kind(alloc, other, Wanted::Integer, package);
    }
    let numbers = integers_in(alloc, args)?;
    computed_answer(alloc, total(function, numbers.as_slice()))
}

fn several(
    alloc: Global,
    function: Several,
    op: Op,
    numbers: &[i64],
    package: &Text,
) -> Result<Value, BuiltinFault>
    ensures { Answers result (several_of function op «package».now numbers.now) }
{
    let [first, others @ ..] = numbers else {
        return refuse_number(alloc, op, package);
    };
    match function {
        Several::Difference => computed_answer(alloc, difference(*first, others)),
        Several::Least => Ok(Value::Int(least(*first, others))),
        Several::Greatest => Ok(Value::Int(greatest(*first, others))),
        Several::Compare(relation) => Ok(Value::truth(alloc, each_pair(relation, *first, others))?),
    }
}

pub fn of_some_integers(
    alloc: Global,
    function: Several,
    op: Op,
    args: &[Value],
    package: &Text,
) -> Result<Value, BuiltinFault>
    ensures { Answers result (of_some_integers function op «package».now args.now) }
{
    if let Some(other) = first_other(args) {
        return refuse_kind(alloc, other, Wanted::Integer, package);
    }
    let numbers = integers_in(alloc, args)?;
    several(alloc, function, op, numbers.as_slice(), package)
}

fn pair(alloc: Global, function: Pair, a: i64, b: i64) -> Result<Value, BuiltinFault>
    ensures { Answers result (pair_of function a b) }
{
    let computed = match function {
        Pair::Quotient => quotient(a, b),
        Pair::Floor => floor(a, b),
        Pair::Modulo => modulo(a, b),
        Pair::Truncate => truncate(a, b),
        Pair::Remainder => remainder(a, b),
        Pair::Differ => return Ok(Value::truth(alloc, a != b)?),
    };
    computed_answer(alloc, computed)
}

pub fn of_two_integers(
    alloc: Global,
    function: Pair,
    op: Op,
    args: &[Value],
    package: &Text,
) -> Result<Value, BuiltinFault>
    ensures { Answers result (of_two_integers function op «package».now args.now) }
{
    match args {
        [Value::Int(a), Value::Int(b)] => pair(alloc, function, *a, *b),
        [Value::Int(..), other] => refuse_kind(alloc, other, Wanted::Integer, package),
        [other, _] => refuse_kind(alloc, other, Wanted::Integer, package),
        _ => refuse_number(alloc, op, package),
    }
}

fn single(alloc: Global, function: Single, number: i64) -> Result<Value, BuiltinFault>
    ensures { Answers result (single_of function number) }
{
    match function {
        Single::Absolute => computed_answer(alloc, absolute(number)),
        Single::Successor => computed_answer(alloc, successor(number)),
        Single::Predecessor => computed_answer(alloc, predecessor(number)),
        Single::IsZero => Ok(Value::truth(alloc, number == 0)?),
        Single::IsPositive => Ok(Value::truth(alloc, number > 0)?),
        Single::IsNegative => Ok(Value::truth(alloc, number < 0)?),
        Single::IsEven => Ok(Value::truth(alloc, is_even(number))?),
        Single::IsOdd => Ok(Value::truth(alloc, !is_even(number))?),
    }
}

pub fn of_one_integer(
    alloc: Global,
    function: Single,
    op: Op,
    args: &[Value],
    package: &Text,
) -> Result<Value, BuiltinFault>
    ensures { Answers result (of_one_integer function op «package».now args.now) }
{
    match args {
        [Value::Int(number)] => single(alloc, function, *number),
        [other] => refuse_kind(alloc, other, Wanted::Integer, package),
        _ => refuse_number(alloc, op, package),
    }
}
