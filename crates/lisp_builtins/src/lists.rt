ghost use Rattle.std.specs.List.{find};
ghost use Rattle.std.specs.Option.{option_copied};
ghost use Rattle.std.specs.Prelude.{◌≡◌, ◌≤◌, ◌+◌, map, not, sum, Ok, IfOk, IfSome};
ghost use Rattle.lisp_data.specs.Sexp.{capped};
ghost use Rattle.lisp_data.specs.Value.{weight_of};
ghost use Rattle.lisp_data.specs.declared.value.Value.TheVariants as value;
ghost use Rattle.lisp_data.specs.declared.value.Value.TheViews.{out-Value};
ghost use Rattle.lisp_builtins.specs.Answers.{Answers, Makes};
ghost use Rattle.lisp_builtins.specs.Lists.{part_of, of_one_list, behind_of, of_index_and_list, joined_of, of_value_and_list, of_lists, of_one_sequence, integer_at, place_of, index_of, bounds_of, of_sequence_at, of_sequence_and_bounds};
ghost use Rattle.lisp_builtins.specs.Values.{is_list};
ghost use Rattle.lisp_builtins.specs.declared.signature.Joining.TheVariants as joining;
ghost use Rattle.lisp_sequences.specs.Lists.{append};

use crate::answer::{refuse_kind, refuse_number, refuse_size};
use crate::numbers::computed_answer;
use crate::signature::{Behind, Joining, Part};
use crate::values::is_list;
use crate::{BuiltinFault, Op};
use lisp_data::{Rows, Text, Value};
use lisp_errors::{MAX_WEIGHT, Wanted, wrong_kind};
use lisp_numbers::counted;
use lisp_sequences::{
    append, assoc, copy_items, last, member, nth, nthcdr, reverse, string_length, subseq, substring,
};
use std::alloc::Global;

/// What these items weigh together, at most 2^64 - 1.
fn items_weight(items: &[Value]) -> u64
    ensures { result ≡ capped (sum (map weight_of items.now)) }
{
    let mut total: u64 = 0;
    for item in items {
        total = total.saturating_add(item.weight());
    }
    total
}

/// The list of these items, which is not made where it would be too large.
fn listed(alloc: Global, items: &[Value]) -> Result<Value, BuiltinFault>
    ensures { Makes result (Ok (value.List items.now)) }
{
    if items_weight(items) >= MAX_WEIGHT {
        return refuse_size(alloc);
    }
    Ok(Value::List(copy_items(alloc, items)?))
}

fn part(alloc: Global, function: Part, items: &[Value]) -> Result<Value, BuiltinFault>
    ensures { Makes result (Ok (part_of function items.now)) }
{
    match function {
        Part::Item(at) => Ok(nth(alloc, items, at)?),
        Part::Rest => listed(alloc, nthcdr(items, 1)),
        Part::Last => listed(alloc, last(items)),
        Part::Reverse => Ok(Value::List(reverse(alloc, items)?)),
    }
}

pub fn of_one_list(
    alloc: Global,
    function: Part,
    op: Op,
    args: &[Value],
    package: &Text,
) -> Result<Value, BuiltinFault>
    ensures { Makes result (of_one_list function op «package».now args.now) }
{
    match args {
        [Value::List(items)] => part(alloc, function, items.as_slice()),
        [other] => refuse_kind(alloc, other, Wanted::List, package),
        _ => refuse_number(alloc, op, package),
    }
}

/// The item at an index, or the rest from there on.
fn behind(
    alloc: Global,
    function: Behind,
    index: &Value,
    at: i64,
    items: &[Value],
    package: &Text,
) -> Result<Value, BuiltinFault>
    ensures { Makes result (behind_of function «package».now index.now at items.now) }
{
    if at < 0 {
        return refuse_kind(alloc, index, Wanted::Index, package);
    }
    match function {
        Behind::Item => Ok(nth(alloc, items, at as usize)?),
        Behind::Rest => listed(alloc, nthcdr(items, at as usize)),
    }
}

pub fn of_index_and_list(
    alloc: Global,
    function: Behind,
    op: Op,
    args: &[Value],
    package: &Text,
) -> Result<Value, BuiltinFault>
    ensures { Makes result (of_index_and_list function op «package».now args.now) }
{
    let [index, list] = args else {
        return refuse_number(alloc, op, package);
    };
    match (index, list) {
        (Value::Int(at), Value::List(items)) => {
            behind(alloc, function, index, *at, items.as_slice(), package)
        }
        (Value::Int(_), other) => refuse_kind(alloc, other, Wanted::List, package),
        (other, _) => refuse_kind(alloc, other, Wanted::Integer, package),
    }
}

/// The list of a first item and the items behind it.
fn cons(alloc: Global, first: &Value, items: &[Value]) -> Result<Value, BuiltinFault>
    ensures { Makes result (Ok (joined_of joining.Cons first.now items.now)) }
{
    let mut list = Rows::new(alloc);
    list.push(first.copy(alloc)?)?;
    for item in items {
        list.push(item.copy(alloc)?)?;
    }
    Ok(Value::List(list))
}

fn joined(
    alloc: Global,
    function: Joining,
    value: &Value,
    items: &[Value],
) -> Result<Value, BuiltinFault>
    ensures { Makes result (Ok (joined_of function value.now items.now)) }
{
    match function {
        Joining::Cons => cons(alloc, value, items),
        Joining::Member => listed(alloc, member(value, items)),
        Joining::Assoc => Ok(assoc(alloc, value, items)?),
    }
}

pub fn of_value_and_list(
    alloc: Global,
    function: Joining,
    op: Op,
    args: &[Value],
    package: &Text,
) -> Result<Value, BuiltinFault>
    ensures { Makes result (of_value_and_list function op «package».now args.now) }
{
    match args {
        [value, Value::List(items)] => joined(alloc, function, value, items.as_slice()),
        [_, other] => refuse_kind(alloc, other, Wanted::List, package),
        _ => refuse_number(alloc, op, package),
    }
}

fn first_no_list(args: &[Value]) -> Option<&Value>
    ensures { option_copied result ≡ find (λ v. not (is_list v)) args.now }
{
    args.iter().find(|value| !is_list(value))
}

/// What the items of these lists weigh together, at most 2^64 - 1.
fn lists_weight(lists: &[Value]) -> u64
    ensures { result ≡ capped (sum (map weight_of (append lists.now))) }
{
    let mut total: u64 = 0;
    for list in lists {
        if let Value::List(items) = list {
            total = total.saturating_add(items_weight(items.as_slice()));
        }
    }
    total
}

/// The list of the items of these lists, which is not made where it would be too large.
fn appended(alloc: Global, lists: &[Value]) -> Result<Value, BuiltinFault>
    ensures { Makes result (Ok (value.List (append lists.now))) }
{
    if lists_weight(lists) >= MAX_WEIGHT {
        return refuse_size(alloc);
    }
    Ok(Value::List(append(alloc, lists)?))
}

pub fn of_lists(alloc: Global, args: &[Value], package: &Text) -> Result<Value, BuiltinFault>
    ensures { Makes result (of_lists «package».now args.now) }
{
    if let Some(other) = first_no_list(args) {
        return refuse_kind(alloc, other, Wanted::List, package);
    }
    appended(alloc, args)
}

/// The list of the arguments.
pub fn of_values(alloc: Global, args: &[Value]) -> Result<Value, BuiltinFault>
    ensures { Makes result (Ok (value.List args.now)) }
{
    listed(alloc, args)
}

pub fn of_one_sequence(
    alloc: Global,
    op: Op,
    args: &[Value],
    package: &Text,
) -> Result<Value, BuiltinFault>
    ensures { Answers result (of_one_sequence op «package».now args.now) }
{
    match args {
        [Value::List(items)] => computed_answer(alloc, counted(items.len())),
        [Value::Str(text)] => computed_answer(alloc, counted(string_length(text))),
        [other] => refuse_kind(alloc, other, Wanted::List, package),
        _ => refuse_number(alloc, op, package),
    }
}

/// Where a part begins, and before which place it ends.
#[derive(Clone, Copy)]
pub struct Bounds {
    pub from: usize,
    pub to: usize,
}

fn integer(alloc: Global, value: &Value, package: &Text) -> Result<i64, BuiltinFault>
    ensures { Answers result (integer_at «package».now value.now (out-Value value.now)) }
{
    match value {
        Value::Int(number) => Ok(*number),
        _ => Err(BuiltinFault::Raised(wrong_kind(alloc, value, Wanted::Integer, package)?)),
    }
}

fn place(at: i64, low: usize, high: usize) -> Option<usize>
    ensures value { result ≡ place_of at low high }
    ensures within { IfSome result (λ n. (low ≤ n) × (n ≤ high)) }
{
    if at < 0 {
        return None;
    }
    let at = at as usize;
    if low <= at && at <= high {
        Some(at)
    } else {
        None
    }
}

fn index(
    alloc: Global,
    value: &Value,
    place: Option<usize>,
    package: &Text,
) -> Result<usize, BuiltinFault>
    ensures value { Answers result (index_of «package».now value.now place) }
{
    match place {
        Some(at) => Ok(at),
        None => Err(BuiltinFault::Raised(wrong_kind(alloc, value, Wanted::Index, package)?)),
    }
}

fn checked_bounds(
    alloc: Global,
    from: &Value,
    to: Option<&Value>,
    count: usize,
    package: &Text,
) -> Result<Bounds, BuiltinFault>
    ensures value { Answers result (bounds_of «package».now from.now (option_copied to.entry) count) }
    ensures within { IfOk result (λ b. (b.from ≤ b.to) × (b.to ≤ count)) }
{
    let first = integer(alloc, from, package)?;
    let Some(end) = to else {
        let from = index(alloc, from, place(first, 0, count), package)?;
        return Ok(Bounds { from, to: count });
    };
    let second = integer(alloc, end, package)?;
    let from = index(alloc, from, place(first, 0, count), package)?;
    let to = index(alloc, end, place(second, from, count), package)?;
    Ok(Bounds { from, to })
}

fn of_sequence(
    alloc: Global,
    sequence: &Value,
    from: &Value,
    to: Option<&Value>,
    package: &Text,
) -> Result<Value, BuiltinFault>
    ensures { Makes result (of_sequence_at «package».now sequence.now (bounds_of «package».now from.now (option_copied to.entry)) (out-Value sequence.now)) }
{
    match sequence {
        Value::List(items) => {
            let bounds = checked_bounds(alloc, from, to, items.len(), package)?;
            listed(alloc, subseq(items.as_slice(), bounds.from, bounds.to))
        }
        Value::Str(text) => {
            let bounds = checked_bounds(alloc, from, to, string_length(text), package)?;
            Ok(Value::Str(substring(alloc, text, bounds.from, bounds.to)?))
        }
        other => refuse_kind(alloc, other, Wanted::List, package),
    }
}

pub fn of_sequence_and_bounds(
    alloc: Global,
    op: Op,
    args: &[Value],
    package: &Text,
) -> Result<Value, BuiltinFault>
    ensures { Makes result (of_sequence_and_bounds op «package».now args.now) }
{
    match args {
        [sequence, from] => of_sequence(alloc, sequence, from, None, package),
        [sequence, from, to] => of_sequence(alloc, sequence, from, Some(to), package),
        _ => refuse_number(alloc, op, package),
    }
}
