ghost use Rattle.std.specs.Prelude.{◌≡◌, ◌++◌, ◌≤◌, length, reverse, IfOk, OnOk};
ghost use Rattle.lisp_sequences.specs.Lists.{append, items_of, last, nth, nthcdr, subseq};

use lisp_data::{NoMemory, Rows, Value};
use std::alloc::Global;

/// Adds copies of these items at the end. Where memory is wanting some of them may have been added.
fn extend(alloc: Global, out: &mut Rows<Value>, items: &[Value]) -> Result<(), NoMemory>
    ensures { OnOk result (out.new ≡ out.old ++ items.now) }
{
    for item in items {
        out.push(item.copy(alloc)?)?;
    }
    Ok(())
}

/// Copies of these items.
pub fn copy_items(alloc: Global, items: &[Value]) -> Result<Rows<Value>, NoMemory>
    ensures { IfOk result (λ rows. rows ≡ items.now) }
{
    let mut copies = Rows::new(alloc);
    extend(alloc, &mut copies, items)?;
    Ok(copies)
}

fn items_of(value: &Value) -> &[Value]
    ensures { result.now ≡ items_of value.now }
{
    match value {
        Value::List(items) => items.as_slice(),
        _ => &[],
    }
}

/// The items of these lists, one list after the other. A value that is no list has none.
pub fn append(alloc: Global, lists: &[Value]) -> Result<Rows<Value>, NoMemory>
    ensures { IfOk result (λ rows. rows ≡ append lists.now) }
{
    let mut out = Rows::new(alloc);
    for list in lists {
        extend(alloc, &mut out, items_of(list))?;
    }
    Ok(out)
}

/// The items from this place on, counted from 0; none past the end.
pub fn nthcdr(items: &[Value], n: usize) -> &[Value]
    ensures { result.now ≡ nthcdr n items.now }
{
    if n >= items.len() { &[] } else { &items[n..] }
}

/// A copy of the item at this place, counted from 0; NIL past the end.
pub fn nth(alloc: Global, items: &[Value], n: usize) -> Result<Value, NoMemory>
    ensures { IfOk result (λ value. value ≡ nth n items.now) }
{
    match nthcdr(items, n) {
        [] => Ok(Value::List(Rows::new(alloc))),
        [first, ..] => Ok(first.copy(alloc)?),
    }
}

/// The last item alone, none where there is none.
pub fn last(items: &[Value]) -> &[Value]
    ensures { result.now ≡ last items.now }
{
    let mut left = items;
    while let [_, more @ ..] = left {
        if more.is_empty() {
            return left;
        }
        left = more;
    }
    left
}

/// Copies of these items, the last one first.
pub fn reverse(alloc: Global, items: &[Value]) -> Result<Rows<Value>, NoMemory>
    ensures { IfOk result (λ rows. rows ≡ reverse items.now) }
{
    let mut out = Rows::new(alloc);
    let mut left = items;
    while let [front @ .., item] = left {
        out.push(item.copy(alloc)?)?;
        left = front;
    }
    Ok(out)
}

/// The items from one place to before another.
pub fn subseq(items: &[Value], from: usize, to: usize) -> &[Value]
    requires order { from ≤ to }
    requires within { to ≤ length items.now }
    ensures { result.now ≡ subseq from to items.now }
{
    &items[from..to]
}
