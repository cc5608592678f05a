ghost use Rattle.std.specs.Prelude.{◌≡◌, IfOk};
ghost use Rattle.lisp_data.specs.declared.value.Value.TheViews.{out-Value};
ghost use Rattle.lisp_sequences.specs.Lists.{member, is_pair_of, assoc};

use lisp_data::{NoMemory, Value};
use std::alloc::Global;

/// The rest of the items from the first that is the same, none where there is none.
pub fn member<'a>(item: &Value, items: &'a [Value]) -> &'a [Value]
    ensures { result.now ≡ member item.now items.now }
{
    let mut left = items;
    while let [first, more @ ..] = left {
        if first.same(item) {
            return left;
        }
        left = more;
    }
    left
}

fn is_pair_of(key: &Value, value: &Value) -> bool
    ensures { result ≡ is_pair_of key.now (out-Value value.now) }
{
    match value {
        Value::List(items) => match items.as_slice() {
            [first, ..] => first.same(key),
            [] => false,
        },
        _ => false,
    }
}

/// A copy of the first item that is a list whose first item is the same, NIL where there is none.
pub fn assoc(alloc: Global, key: &Value, items: &[Value]) -> Result<Value, NoMemory>
    ensures { IfOk result (λ value. value ≡ assoc key.now items.now) }
{
    let mut left = items;
    while let [first, more @ ..] = left {
        if is_pair_of(key, first) {
            return Ok(first.copy(alloc)?);
        }
        left = more;
    }
    Ok(Value::nil(alloc))
}
