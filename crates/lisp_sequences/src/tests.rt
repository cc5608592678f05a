use crate::{
    append, assoc, copy_items, last, member, nth, nthcdr, reverse, string_downcase, string_length,
    string_upcase, substring,
};
use lisp_data::{NoMemory, Rows, Text, Value};
use std::alloc::Global;
use std::test::Fail;

fn integers(alloc: Global, numbers: &[i64]) -> Result<Value, NoMemory> {
    let mut items = Rows::new(alloc);
    for number in numbers {
        items.push(Value::Int(*number))?;
    }
    Ok(Value::List(items))
}

/// Whether these items are these integers.
fn are(alloc: Global, items: &[Value], numbers: &[i64]) -> Result<bool, NoMemory> {
    let list = Value::List(copy_items(alloc, items)?);
    Ok(list.same(&integers(alloc, numbers)?))
}

/// `((1 2) 3 NIL (4))`, and its items in one list.
fn nested(alloc: Global) -> Result<Rows<Value>, NoMemory> {
    let mut items = Rows::new(alloc);
    items.push(integers(alloc, &[1, 2])?)?;
    items.push(Value::Int(3))?;
    items.push(integers(alloc, &[])?)?;
    items.push(integers(alloc, &[4])?)?;
    Ok(items)
}

#[test]
fn lists_are_joined_turned_and_searched(rt: HostRuntime) -> Result<(), Fail> {
    let alloc = rt.alloc();
    let items = nested(alloc)?;
    let joined = append(alloc, items.as_slice())?;
    let joined = joined.as_slice();
    assert!(rt; are(alloc, joined, &[1, 2, 4])?);
    assert!(rt; are(alloc, reverse(alloc, joined)?.as_slice(), &[4, 2, 1])?);
    assert!(rt; are(alloc, member(&Value::Int(2), joined), &[2, 4])?);
    assert!(rt; are(alloc, nthcdr(joined, 5), &[])?);
    assert!(rt; are(alloc, last(joined), &[4])?);
    let found = assoc(alloc, &Value::Int(4), items.as_slice())?;
    assert!(rt; found.same(&integers(alloc, &[4])?));
    assert!(rt; nth(alloc, joined, 2)?.same(&Value::Int(4)));
    Ok(())
}

#[test]
fn strings_are_cut_by_characters(rt: HostRuntime) -> Result<(), Fail> {
    let alloc = rt.alloc();
    let text = Text::of(alloc, "aéλz")?;
    assert_eq!(rt; string_length(&text), 4);
    assert_eq!(rt; substring(alloc, &text, 1, 3)?.as_str(), "éλ");
    assert_eq!(rt; string_upcase(alloc, &text)?.as_str(), "AéλZ");
    assert_eq!(rt;
        string_downcase(alloc, &Text::of(alloc, "AÉz")?)?.as_str(),
        "aÉz"
    );
    Ok(())
}
