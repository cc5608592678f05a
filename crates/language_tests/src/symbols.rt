use lisp_data::{Name, NoMemory, Symbol, Value};
use std::alloc::Global;
use std::test::Fail;

/// Whether a symbol that is made as a keyword is one, and not NIL.
fn is_made_keyword(symbol: Symbol) -> bool {
    symbol.is_keyword() && !symbol.is_nil()
}

/// Whether a symbol of COMMON-LISP is neither a keyword nor NIL.
fn is_none_of_both(symbol: Symbol) -> bool {
    !symbol.is_keyword() && !symbol.is_nil()
}

fn is_empty_list(value: &Value) -> bool {
    match value {
        Value::List(items) => items.is_empty(),
        _ => false,
    }
}

fn is_symbol(value: &Value) -> bool {
    matches!(value, Value::Sym(_))
}

/// The value of the symbol of COMMON-LISP with this name.
fn value(alloc: Global, name: &str) -> Result<Value, NoMemory> {
    Ok(Value::symbol(alloc, Name::common_lisp(alloc, name)?))
}

fn nil_is_the_empty_list(alloc: Global) -> Result<bool, NoMemory> {
    let nil = value(alloc, "NIL")?;
    Ok(is_empty_list(&nil))
}

fn another_symbol_is_itself(alloc: Global) -> Result<bool, NoMemory> {
    let car = value(alloc, "CAR")?;
    Ok(is_symbol(&car))
}

#[test]
fn symbols_are_made_where_memory_is_there(rt: HostRuntime) -> Result<(), Fail> {
    let alloc = rt.alloc();
    let are_so = is_made_keyword(Symbol::keyword(alloc, "X")?)
        && is_none_of_both(Symbol::common_lisp(alloc, "CAR")?);
    assert!(rt; are_so);
    Ok(())
}

#[test]
fn a_symbol_as_a_value_is_itself_or_the_empty_list(rt: HostRuntime) -> Result<(), Fail> {
    let alloc = rt.alloc();
    let are_so = nil_is_the_empty_list(alloc)? && another_symbol_is_itself(alloc)?;
    assert!(rt; are_so);
    Ok(())
}
