use crate::{is_kind, type_by_name, type_of, type_of_condition};
use lisp_data::{Condition, Name, Text, TypeId, Value};
use std::test::Fail;

#[test]
fn chains_of_parents_lead_up_and_never_down(rt: HostRuntime) {
    for (a, b, want) in [
        ("DIVISION-BY-ZERO", "SERIOUS-CONDITION", true),
        ("SIMPLE-ERROR", "SIMPLE-CONDITION", true),
        ("SIMPLE-ERROR", "ERROR", true),
        ("STYLE-WARNING", "T", true),
        ("NULL", "LIST", true),
        ("NULL", "SYMBOL", true),
        ("STRING", "STRING", true),
        ("ERROR", "SIMPLE-ERROR", false),
        ("STORAGE-CONDITION", "ERROR", false),
        ("WARNING", "ERROR", false),
        ("NULL", "CONS", false),
        ("KEYWORD", "LIST", false),
    ] {
        let found = match (type_by_name(a), type_by_name(b)) {
            (Some(a), Some(b)) => Some(is_kind(a, b)),
            _ => None,
        };
        assert_eq!(rt; found, Some(want), "{a} as {b}");
    }
}

#[test]
fn names_are_those_of_the_standard(rt: HostRuntime) {
    assert_eq!(rt; TypeId::UndefinedFunction.name(), "UNDEFINED-FUNCTION");
    assert_eq!(rt;
        type_by_name("UNDEFINED-FUNCTION"),
        Some(TypeId::UndefinedFunction)
    );
    for name in ["", "error", "FLOAT", "ERROR ", "SIMPLE-TYPE-ERROR"] {
        assert_eq!(rt; type_by_name(name), None, "{name}");
    }
}

#[test]
fn values_have_the_types_of_the_standard(rt: HostRuntime) -> Result<(), Fail> {
    let alloc = rt.alloc();
    assert_eq!(rt;
        type_of(&Value::list(alloc, [Value::Int(1)])?),
        TypeId::Cons
    );
    assert_eq!(rt; type_of(&Value::nil(alloc)), TypeId::Null);
    assert_eq!(rt;
        type_of(&Value::Sym(Name::keyword(alloc, "A")?)),
        TypeId::Keyword
    );
    assert_eq!(rt; type_of(&Value::truth(alloc, true)?), TypeId::Symbol);
    let condition = Condition {
        kind: TypeId::CellError,
        message: Text::new(alloc),
        datum: Value::Int(0),
    };
    assert_eq!(rt; type_of_condition(&condition), TypeId::CellError);
    Ok(())
}
