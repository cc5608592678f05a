mod each_function;

use lisp_builtins::{BuiltinFault, call_builtin, op_of};
use lisp_data::{Boxed, Name, NoMemory, Rows, Sexp, Text, Value};
use sexp_printer::print_user;
use sexp_reader::read_form;
use std::alloc::Global;
use std::test::Fail;

/// A token's symbol: a keyword, or one of COMMON-LISP.
fn symbol(alloc: Global, token: &str) -> Result<Value, NoMemory> {
    Ok(Value::Sym(match token.strip_prefix(":") {
        Some(name) => Name::keyword(alloc, name)?,
        None => Name::common_lisp(alloc, token)?,
    }))
}

fn value_of(alloc: Global, form: &Sexp) -> Result<Value, NoMemory> {
    match form {
        Sexp::Int(number) => Ok(Value::Int(*number)),
        Sexp::Str(text) => Ok(Value::Str(text.copy(alloc)?)),
        Sexp::Sym(token) => symbol(alloc, token.as_str()),
        Sexp::List(items) => {
            let mut values = Rows::new(alloc);
            for item in items.as_slice() {
                values.push(value_of(alloc, item)?)?;
            }
            Ok(Value::List(values))
        }
    }
}

/// What a call with these arguments gives, as it prints: its value, or the condition that it raises.
fn called(alloc: Global, function: &Value, args: &[Value]) -> Result<Text, NoMemory> {
    let package = Text::of(alloc, "COMMON-LISP-USER")?;
    let op = match function {
        Value::Sym(name) => op_of(name.symbol()),
        _ => None,
    };
    let Some(op) = op else {
        return Text::of(alloc, "no function");
    };
    match call_builtin(alloc, op, args, &package) {
        Ok(value) => print_user(alloc, &value, &package, true),
        Err(BuiltinFault::Raised(condition)) => {
            let raised = Value::Cond(Boxed::new(alloc, condition)?);
            print_user(alloc, &raised, &package, true)
        }
        Err(BuiltinFault::NoMemory) => Err(NoMemory),
    }
}

/// The same of a call in a text, whose arguments are as they stand there.
fn gives(alloc: Global, call: &str, want: &str) -> Result<bool, NoMemory> {
    let Ok(form) = read_form(alloc, &Text::of(alloc, call)?) else {
        return Ok(false);
    };
    let form = value_of(alloc, &form)?;
    let Value::List(parts) = &form else {
        return Ok(false);
    };
    let [function, args @ ..] = parts.as_slice() else {
        return Ok(false);
    };
    Ok(called(alloc, function, args)?.as_str() == want)
}

#[test]
fn integers(rt: HostRuntime) -> Result<(), Fail> {
    let alloc = rt.alloc();
    for (call, want) in [
        ("(+)", "0"),
        ("(* 2 3 4)", "24"),
        ("(- 5)", "-5"),
        (
            "(+ 9223372036854775807 1 -1)",
            "#<ARITHMETIC-ERROR \"Integer out of range.\">",
        ),
        (
            "(+ 1 (a) \"b\")",
            "#<TYPE-ERROR \"The value (A) is not of type INTEGER.\">",
        ),
        ("(/ 9 3)", "3"),
        (
            "(/ 1 2)",
            "#<ARITHMETIC-ERROR \"Quotient is not an integer.\">",
        ),
        ("(mod 1 0)", "#<DIVISION-BY-ZERO \"Division by zero.\">"),
        ("(floor -7 2)", "-4"),
        ("(truncate -7 2)", "-3"),
        ("(< 1 2 2)", "NIL"),
        ("(= 3 3 3)", "T"),
        ("(max 1 3 2)", "3"),
        (
            "(min)",
            "#<PROGRAM-ERROR \"Wrong number of arguments for MIN.\">",
        ),
        ("(oddp -3)", "T"),
    ] {
        assert!(rt; gives(alloc, call, want)?, "{call}");
    }
    Ok(())
}

#[test]
fn lists(rt: HostRuntime) -> Result<(), Fail> {
    let alloc = rt.alloc();
    for (call, want) in [
        ("(car nil)", "NIL"),
        ("(third (1 2))", "NIL"),
        (
            "(cdr 1)",
            "#<TYPE-ERROR \"The value 1 is not of type LIST.\">",
        ),
        ("(nth 1 (a b))", "B"),
        (
            "(nth -1 nil)",
            "#<TYPE-ERROR \"The value -1 is not of type INDEX.\">",
        ),
        ("(nthcdr 2 (a b))", "NIL"),
        ("(append (1) nil (2))", "(1 2)"),
        ("(cons 1 (2))", "(1 2)"),
        ("(last (1 2))", "(2)"),
        ("(member \"b\" (a \"b\" c))", "(\"b\" C)"),
        ("(assoc b (c (a 1) (b 2)))", "(B 2)"),
        ("(length \"é𝔸\")", "2"),
        ("(subseq (1 2 3) 1)", "(2 3)"),
        ("(subseq \"aéb\" 1 2)", "\"é\""),
        (
            "(subseq (1) 2)",
            "#<TYPE-ERROR \"The value 2 is not of type INDEX.\">",
        ),
        (
            "(subseq (1 2) 2 1)",
            "#<TYPE-ERROR \"The value 1 is not of type INDEX.\">",
        ),
        (
            "(subseq (1) 9 nil)",
            "#<TYPE-ERROR \"The value NIL is not of type INTEGER.\">",
        ),
    ] {
        assert!(rt; gives(alloc, call, want)?, "{call}");
    }
    Ok(())
}

#[test]
fn other_values(rt: HostRuntime) -> Result<(), Fail> {
    let alloc = rt.alloc();
    for (call, want) in [
        ("(eql (a 1) (a 1))", "T"),
        ("(symbolp nil)", "T"),
        ("(keywordp :a)", "T"),
        ("(type-of nil)", "NULL"),
        ("(typep 1 number)", "T"),
        (
            "(typep 1 nil)",
            "#<TYPE-ERROR \"The value NIL is not of type TYPE.\">",
        ),
        ("(prin1-to-string \"a\")", "\"\\\"a\\\"\""),
        ("(princ-to-string (a \"b\"))", "\"(A b)\""),
        ("(symbol-name nil)", "\"NIL\""),
        (
            "(symbol-name 1)",
            "#<TYPE-ERROR \"The value 1 is not of type SYMBOL.\">",
        ),
        ("(string-upcase \"aé\")", "\"Aé\""),
        ("(string= a \"A\")", "T"),
        (
            "(string 1)",
            "#<TYPE-ERROR \"The value 1 is not of type STRING.\">",
        ),
        (
            "(make-condition error)",
            "#<ERROR \"Condition of type ERROR.\">",
        ),
        (
            "(make-condition warning :format-control \"~a!\" :format-arguments (1))",
            "#<WARNING \"1!\">",
        ),
        (
            "(make-condition list)",
            "#<TYPE-ERROR \"The value LIST is not of type CONDITION.\">",
        ),
        (
            "(make-condition error :format-control \"~a\" :format-arguments nil)",
            "#<SIMPLE-ERROR \"Format: TooFewArguments.\">",
        ),
        ("(nosuch)", "no function"),
    ] {
        assert!(rt; gives(alloc, call, want)?, "{call}");
    }
    Ok(())
}

/// A string of so many octets.
fn string_of(alloc: Global, octets: usize) -> Result<Value, NoMemory> {
    let mut text = Text::new(alloc);
    for _ in 0..octets {
        text.push('a')?;
    }
    Ok(Value::Str(text))
}

#[test]
fn a_value_weighs_as_much_as_the_limit_and_no_more(rt: HostRuntime) -> Result<(), Fail> {
    let alloc = rt.alloc();
    let list = symbol(alloc, "LIST")?;
    // 1 for the list, 1 for the string, and its octets
    let fits = called(alloc, &list, &[string_of(alloc, (1 << 20) - 2)?])?;
    assert_eq!(rt; fits.len(), (1 << 20) + 2);
    let passes = called(alloc, &list, &[string_of(alloc, (1 << 20) - 1)?])?;
    assert_eq!(rt;
        passes.as_str(),
        "#<STORAGE-CONDITION \"Value too large.\">"
    );
    Ok(())
}
