use crate::{print_form, print_user, print_wire};
use lisp_data::{Boxed, Condition, Name, NoMemory, Rows, Sexp, Symbol, Text, TypeId, Value};
use std::alloc::Global;
use std::test::Fail;

fn token(alloc: Global, name: &str) -> Result<Sexp, NoMemory> {
    Ok(Sexp::Sym(Text::of(alloc, name)?))
}

fn string(alloc: Global, text: &str) -> Result<Sexp, NoMemory> {
    Ok(Sexp::Str(Text::of(alloc, text)?))
}

fn nil(alloc: Global) -> Sexp {
    Sexp::List(Rows::new(alloc))
}

/// A list of one form.
fn single(alloc: Global, form: Sexp) -> Result<Sexp, NoMemory> {
    let mut items = Rows::new(alloc);
    items.push(form)?;
    Ok(Sexp::List(items))
}

/// `(QUOTE TOKEN)`
fn quote(alloc: Global, name: &str) -> Result<Sexp, NoMemory> {
    let mut items = Rows::new(alloc);
    items.push(token(alloc, "QUOTE")?)?;
    items.push(token(alloc, name)?)?;
    Ok(Sexp::List(items))
}

/// `(NIL ("") (QUOTE SWANK::Été))`
fn nested(alloc: Global) -> Result<Sexp, NoMemory> {
    let mut items = Rows::new(alloc);
    items.push(nil(alloc))?;
    items.push(single(alloc, string(alloc, "")?)?)?;
    items.push(quote(alloc, "SWANK::Été")?)?;
    Ok(Sexp::List(items))
}

fn prints(alloc: Global, form: &Sexp, wire: &str, shown: &str) -> Result<bool, NoMemory> {
    let wire_text = print_wire(alloc, form)?;
    let shown_text = print_form(alloc, form)?;
    Ok(wire_text.as_str() == wire && shown_text.as_str() == shown)
}

#[test]
fn forms_print_for_the_wire_and_to_be_shown(rt: HostRuntime) -> Result<(), Fail> {
    let alloc = rt.alloc();
    let least = "-9223372036854775808";
    assert!(rt; prints(alloc, &Sexp::Int(0), "0", "0")?);
    assert!(rt; prints(alloc, &Sexp::Int(i64::MIN), least, least)?);
    let (text, quoted) = ("a\"b\\c\né λ 𝔸", "\"a\\\"b\\\\c\né λ 𝔸\"");
    assert!(rt; prints(alloc, &string(alloc, text)?, quoted, quoted)?);
    assert!(rt;
        prints(
            alloc,
            &token(alloc, ":EMACS-REX")?,
            ":emacs-rex",
            ":EMACS-REX"
        )?
    );
    assert!(rt; prints(alloc, &nil(alloc), "nil", "NIL")?);
    let (wire, shown) = (
        "(nil (\"\") (quote swank::Été))",
        "(NIL (\"\") (QUOTE SWANK::ÉTé))",
    );
    assert!(rt; prints(alloc, &nested(alloc)?, wire, shown)?);
    Ok(())
}

fn symbol(alloc: Global, home: &str, name: &str) -> Result<Value, NoMemory> {
    let symbol = Symbol {
        home: Text::of(alloc, home)?,
        name: Text::of(alloc, name)?,
    };
    Ok(Value::Sym(Name::new(alloc, symbol)?))
}

fn error(alloc: Global, message: &str) -> Result<Value, NoMemory> {
    let condition = Condition {
        kind: TypeId::SimpleError,
        message: Text::of(alloc, message)?,
        datum: Value::Int(1),
    };
    Ok(Value::Cond(Boxed::new(alloc, condition)?))
}

/// A list of NIL, a string, a condition and a symbol.
fn list(alloc: Global) -> Result<Value, NoMemory> {
    let mut items = Rows::new(alloc);
    items.push(Value::List(Rows::new(alloc)))?;
    items.push(Value::Str(Text::of(alloc, "é\"")?))?;
    items.push(error(alloc, "bad \\")?)?;
    items.push(symbol(alloc, "COMMON-LISP", "T")?)?;
    Ok(Value::List(items))
}

/// In the package COMMON-LISP-USER.
fn shows(alloc: Global, value: &Value, escaped: &str, plain: &str) -> Result<bool, NoMemory> {
    let package = Text::of(alloc, "COMMON-LISP-USER")?;
    let escaped_text = print_user(alloc, value, &package, true)?;
    let plain_text = print_user(alloc, value, &package, false)?;
    Ok(escaped_text.as_str() == escaped && plain_text.as_str() == plain)
}

#[test]
fn values_print_as_user_text(rt: HostRuntime) -> Result<(), Fail> {
    let alloc = rt.alloc();
    assert!(rt; shows(alloc, &Value::Int(-7), "-7", "-7")?);
    assert!(rt;
        shows(
            alloc,
            &Value::Str(Text::of(alloc, "é\"")?),
            "\"é\\\"\"",
            "é\""
        )?
    );
    assert!(rt;
        shows(
            alloc,
            &error(alloc, "a \"b\"")?,
            "#<SIMPLE-ERROR \"a \\\"b\\\"\">",
            "a \"b\""
        )?
    );
    let (escaped, plain) = (
        "(NIL \"é\\\"\" #<SIMPLE-ERROR \"bad \\\\\"> T)",
        "(NIL é\" bad \\ T)",
    );
    assert!(rt; shows(alloc, &list(alloc)?, escaped, plain)?);
    Ok(())
}

#[test]
fn symbols_print_with_their_homes(rt: HostRuntime) -> Result<(), Fail> {
    let alloc = rt.alloc();
    for (home, name, text) in [
        ("KEYWORD", "ABORT", ":ABORT"),
        ("COMMON-LISP", "CAR", "CAR"),
        ("COMMON-LISP-USER", "f", "f"),
        ("SWANK", "F", "SWANK::F"),
    ] {
        assert!(rt;
            shows(alloc, &symbol(alloc, home, name)?, text, text)?,
            "{home} {name}"
        );
    }
    Ok(())
}

fn property(alloc: Global, items: &mut Rows<Sexp>, key: &str, form: Sexp) -> Result<(), NoMemory> {
    items.push(token(alloc, key)?)?;
    items.push(form)
}

/// A property list of strings.
fn strings(alloc: Global, pairs: &[(&str, &str)]) -> Result<Sexp, NoMemory> {
    let mut items = Rows::new(alloc);
    for (key, text) in pairs {
        property(alloc, &mut items, key, string(alloc, text)?)?;
    }
    Ok(Sexp::List(items))
}

fn encoding(alloc: Global) -> Result<Sexp, NoMemory> {
    let mut items = Rows::new(alloc);
    let systems = single(alloc, string(alloc, "utf-8-unix")?)?;
    property(alloc, &mut items, ":CODING-SYSTEMS", systems)?;
    Ok(Sexp::List(items))
}

/// What `(swank:connection-info)` answers at the start of a session.
fn connection_info(alloc: Global) -> Result<Sexp, NoMemory> {
    let mut items = Rows::new(alloc);
    property(alloc, &mut items, ":PID", Sexp::Int(0))?;
    property(alloc, &mut items, ":STYLE", token(alloc, ":SPAWN")?)?;
    property(alloc, &mut items, ":ENCODING", encoding(alloc)?)?;
    let implementation = [
        (":TYPE", "Profile"),
        (":NAME", "profile"),
        (":VERSION", "1"),
    ];
    property(
        alloc,
        &mut items,
        ":LISP-IMPLEMENTATION",
        strings(alloc, &implementation)?,
    )?;
    property(
        alloc,
        &mut items,
        ":MACHINE",
        strings(alloc, &[(":INSTANCE", "none")])?,
    )?;
    property(alloc, &mut items, ":FEATURES", nil(alloc))?;
    property(alloc, &mut items, ":MODULES", nil(alloc))?;
    let package = [(":NAME", "COMMON-LISP-USER"), (":PROMPT", "CL-USER")];
    property(alloc, &mut items, ":PACKAGE", strings(alloc, &package)?)?;
    property(alloc, &mut items, ":VERSION", string(alloc, "2.28")?)?;
    Ok(Sexp::List(items))
}

#[test]
fn connection_info_has_the_octets_worked_by_hand(rt: HostRuntime) -> Result<(), Fail> {
    let alloc = rt.alloc();
    let text = print_wire(alloc, &connection_info(alloc)?)?;
    assert_eq!(rt; text.len(), 258);
    assert_eq!(rt;
        text.as_str(),
        "(:pid 0 :style :spawn :encoding (:coding-systems (\"utf-8-unix\")) :lisp-implementation (:type \"Profile\" :name \"profile\" :version \"1\") :machine (:instance \"none\") :features nil :modules nil :package (:name \"COMMON-LISP-USER\" :prompt \"CL-USER\") :version \"2.28\")"
    );
    Ok(())
}
