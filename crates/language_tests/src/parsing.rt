//! Forms in a short notation: words and parentheses apart by blanks. A word in upper case is a symbol of COMMON-LISP, one behind a colon a
//! keyword, one in quotes a string; digits are an integer, and any other word is a symbol of CL-USER.
//!
//! A line of a table says what becomes of a form: `FORM = ROW N` where its tree is of the row, with N subforms, and stands for that very form;
//! `FORM ! BAD` where it has a first bad form, and `FORM !` where that is the form itself.

use lisp_data::{Name, NoMemory, Rows, Symbol, Text, Value};
use lisp_syntax::{ParseFault, parse_form, unparse};
use std::alloc::Global;
use std::test::Fail;
use syntax_trees::{Ast, Bare, Holder, Named, Row};

fn symbol(alloc: Global, home: &str, name: &str) -> Result<Value, NoMemory> {
    let symbol = Symbol {
        home: Text::of(alloc, home)?,
        name: Text::of(alloc, name)?,
    };
    Ok(Value::Sym(Name::new(alloc, symbol)?))
}

fn is_upper(word: &str) -> bool {
    word.bytes().all(|byte| !byte.is_ascii_lowercase())
}

fn word(alloc: Global, word: &str) -> Result<Value, NoMemory> {
    if let Ok(number) = word.parse::<i64>() {
        return Ok(Value::Int(number));
    }
    if let Some(name) = word.strip_prefix(":") {
        return symbol(alloc, "KEYWORD", name);
    }
    if let Some(text) = word.strip_prefix("\"") {
        return Ok(Value::Str(Text::of(alloc, text)?));
    }
    if is_upper(word) {
        return symbol(alloc, "COMMON-LISP", word);
    }
    symbol(alloc, "COMMON-LISP-USER", word)
}

/// Puts the value behind the items of the innermost list that is open.
fn put(alloc: Global, open: &mut Rows<Rows<Value>>, value: Value) -> Result<(), NoMemory> {
    let mut items = match open.pop() {
        Some(items) => items,
        None => Rows::new(alloc),
    };
    items.push(value)?;
    open.push(items)
}

/// The form of the text, as the last item of the list of its forms.
fn form(alloc: Global, text: &str) -> Result<Value, NoMemory> {
    let mut open = Rows::new(alloc);
    for item in text.split(' ') {
        if item == "(" {
            open.push(Rows::new(alloc))?;
        } else if item == ")" {
            let items = match open.pop() {
                Some(items) => items,
                None => Rows::new(alloc),
            };
            if open.is_empty() {
                return Ok(Value::List(items));
            }
            put(alloc, &mut open, Value::List(items))?;
        } else if open.is_empty() {
            return word(alloc, item);
        } else {
            put(alloc, &mut open, word(alloc, item)?)?;
        }
    }
    Ok(Value::Int(0))
}

/// The row that a tree is of, by its operator's name.
fn name_of(row: &Row) -> &'static str {
    match row {
        Row::Literal(_) => "value",
        Row::Variable(_) => "variable",
        Row::Quote(_) => "quote",
        Row::Function(_) => "function",
        Row::Bare(bare) => bare_name(*bare),
        Row::Named(Named::Block, _) => "block",
        Row::Named(Named::ReturnFrom, _) => "return-from",
        Row::Named(Named::Call, _) => "call",
        Row::Held(Holder::DoTimes, _) => "dotimes",
        Row::Held(Holder::DoList, _) => "dolist",
        Row::Held(Holder::Defvar, _) => "defvar",
        Row::Held(Holder::Defparameter, _) => "defparameter",
        Row::Let(_) => "let",
        Row::LetStar(_) => "let*",
        Row::Setq(_) => "setq",
        Row::Defun { .. } => "defun",
        Row::HandlerBind(_) => "handler-bind",
        Row::WithSimpleRestart { .. } => "with-simple-restart",
        Row::InPackage(_) => "in-package",
        Row::Defpackage { .. } => "defpackage",
        Row::CondClause | Row::HandlerClause { .. } | Row::RestartClause { .. } => "clause",
    }
}

fn bare_name(bare: Bare) -> &'static str {
    match bare {
        Bare::If => "if",
        Bare::When => "when",
        Bare::Unless => "unless",
        Bare::Cond => "cond",
        Bare::And => "and",
        Bare::Or => "or",
        Bare::Progn => "progn",
        Bare::Return => "return",
        Bare::Loop => "loop",
        Bare::Catch => "catch",
        Bare::Throw => "throw",
        Bare::UnwindProtect => "unwind-protect",
        Bare::HandlerCase => "handler-case",
        Bare::IgnoreErrors => "ignore-errors",
        Bare::RestartCase => "restart-case",
    }
}

/// Whether the tree is of the row and has so many subforms, as in `if 3`.
fn is_of_row(tree: &Ast, told: &str) -> bool {
    match told.split_once(' ') {
        Some((name, count)) => {
            name_of(&tree.row) == name
                && count.parse::<usize>() == Ok(tree.forms.get().as_slice().len())
        }
        None => false,
    }
}

/// Whether the tree is of the row, and stands for the form.
fn is_tree_of(alloc: Global, tree: Ast, told: &str, form: &Value) -> Result<bool, NoMemory> {
    let back = unparse(alloc, &tree)?;
    Ok(is_of_row(&tree, told) && back.same(form))
}

fn has_tree(alloc: Global, text: &str, told: &str) -> Result<bool, NoMemory> {
    let form = form(alloc, text)?;
    match parse_form(alloc, &form) {
        Ok(tree) => is_tree_of(alloc, tree, told, &form),
        Err(_) => Ok(false),
    }
}

fn is_same(alloc: Global, value: Value, text: &str) -> Result<bool, NoMemory> {
    let form = form(alloc, text)?;
    Ok(value.same(&form))
}

/// Whether the second text is the first bad form in the first.
fn is_first_bad(alloc: Global, text: &str, bad: &str) -> Result<bool, NoMemory> {
    let form = form(alloc, text)?;
    match parse_form(alloc, &form) {
        Err(ParseFault::Syntax(found)) => is_same(alloc, found, bad),
        _ => Ok(false),
    }
}

fn holds(alloc: Global, line: &str) -> Result<bool, NoMemory> {
    if let Some((text, told)) = line.split_once(" = ") {
        return has_tree(alloc, text, told);
    }
    if let Some((text, bad)) = line.split_once(" ! ") {
        return is_first_bad(alloc, text, bad);
    }
    match line.strip_suffix(" !") {
        Some(text) => is_first_bad(alloc, text, text),
        None => Ok(false),
    }
}

/// The first line that doesn't hold, an empty one where all do.
fn wrong_line(alloc: Global, table: &'static str) -> Result<&'static str, NoMemory> {
    for line in table.lines() {
        if !holds(alloc, line)? {
            return Ok(line);
        }
    }
    Ok("")
}

const ROWS: &str = "\
7 = value 0
:k = value 0
T = value 0
\"text = value 0
( ) = value 0
x = variable 0
*PACKAGE* = variable 0
( QUOTE ( IF ) ) = quote 0
( FUNCTION f ) = function 0
( FUNCTION ( ) ) = function 0
( IN-PACKAGE \"P ) = in-package 0
( IN-PACKAGE :p ) = in-package 0
( DEFPACKAGE p ) = defpackage 0
( DEFPACKAGE p ( :USE ) ) = defpackage 0
( DEFPACKAGE p ( :EXPORT ) ) = defpackage 0
( DEFPACKAGE \"P ( :USE :q ) ( :EXPORT \"A b ) ) = defpackage 0
( f ) = call 0
( CAR x 1 ) = call 2
( :k x ) = call 1
( T ) = call 0
( ( ) 1 ) = call 1
( IF x 1 ) = if 2
( IF x 1 2 ) = if 3
( WHEN x ) = when 1
( WHEN x 1 2 ) = when 3
( UNLESS x ) = unless 1
( UNLESS x 1 2 ) = unless 3
( COND ) = cond 0
( COND ( x ) ( y 1 2 ) ) = cond 2
( AND ) = and 0
( AND x y 1 ) = and 3
( OR ) = or 0
( OR x y 1 ) = or 3
( PROGN ) = progn 0
( PROGN 1 x ) = progn 2
( BLOCK ( ) ) = block 0
( BLOCK n 1 2 ) = block 2
( RETURN-FROM n ) = return-from 0
( RETURN-FROM n 1 ) = return-from 1
( RETURN ) = return 0
( RETURN 1 ) = return 1
( LOOP ) = loop 0
( LOOP 1 ( RETURN ) ) = loop 2
( CATCH x ) = catch 1
( CATCH x 1 2 ) = catch 3
( THROW x 1 ) = throw 2
( UNWIND-PROTECT 1 ) = unwind-protect 1
( UNWIND-PROTECT 1 2 3 ) = unwind-protect 3
";

const MORE_ROWS: &str = "\
( LET ( ) ) = let 0
( LET ( x ( y ) ( z 1 ) *PACKAGE* ) x 1 ) = let 6
( LET* ( ) ) = let* 0
( LET* ( x ( y ) ( *PACKAGE* 1 ) ) x 1 ) = let* 5
( SETQ ) = setq 0
( SETQ x 1 *PACKAGE* 2 ) = setq 2
( DOTIMES ( i 3 ) ) = dotimes 1
( DOTIMES ( i 3 ) i 1 ) = dotimes 3
( DOLIST ( i x ) ) = dolist 1
( DOLIST ( i x ) i 1 ) = dolist 3
( DEFUN f ( ) ) = defun 0
( DEFUN f ( a CAR :k &OPTIONAL b c &REST d ) 1 2 ) = defun 2
( DEFUN f ( &OPTIONAL &REST d ) ) = defun 0
( DEFVAR v ) = defvar 0
( DEFVAR v 1 ) = defvar 1
( DEFPARAMETER v 1 ) = defparameter 1
( HANDLER-BIND ( ) ) = handler-bind 0
( HANDLER-BIND ( ( ERROR f ) ( CONDITION 1 ) ) 1 2 ) = handler-bind 4
( HANDLER-CASE 1 ) = handler-case 1
( HANDLER-CASE 1 ( ERROR ( ) ) ( WARNING ( e ) e 1 ) ) = handler-case 3
( IGNORE-ERRORS ) = ignore-errors 0
( IGNORE-ERRORS 1 2 ) = ignore-errors 2
( RESTART-CASE 1 ) = restart-case 1
( RESTART-CASE 1 ( r ( ) ) ( s ( a b ) :REPORT \"text a 1 ) ( :q ( ) :REPORT x ) ) = restart-case 4
( WITH-SIMPLE-RESTART ( r \"text ) ) = with-simple-restart 0
( WITH-SIMPLE-RESTART ( ( ) \"text 1 2 ) 3 4 ) = with-simple-restart 4
";

const NEAR_MISSES: &str = "\
CAR !
NIL !
( 1 2 ) !
( ( f ) ) !
( QUOTE ) !
( QUOTE x y ) !
( FUNCTION ) !
( FUNCTION 1 ) !
( IN-PACKAGE ) !
( IN-PACKAGE 1 ) !
( DEFPACKAGE ) !
( DEFPACKAGE p ( :EXPORT ) ( :USE ) ) !
( DEFPACKAGE p ( :USE ( q ) ) ) !
( DEFPACKAGE p ( :NICKNAMES q ) ) !
( IF x ) !
( IF x 1 2 3 ) !
( WHEN ) !
( UNLESS ) !
( COND ( ) ) !
( COND x ) !
( BLOCK ) !
( BLOCK 1 ) !
( RETURN-FROM ) !
( RETURN-FROM n 1 2 ) !
( RETURN 1 2 ) !
( LOOP x ) !
( LOOP ( ) ) !
( LOOP ( f ) x ) !
( CATCH ) !
( THROW x ) !
( THROW x 1 2 ) !
( UNWIND-PROTECT ) !
( LET ) !
( LET x ) !
( LET ( :k ) ) !
( LET ( CAR ) ) !
( LET ( ( x 1 2 ) ) ) !
( LET ( ( x ( IF ) ) 1 ) ) !
( LET* ( ( x ) ( ) ) ) !
( SETQ x ) !
( SETQ :k 1 ) !
( SETQ x 1 y ) !
( DOTIMES ( i ) ) !
( DOTIMES ( *PACKAGE* 1 ) ) !
( DOLIST i ) !
( DOLIST ( i x 1 ) ) !
( DEFUN f ) !
( DEFUN CAR ( ) ) !
( DEFUN f ( 1 ) ) !
( DEFUN f ( &REST ) ) !
( DEFUN f ( &REST a b ) ) !
( DEFUN f ( &REST a &OPTIONAL b ) ) !
( DEFUN f ( &OPTIONAL a &OPTIONAL b ) ) !
( DEFVAR ) !
( DEFVAR v 1 2 ) !
( DEFPARAMETER v ) !
( DEFPARAMETER *PACKAGE* 1 ) !
( HANDLER-BIND ) !
( HANDLER-BIND ( ( LIST f ) ) ) !
( HANDLER-CASE ) !
( HANDLER-CASE 1 ( LIST ( ) ) ) !
( HANDLER-CASE 1 ( ERROR ( a b ) ) ) !
( RESTART-CASE ) !
( RESTART-CASE 1 ( ( ) ( ) ) ) !
( RESTART-CASE 1 ( r ( :k ) ) ) !
( WITH-SIMPLE-RESTART ( r ) ) !
( WITH-SIMPLE-RESTART ( r 1 ) ) !
";

const FIRST_BAD: &str = "\
( IF 1 2 ( IF ) ) ! ( IF )
( WHEN ( IF ) ( WHEN ) ) ! ( IF )
( UNLESS x 1 ( IF ) ) ! ( IF )
( COND ( 1 ( IF ) ) ( ( WHEN ) ) ) ! ( IF )
( AND x ( IF ) ) ! ( IF )
( OR ( IF ) ) ! ( IF )
( PROGN 1 ( IF ) ( WHEN ) ) ! ( IF )
( BLOCK n ( IF ) ) ! ( IF )
( RETURN-FROM n ( IF ) ) ! ( IF )
( RETURN ( IF ) ) ! ( IF )
( LOOP ( IF ) ) ! ( IF )
( CATCH ( IF ) ( WHEN ) ) ! ( IF )
( THROW ( IF ) ( WHEN ) ) ! ( IF )
( THROW x ( IF ) ) ! ( IF )
( UNWIND-PROTECT 1 ( IF ) ( WHEN ) ) ! ( IF )
( f ( g ( IF ) ) ) ! ( IF )
( LET ( ( x ( IF ) ) ) ( WHEN ) ) ! ( IF )
( LET* ( ( x 1 ) ( y ( IF ) ) ) ( WHEN ) ) ! ( IF )
( SETQ x ( IF ) y ( WHEN ) ) ! ( IF )
( DOTIMES ( i ( IF ) ) ( WHEN ) ) ! ( IF )
( DOLIST ( i x ) ( IF ) ) ! ( IF )
( DEFUN f ( a ) ( IF ) ( WHEN ) ) ! ( IF )
( DEFVAR v ( IF ) ) ! ( IF )
( DEFPARAMETER v ( IF ) ) ! ( IF )
( HANDLER-BIND ( ( ERROR ( IF ) ) ) ( WHEN ) ) ! ( IF )
( HANDLER-CASE ( IF ) ( ERROR ( ) ( WHEN ) ) ) ! ( IF )
( IGNORE-ERRORS ( IF ) ) ! ( IF )
( RESTART-CASE 1 ( r ( ) :REPORT \"t ( IF ) ) ) ! ( IF )
( WITH-SIMPLE-RESTART ( r \"t ( IF ) ) ( WHEN ) ) ! ( IF )
";

#[test]
fn values_and_forms_of_control_have_their_rows(rt: HostRuntime) -> Result<(), Fail> {
    let wrong = wrong_line(rt.alloc(), ROWS)?;
    assert!(rt; wrong.is_empty(), "{wrong}");
    Ok(())
}

#[test]
fn forms_that_bind_and_that_handle_have_their_rows(rt: HostRuntime) -> Result<(), Fail> {
    let wrong = wrong_line(rt.alloc(), MORE_ROWS)?;
    assert!(rt; wrong.is_empty(), "{wrong}");
    Ok(())
}

#[test]
fn near_misses_are_bad(rt: HostRuntime) -> Result<(), Fail> {
    let wrong = wrong_line(rt.alloc(), NEAR_MISSES)?;
    assert!(rt; wrong.is_empty(), "{wrong}");
    Ok(())
}

#[test]
fn the_first_bad_form_is_named(rt: HostRuntime) -> Result<(), Fail> {
    let wrong = wrong_line(rt.alloc(), FIRST_BAD)?;
    assert!(rt; wrong.is_empty(), "{wrong}");
    Ok(())
}
