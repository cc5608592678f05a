//! A value that finds another global package than its request began in, as no session can have it before `in-package` is built. The other
//! answers of these functions are lines of sessions.

use lisp_data::{NoMemory, Rows, Sexp, Text, Value};
use lisp_image::Image;
use rpc_messages::ToEmacs;
use sexp_reader::read_form;
use std::alloc::Global;
use std::test::Fail;
use swank_rpc::{Answer, call_rpc, end_rpc};

/// The form of a text that spells one; NIL for any other.
fn form(alloc: Global, text: &str) -> Result<Sexp, NoMemory> {
    match read_form(alloc, &Text::of(alloc, text)?) {
        Ok(form) => Ok(form),
        Err(_) => Ok(Sexp::List(Rows::new(alloc))),
    }
}

/// Makes COMMON-LISP the global package.
fn move_to_common_lisp(alloc: Global, image: &mut Image) -> Result<(), NoMemory> {
    let call = form(alloc, "(swank:set-package \"CL\")")?;
    let package = Text::of(alloc, "COMMON-LISP-USER")?;
    let answer = call_rpc(alloc, &call, &package, image)?;
    drop(answer);
    Ok(())
}

/// What the value 25 makes of a listener's request that began in COMMON-LISP-USER.
fn ended(alloc: Global, image: &Image, outs: &mut Rows<ToEmacs>) -> Result<Answer, NoMemory> {
    let call = form(alloc, "(swank-repl:listener-eval \"\")")?;
    let kept = form(alloc, "(t \"COMMON-LISP-USER\")")?;
    let package = Text::of(alloc, "COMMON-LISP-USER")?;
    end_rpc(alloc, &call, &kept, Value::Int(25), &package, image, outs)
}

/// Whether an answer is the reply NIL.
fn is_nil(answer: Answer) -> bool {
    match &answer {
        Answer::Value(Sexp::List(items)) => items.is_empty(),
        _ => false,
    }
}

/// Whether a message is this result of the REPL.
fn is_result(message: &ToEmacs, want: &str) -> bool {
    match message {
        ToEmacs::WriteString { text, repl_result } => *repl_result && text.as_str() == want,
        _ => false,
    }
}

/// Whether a message tells a package of this name and prompt.
fn is_package(message: &ToEmacs, want: &str, shown: &str) -> bool {
    match message {
        ToEmacs::NewPackage { name, prompt } => name.as_str() == want && prompt.as_str() == shown,
        _ => false,
    }
}

/// Whether these are a result of the REPL, and then the package CL.
fn moves(outs: &[ToEmacs]) -> bool {
    match outs {
        [result, package] => {
            is_result(result, "25\n") && is_package(package, "COMMON-LISP", "CL")
        }
        _ => false,
    }
}

/// Whether the REPL tells its result and then the package that is global now.
fn tells_the_package(alloc: Global, image: &mut Image) -> Result<bool, NoMemory> {
    move_to_common_lisp(alloc, image)?;
    let mut outs = Rows::new(alloc);
    let answer = ended(alloc, image, &mut outs)?;
    Ok(is_nil(answer) && moves(outs.as_slice()))
}

#[test]
fn a_new_package_is_told_behind_the_result(rt: HostRuntime) -> Result<(), Fail> {
    let alloc = rt.alloc();
    let mut image = Image::new(alloc)?;
    assert!(rt; tells_the_package(alloc, &mut image)?);
    Ok(())
}
