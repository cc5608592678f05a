ghost use Rattle.std.specs.Prelude.{◌<◌, ◌^◌, All, IfOk};
ghost use Rattle.rpc_messages.specs.Outgoing.{HasSmallNumbers};

use crate::{
    FrameLine, FromEmacs, MessageFault, Pattern, RestartLine, Returned, ThreadName, ToEmacs,
    accepts, cut, of_sexp, to_sexp,
};
use lisp_data::{NoMemory, Rows, Sexp, Text};
use sexp_printer::print_wire;
use sexp_reader::read_form;
use std::alloc::Global;
use std::test::Fail;

/// The message of the form that a text spells.
fn message(alloc: Global, text: &str) -> Result<FromEmacs, Fail> {
    let form = read_form(alloc, &Text::of(alloc, text)?)?;
    Ok(of_sexp(alloc, &form)?)
}

#[test]
fn a_request_is_read(rt: HostRuntime) -> Result<(), Fail> {
    let message = message(rt.alloc(), "(:emacs-rex (swank:quit-lisp) \"CL-USER\" t 1)")?;
    assert!(rt;
        matches!(
            &message,
            FromEmacs::Rex {
                form: Sexp::List(items),
                package: Some(name),
                thread: ThreadName::New,
                id: 1,
            } if items.len() == 1 && name.as_str() == "CL-USER"
        )
    );
    Ok(())
}

#[test]
fn heads_have_any_case_and_further_elements_are_ignored(rt: HostRuntime) -> Result<(), Fail> {
    let message = message(rt.alloc(), "(:Emacs-Rex 42 nil :REPL-thread -7 9)")?;
    assert!(rt;
        matches!(
            &message,
            FromEmacs::Rex {
                form: Sexp::Int(42),
                package: None,
                thread: ThreadName::Repl,
                id: -7,
            }
        )
    );
    Ok(())
}

#[test]
fn an_interrupt_is_read(rt: HostRuntime) -> Result<(), Fail> {
    let message = message(rt.alloc(), "(:emacs-interrupt 99)")?;
    assert!(rt;
        matches!(
            &message,
            FromEmacs::Interrupt {
                thread: ThreadName::Id(99)
            }
        )
    );
    Ok(())
}

#[test]
fn the_line_of_a_question_is_read(rt: HostRuntime) -> Result<(), Fail> {
    let message = message(rt.alloc(), "(:emacs-return-string 1 2 \"hi\n\")")?;
    assert!(rt;
        matches!(
            &message,
            FromEmacs::ReturnString {
                thread: ThreadName::Id(1),
                tag: 2,
                text,
            } if text.as_str() == "hi\n"
        )
    );
    Ok(())
}

#[test]
fn the_value_of_a_question_is_read(rt: HostRuntime) -> Result<(), Fail> {
    let message = message(rt.alloc(), "(:emacs-return :repl-thread 2 t)")?;
    assert!(rt;
        matches!(
            &message,
            FromEmacs::Return {
                thread: ThreadName::Repl,
                tag: 2,
                value: Sexp::Sym(name),
            } if name.as_str() == "T"
        )
    );
    Ok(())
}

/// Whether a text spells a form of which no message is known.
fn is_unknown(alloc: Global, text: &str) -> Result<bool, Fail> {
    let form = read_form(alloc, &Text::of(alloc, text)?)?;
    let answer = of_sexp(alloc, &form);
    Ok(matches!(&answer, Err(MessageFault::UnknownMessage)))
}

#[test]
fn shapes_that_nearly_fit_are_unknown(rt: HostRuntime) -> Result<(), Fail> {
    for text in [
        "42",
        "(:emacs-rex)",
        "(emacs-rex (f) \"P\" t 1)",
        "((:emacs-rex) (f) \"P\" t 1)",
        "(:emacs-rex (f) \"P\" t)",
        "(:emacs-rex (f) p t 1)",
        "(:emacs-rex (f) \"P\" -1 1)",
        "(:emacs-rex (f) \"P\" :repl 1)",
        "(:emacs-rex (f) \"P\" t \"1\")",
        "(:emacs-interrupt)",
        "(:emacs-interrupt \"t\")",
        "(:emacs-return-string t 1 \"a\")",
        "(:emacs-return-string 1 -1 \"a\")",
        "(:emacs-return-string 1 1 a)",
        "(:emacs-return t 1 nil)",
        "(:emacs-return 1 1)",
    ] {
        assert!(rt; is_unknown(rt.alloc(), text)?, "{text}");
    }
    Ok(())
}

/// Whether this is what is printed of a message.
fn prints(alloc: Global, message: ToEmacs, text: &str) -> Result<bool, NoMemory>
    requires { HasSmallNumbers message }
{
    let form = to_sexp(alloc, &message)?;
    Ok(print_wire(alloc, &form)?.as_str() == text)
}

#[test]
fn the_value_of_a_request_is_written(rt: HostRuntime) -> Result<(), Fail> {
    let value = Sexp::Str(Text::of(rt.alloc(), "=> 3")?);
    let message = ToEmacs::Return {
        id: 1,
        result: Returned::Ok(value),
    };
    assert!(rt; prints(rt.alloc(), message, "(:return (:ok \"=> 3\") 1)")?);
    Ok(())
}

#[test]
fn an_abort_is_written(rt: HostRuntime) -> Result<(), Fail> {
    let message = ToEmacs::Return {
        id: -7,
        result: Returned::Abort,
    };
    assert!(rt; prints(rt.alloc(), message, "(:return (:abort \"NIL\") -7)")?);
    Ok(())
}

#[test]
fn a_request_of_no_thread_is_written(rt: HostRuntime) -> Result<(), Fail> {
    let text = Text::of(rt.alloc(), "Thread not found: 99")?;
    let message = ToEmacs::InvalidRpc { id: 5, text };
    assert!(rt;
        prints(
            rt.alloc(),
            message,
            "(:invalid-rpc 5 \"Thread not found: 99\")"
        )?
    );
    Ok(())
}

#[test]
fn an_interrupt_of_no_thread_is_written(rt: HostRuntime) -> Result<(), Fail> {
    let text = Text::of(rt.alloc(), "Thread not found: 99")?;
    let message = ToEmacs::DebugCondition { thread: 99, text };
    assert!(rt;
        prints(
            rt.alloc(),
            message,
            "(:debug-condition 99 \"Thread not found: 99\")"
        )?
    );
    Ok(())
}

#[test]
fn what_could_not_be_read_is_written(rt: HostRuntime) -> Result<(), Fail> {
    let packet = Text::of(rt.alloc(), "(a")?;
    let text = Text::of(rt.alloc(), "Unclosed")?;
    let message = ToEmacs::ReaderError { packet, text };
    assert!(rt; prints(rt.alloc(), message, "(:reader-error \"(a\" \"Unclosed\")")?);
    Ok(())
}

#[test]
fn output_is_written(rt: HostRuntime) -> Result<(), Fail> {
    let text = Text::of(rt.alloc(), "a")?;
    let message = ToEmacs::WriteString {
        text,
        repl_result: false,
    };
    assert!(rt; prints(rt.alloc(), message, "(:write-string \"a\")")?);
    Ok(())
}

#[test]
fn the_result_of_a_listener_is_written(rt: HostRuntime) -> Result<(), Fail> {
    let text = Text::of(rt.alloc(), "SQ\n")?;
    let message = ToEmacs::WriteString {
        text,
        repl_result: true,
    };
    assert!(rt; prints(rt.alloc(), message, "(:write-string \"SQ\n\" :repl-result)")?);
    Ok(())
}

#[test]
fn a_question_of_a_line_and_its_end_are_written(rt: HostRuntime) -> Result<(), Fail> {
    let (thread, tag) = (1, 2);
    let question = ToEmacs::ReadString { thread, tag };
    assert!(rt; prints(rt.alloc(), question, "(:read-string 1 2)")?);
    let end = ToEmacs::ReadAborted { thread, tag };
    assert!(rt; prints(rt.alloc(), end, "(:read-aborted 1 2)")?);
    Ok(())
}

#[test]
fn a_yes_or_no_question_is_written(rt: HostRuntime) -> Result<(), Fail> {
    let text = Text::of(rt.alloc(), "ok?")?;
    let message = ToEmacs::YesNo {
        thread: 1,
        tag: 2,
        text,
    };
    assert!(rt; prints(rt.alloc(), message, "(:y-or-n-p 1 2 \"ok?\")")?);
    Ok(())
}

#[test]
fn a_new_package_is_written(rt: HostRuntime) -> Result<(), Fail> {
    let name = Text::of(rt.alloc(), "COMMON-LISP-USER")?;
    let prompt = Text::of(rt.alloc(), "CL-USER")?;
    let message = ToEmacs::NewPackage { name, prompt };
    assert!(rt;
        prints(
            rt.alloc(),
            message,
            "(:new-package \"COMMON-LISP-USER\" \"CL-USER\")"
        )?
    );
    Ok(())
}

fn restart(alloc: Global, name: &str, text: &str) -> Result<RestartLine, NoMemory> {
    Ok(RestartLine {
        name: Text::of(alloc, name)?,
        text: Text::of(alloc, text)?,
    })
}

fn restarts(alloc: Global) -> Result<Rows<RestartLine>, NoMemory> {
    let mut lines = Rows::new(alloc);
    lines.push(restart(alloc, "CONTINUE", "Continue from interrupt.")?)?;
    lines.push(restart(alloc, "*ABORT", "Return to SLIME's top level.")?)?;
    Ok(lines)
}

/// One frame, the first.
fn frames(alloc: Global) -> Result<Rows<FrameLine>, NoMemory>
    ensures { IfOk result (All (λ line. line.number < 2 ^ 63)) }
{
    let mut lines = Rows::new(alloc);
    let text = Text::of(alloc, "(F \"a\")")?;
    lines.push(FrameLine { number: 0, text })?;
    Ok(lines)
}

/// A level that an interrupt opened.
fn level(
    alloc: Global,
    restarts: Rows<RestartLine>,
    frames: Rows<FrameLine>,
    continuations: Rows<i64>,
) -> Result<ToEmacs, NoMemory>
    requires { All (λ line. line.number < 2 ^ 63) frames }
    ensures { IfOk result HasSmallNumbers }
{
    let message = Text::of(alloc, "Interrupt from Emacs")?;
    let type_line = Text::of(alloc, "   [Condition of type SIMPLE-CONDITION]")?;
    Ok(ToEmacs::Debug {
        thread: 1,
        level: 2,
        message,
        type_line,
        restarts,
        frames,
        continuations,
    })
}

#[test]
fn a_level_is_written(rt: HostRuntime) -> Result<(), Fail> {
    let restarts = restarts(rt.alloc())?;
    let frames = frames(rt.alloc())?;
    let continuations = Rows::from_slice(rt.alloc(), &[4, 1])?;
    let message = level(rt.alloc(), restarts, frames, continuations)?;
    let text =
        "(:debug 1 2 (\"Interrupt from Emacs\" \"   [Condition of type SIMPLE-CONDITION]\" nil) ((\"CONTINUE\" \"Continue from interrupt.\") (\"*ABORT\" \"Return to SLIME's top level.\")) ((0 \"(F \\\"a\\\")\")) (4 1))";
    assert!(rt; prints(rt.alloc(), message, text)?);
    Ok(())
}

#[test]
fn a_level_that_opens_and_one_that_closes_are_written(rt: HostRuntime) -> Result<(), Fail> {
    let (thread, level) = (1, 2);
    let opens = ToEmacs::DebugActivate { thread, level };
    assert!(rt; prints(rt.alloc(), opens, "(:debug-activate 1 2 nil)")?);
    let closes = ToEmacs::DebugReturn { thread, level };
    assert!(rt; prints(rt.alloc(), closes, "(:debug-return 1 2 nil)")?);
    Ok(())
}

#[test]
fn texts_are_cut_after_a_thousand_characters(rt: HostRuntime) -> Result<(), Fail> {
    let alloc = rt.alloc();
    let mut text = Text::new(alloc);
    for _ in 0..999u16 {
        text.push('a')?;
    }
    text.push('\u{e9}')?;
    assert!(rt; cut(alloc, text.as_str())?.same(&text));
    let mut expected = text.copy(alloc)?;
    expected.push_str("...")?;
    text.push('b')?;
    assert!(rt; cut(alloc, text.as_str())?.same(&expected));
    Ok(())
}

#[test]
fn a_pattern_takes_its_own_tag(rt: HostRuntime) -> Result<(), Fail> {
    let alloc = rt.alloc();
    let line = FromEmacs::ReturnString {
        thread: ThreadName::Id(1),
        tag: 2,
        text: Text::of(alloc, "a")?,
    };
    assert!(rt; accepts(&Pattern::StringFor(2), &line));
    assert!(rt; !accepts(&Pattern::StringFor(1), &line));
    assert!(rt; !accepts(&Pattern::ValueFor(2), &line));
    assert!(rt; !accepts(&Pattern::Rex, &line));
    Ok(())
}
