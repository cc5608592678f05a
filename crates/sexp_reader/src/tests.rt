use crate::{read_all, read_form};
use lisp_data::{NoMemory, Sexp, Text};
use std::alloc::Global;
use std::test::Fail;

/// Writes a form with its lists in parentheses and its strings in angle brackets.
fn show(alloc: Global, form: &Sexp, out: &mut Text) -> Result<(), NoMemory> {
    match form {
        Sexp::Int(number) => out.push_str(format!(in alloc; "{number}")?.as_str())?,
        Sexp::Str(text) => {
            out.push('<')?;
            out.push_str(text.as_str())?;
            out.push('>')?;
        }
        Sexp::Sym(token) => out.push_str(token.as_str())?,
        Sexp::List(items) => {
            out.push('(')?;
            for (i, item) in items.as_slice().iter().enumerate() {
                if i > 0 {
                    out.push(' ')?;
                }
                show(alloc, item, out)?;
            }
            out.push(')')?;
        }
    }
    Ok(())
}

/// What reading one form answers: the form, or the name of the fault.
fn read_one(alloc: Global, text: &Text) -> Result<Text, NoMemory> {
    let mut out = Text::new(alloc);
    match read_form(alloc, text) {
        Ok(form) => show(alloc, &form, &mut out)?,
        Err(fault) => out.push_str(format!(in alloc; "{fault:?}")?.as_str())?,
    }
    Ok(out)
}

/// What reading all forms answers: each with its place, or the name of the fault.
fn read_many(alloc: Global, text: &str) -> Result<Text, NoMemory> {
    let mut out = Text::new(alloc);
    match read_all(alloc, &Text::of(alloc, text)?) {
        Ok(forms) => {
            for placed in forms.as_slice() {
                let at = placed.at;
                out.push_str(format!(in alloc; "{at}:")?.as_str())?;
                show(alloc, &placed.form, &mut out)?;
                out.push(' ')?;
            }
        }
        Err(fault) => out.push_str(format!(in alloc; "{fault:?}")?.as_str())?,
    }
    Ok(out)
}

/// A text of so many of one part and then so many of another.
fn repeated(alloc: Global, first: &str, last: &str, times: u64) -> Result<Text, NoMemory> {
    let mut text = Text::new(alloc);
    for _ in 0..times {
        text.push_str(first)?;
    }
    for _ in 0..times {
        text.push_str(last)?;
    }
    Ok(text)
}

#[test]
fn forms_and_faults_come_as_worked_by_hand(rt: HostRuntime) -> Result<(), Fail> {
    let alloc = rt.alloc();
    for (text, want) in [
        (
            "(:emacs-rex (swank:connection-info) \"COMMON-LISP-USER\" t 1)",
            "(:EMACS-REX (SWANK:CONNECTION-INFO) <COMMON-LISP-USER> T 1)",
        ),
        ("9223372036854775807", "9223372036854775807"),
        ("-9223372036854775808", "-9223372036854775808"),
        ("9223372036854775808", "NumberTooWide"),
        ("-9223372036854775809", "NumberTooWide"),
        ("1 2", "TrailingText"),
        ("1 )", "TrailingText"),
        ("1 #", "TrailingText"),
        ("a\"b\"", "TrailingText"),
        ("1.5 2", "BadToken"),
        (")", "StrayClose"),
        ("(')", "StrayClose"),
        ("#' ; c\n)", "StrayClose"),
        ("", "End"),
        (" \t\n\r\x0C; only", "End"),
        ("(a", "Unclosed"),
        ("\"a", "Unclosed"),
        ("\"a\\", "Unclosed"),
        ("' ; c", "Unclosed"),
        ("#'", "Unclosed"),
        ("(1.5", "BadToken"),
        ("(#", "BadToken"),
    ] {
        assert_eq!(rt;
            read_one(alloc, &Text::of(alloc, text)?)?.as_str(),
            want,
            "at {text}"
        );
    }
    Ok(())
}

#[test]
fn marks_comments_and_strings_are_read(rt: HostRuntime) -> Result<(), Fail> {
    let alloc = rt.alloc();
    for (text, want) in [
        ("'a", "(QUOTE A)"),
        ("#'car", "(FUNCTION CAR)"),
        ("'#''a", "(QUOTE (FUNCTION (QUOTE A)))"),
        ("' ; c\n a", "(QUOTE A)"),
        ("a;c", "A"),
        ("a ; c\n b", "TrailingText"),
        ("(a;c)\nb)", "(A B)"),
        ("(a\"b\"'c)", "(A <b> (QUOTE C))"),
        ("\"a\\\"b\"", "<a\"b>"),
        ("\"\\\\\"", "<\\>"),
        ("\"\\n;(\"", "<n;(>"),
        ("\"é\\é\"", "<éé>"),
        ("( )", "()"),
    ] {
        assert_eq!(rt;
            read_one(alloc, &Text::of(alloc, text)?)?.as_str(),
            want,
            "at {text}"
        );
    }
    Ok(())
}

#[test]
fn tokens_are_integers_or_symbols_or_bad(rt: HostRuntime) -> Result<(), Fail> {
    let alloc = rt.alloc();
    for (text, want) in [
        ("+5", "5"),
        ("-0", "0"),
        ("007", "7"),
        ("+", "+"),
        ("-", "-"),
        ("1+", "1+"),
        ("1-", "1-"),
        ("a1", "A1"),
        ("a.b", "A.B"),
        ("a#b", "A#B"),
        ("Äb", "ÄB"),
        ("nil", "()"),
        ("NiL", "()"),
        ("cl:nil", "CL:NIL"),
        (":x", ":X"),
        ("a:b", "A:B"),
        ("a::b", "A::B"),
    ] {
        assert_eq!(rt;
            read_one(alloc, &Text::of(alloc, text)?)?.as_str(),
            want,
            "at {text}"
        );
    }
    for text in [
        "1.5", ".", "-.5", "1a", "+1+", "2+", "1+1", ":", "::", "::a", "a:", "a::", "a:::b",
        "a:b:c", ":a:b", "a\\b", "a|b", "a,b", "`a", "#a", "#",
    ] {
        assert_eq!(rt;
            read_one(alloc, &Text::of(alloc, text)?)?.as_str(),
            "BadToken",
            "at {text}"
        );
    }
    Ok(())
}

#[test]
fn limits_count_marks_and_characters(rt: HostRuntime) -> Result<(), Fail> {
    let alloc = rt.alloc();
    for (first, last, times, want) in [
        ("(", ")", 500, 499),
        ("'(", ")", 250, 499),
        ("", "é", 1000, 0),
    ] {
        let form = read_form(alloc, &repeated(alloc, first, last, times)?);
        assert!(rt;
            matches!(&form, Ok(form) if form.depth() == want),
            "at {first}"
        );
    }
    for (first, last, times, want) in [
        ("(", ")", 501, "TooDeep"),
        ("#'", "a", 501, "TooDeep"),
        ("(", "", 501, "TooDeep"),
        ("", "é", 1001, "BadToken"),
        ("", "9", 1000, "NumberTooWide"),
        ("", "9", 1001, "BadToken"),
    ] {
        let text = repeated(alloc, first, last, times)?;
        assert_eq!(rt; read_one(alloc, &text)?.as_str(), want, "at {first}{last}");
    }
    Ok(())
}

#[test]
fn places_count_characters(rt: HostRuntime) -> Result<(), Fail> {
    let alloc = rt.alloc();
    for (text, want) in [
        (
            "a é(b)\n'c ; x\n \"é\"1",
            "0:A 2:é 3:(B) 7:(QUOTE C) 15:<é> 18:1 ",
        ),
        ("", ""),
        (" ; c", ""),
        ("a )", "StrayClose"),
        ("a (b", "Unclosed"),
        ("1 2 3.", "BadToken"),
    ] {
        assert_eq!(rt; read_many(alloc, text)?.as_str(), want, "at {text}");
    }
    Ok(())
}
