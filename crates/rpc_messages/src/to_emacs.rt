ghost use mir.Syntax.{w64};
ghost use Rattle.std.specs.Prelude.{◌≡◌, ◌^◌, ◌<◌, [], ◌∷◌, All, codes, FitsSigned, IfOk, OnOk, map};
ghost use Rattle.lisp_data.specs.Sexp.{nil};
ghost use Rattle.lisp_data.specs.declared.sexp.Sexp.TheVariants as form;
ghost use Rattle.rpc_messages.specs.Outgoing as outgoing;
ghost use Rattle.rpc_messages.specs.Outgoing.{form_of, HasSmallNumbers};
ghost use Rattle.rpc_messages.specs.Plain.{ReturnsPlain, HasTexts, HasText, IsSound};
ghost use Rattle.sexp_printer.specs.Plain.{IsPlain};
ghost use Rattle.sexp_reader.specs.Grammar.{max_open};

use lisp_data::{NoMemory, Rows, Sexp, Text};
use std::alloc::Global;

/// How a request ended.
#[derive(Drop)]
pub enum Returned {
    Ok(Sexp),
    Abort,
}

/// A restart as a debugger level lists it.
#[derive(Drop)]
pub struct RestartLine {
    pub name: Text,
    pub text: Text,
}

/// A frame as a debugger level lists it, with its number from 0.
#[derive(Drop)]
pub struct FrameLine {
    pub number: u64,
    pub text: Text,
}

/// A message to Emacs. Each form is what `slime-dispatch-event` of SLIME takes.
#[derive(Drop)]
pub enum ToEmacs {
    /// `(:return (:ok VALUE) ID)` or `(:return (:abort "NIL") ID)`
    Return {
        id: i64,
        result: Returned,
    },
    /// `(:invalid-rpc ID TEXT)`
    InvalidRpc {
        id: i64,
        text: Text,
    },
    /// `(:reader-error PACKET TEXT)`
    ReaderError {
        packet: Text,
        text: Text,
    },
    /// `(:write-string TEXT)`, or `(:write-string TEXT :repl-result)`
    WriteString {
        text: Text,
        repl_result: bool,
    },
    /// `(:read-string THREAD TAG)`
    ReadString {
        thread: u64,
        tag: u64,
    },
    /// `(:read-aborted THREAD TAG)`
    ReadAborted {
        thread: u64,
        tag: u64,
    },
    /// `(:y-or-n-p THREAD TAG TEXT)`
    YesNo {
        thread: u64,
        tag: u64,
        text: Text,
    },
    /// `(:new-package NAME PROMPT)`
    NewPackage {
        name: Text,
        prompt: Text,
    },
    /// `(:debug THREAD LEVEL (MESSAGE TYPELINE nil) RESTARTS FRAMES CONTINUATIONS)`, the restarts and the ids of the pending
    /// requests innermost first
    Debug {
        thread: u64,
        level: u64,
        message: Text,
        type_line: Text,
        restarts: Rows<RestartLine>,
        frames: Rows<FrameLine>,
        continuations: Rows<i64>,
    },
    /// `(:debug-activate THREAD LEVEL nil)`
    DebugActivate {
        thread: u64,
        level: u64,
    },
    /// `(:debug-return THREAD LEVEL nil)`
    DebugReturn {
        thread: u64,
        level: u64,
    },
    /// `(:debug-condition THREAD TEXT)`
    DebugCondition {
        thread: u64,
        text: Text,
    },
}

fn integer(n: &i64) -> Sexp
    ensures form { result ≡ form.Int n.now }
    ensures fits { FitsSigned w64 n.now }
{
    Sexp::Int(*n)
}

fn number(n: u64) -> Sexp
    requires { n < 2 ^ 63 }
    ensures { result ≡ outgoing.number n }
{
    Sexp::Int(n as i64)
}

fn result_form(alloc: Global, how: &Returned) -> Result<Sexp, NoMemory>
    ensures { IfOk result (λ x. x ≡ outgoing.returned_form how.now) }
{
    let parts = match how {
        Returned::Ok(value) => [Sexp::symbol(alloc, ":OK")?, value.copy(alloc)?],
        Returned::Abort => [Sexp::symbol(alloc, ":ABORT")?, Sexp::string(alloc, "NIL")?],
    };
    Ok(Sexp::list(alloc, parts)?)
}

/// `(HEAD FIRST SECOND)`, of two texts.
fn of_texts(alloc: Global, head: &str, first: &str, second: &str) -> Result<Sexp, NoMemory>
    ensures { IfOk result (λ x. x ≡ outgoing.message head.now (form.Str first.now ∷ form.Str second.now ∷ [])) }
{
    let parts = [
        Sexp::symbol(alloc, head)?,
        Sexp::string(alloc, first)?,
        Sexp::string(alloc, second)?,
    ];
    Ok(Sexp::list(alloc, parts)?)
}

/// `(HEAD THREAD NUMBER MORE)`
fn of_thread_and(
    alloc: Global,
    head: &str,
    thread: u64,
    tag: u64,
    more: Sexp,
) -> Result<Sexp, NoMemory>
    requires thread { thread < 2 ^ 63 }
    requires tag { tag < 2 ^ 63 }
    ensures { IfOk result (λ x. x ≡ outgoing.message head.now (outgoing.number thread ∷ outgoing.number tag ∷ more ∷ [])) }
{
    let parts = [
        Sexp::symbol(alloc, head)?,
        number(thread),
        number(tag),
        more,
    ];
    Ok(Sexp::list(alloc, parts)?)
}

fn write_string(alloc: Global, text: &str, repl_result: bool) -> Result<Sexp, NoMemory>
    ensures { IfOk result (λ x. x ≡ outgoing.write_string_form text.now repl_result) }
{
    let head = Sexp::symbol(alloc, ":WRITE-STRING")?;
    let text = Sexp::string(alloc, text)?;
    if repl_result {
        let mark = Sexp::symbol(alloc, ":REPL-RESULT")?;
        return Ok(Sexp::list(alloc, [head, text, mark])?);
    }
    Ok(Sexp::list(alloc, [head, text])?)
}

fn restart_line(alloc: Global, line: &RestartLine) -> Result<Sexp, NoMemory>
    ensures form { IfOk result (λ x. x ≡ outgoing.restart_form line.now) }
    ensures texts { HasTexts line.now }
{
    let name = line.name.as_str();
    let text = line.text.as_str();
    let parts = [Sexp::string(alloc, name)?, Sexp::string(alloc, text)?];
    Ok(Sexp::list(alloc, parts)?)
}

fn frame_line(alloc: Global, line: &FrameLine) -> Result<Sexp, NoMemory>
    requires { line.now.number < 2 ^ 63 }
    ensures form { IfOk result (λ x. x ≡ outgoing.frame_form line.now) }
    ensures text { HasText line.now }
{
    let parts = [
        number(line.number),
        Sexp::string(alloc, line.text.as_str())?,
    ];
    Ok(Sexp::list(alloc, parts)?)
}

fn restart_lines(alloc: Global, lines: &[RestartLine]) -> Result<Sexp, NoMemory>
    ensures form { IfOk result (λ x. x ≡ form.List (map outgoing.restart_form lines.now)) }
    ensures texts { OnOk result (All HasTexts lines.now) }
{
    let mut items = Rows::new(alloc);
    for line in lines {
        items.push(restart_line(alloc, line)?)?;
    }
    Ok(Sexp::List(items))
}

fn frame_lines(alloc: Global, lines: &[FrameLine]) -> Result<Sexp, NoMemory>
    requires { All (λ line. line.number < 2 ^ 63) lines.now }
    ensures form { IfOk result (λ x. x ≡ form.List (map outgoing.frame_form lines.now)) }
    ensures texts { OnOk result (All HasText lines.now) }
{
    let mut items = Rows::new(alloc);
    for line in lines {
        items.push(frame_line(alloc, line)?)?;
    }
    Ok(Sexp::List(items))
}

fn ids(alloc: Global, ids: &[i64]) -> Result<Sexp, NoMemory>
    ensures form { IfOk result (λ x. x ≡ form.List (map form.Int ids.now)) }
    ensures fits { OnOk result (All (FitsSigned w64) ids.now) }
{
    let mut items = Rows::new(alloc);
    for id in ids {
        items.push(integer(id))?;
    }
    Ok(Sexp::List(items))
}

fn heading(alloc: Global, message: &str, type_line: &str) -> Result<Sexp, NoMemory>
    ensures { IfOk result (λ x. x ≡ outgoing.heading_form message.now type_line.now) }
{
    let parts = [
        Sexp::string(alloc, message)?,
        Sexp::string(alloc, type_line)?,
        Sexp::nil(alloc),
    ];
    Ok(Sexp::list(alloc, parts)?)
}

fn return_message(alloc: Global, id: i64, how: &Returned) -> Result<Sexp, NoMemory>
    ensures { IfOk result (λ x. x ≡ outgoing.message (codes ":RETURN") (outgoing.returned_form how.now ∷ form.Int id ∷ [])) }
{
    let parts = [
        Sexp::symbol(alloc, ":RETURN")?,
        result_form(alloc, how)?,
        Sexp::Int(id),
    ];
    Ok(Sexp::list(alloc, parts)?)
}

/// `(HEAD NUMBER TEXT)`
fn of_number_and_text(alloc: Global, head: &str, number: Sexp, text: &str) -> Result<Sexp, NoMemory>
    ensures { IfOk result (λ x. x ≡ outgoing.message head.now (number ∷ form.Str text.now ∷ [])) }
{
    let parts = [
        Sexp::symbol(alloc, head)?,
        number,
        Sexp::string(alloc, text)?,
    ];
    Ok(Sexp::list(alloc, parts)?)
}

/// `(HEAD THREAD TAG)`
fn of_question(alloc: Global, head: &str, thread: u64, tag: u64) -> Result<Sexp, NoMemory>
    requires thread { thread < 2 ^ 63 }
    requires tag { tag < 2 ^ 63 }
    ensures { IfOk result (λ x. x ≡ outgoing.message head.now (outgoing.number thread ∷ outgoing.number tag ∷ [])) }
{
    let parts = [Sexp::symbol(alloc, head)?, number(thread), number(tag)];
    Ok(Sexp::list(alloc, parts)?)
}

fn yes_no(alloc: Global, thread: u64, tag: u64, text: &str) -> Result<Sexp, NoMemory>
    requires thread { thread < 2 ^ 63 }
    requires tag { tag < 2 ^ 63 }
    ensures { IfOk result (λ x. x ≡ outgoing.message (codes ":Y-OR-N-P") (outgoing.number thread ∷ outgoing.number tag ∷ form.Str text.now ∷ [])) }
{
    let text = Sexp::string(alloc, text)?;
    of_thread_and(alloc, ":Y-OR-N-P", thread, tag, text)
}

/// `(HEAD THREAD LEVEL nil)`
fn of_level(alloc: Global, head: &str, thread: u64, level: u64) -> Result<Sexp, NoMemory>
    requires thread { thread < 2 ^ 63 }
    requires level { level < 2 ^ 63 }
    ensures { IfOk result (λ x. x ≡ outgoing.message head.now (outgoing.number thread ∷ outgoing.number level ∷ nil ∷ [])) }
{
    of_thread_and(alloc, head, thread, level, Sexp::nil(alloc))
}

/// A debugger level: its parts after the thread and the level, as forms.
#[derive(Drop)]
struct LevelParts {
    heading: Sexp,
    restarts: Sexp,
    frames: Sexp,
    continuations: Sexp,
}

fn debug(alloc: Global, thread: u64, level: u64, parts: LevelParts) -> Result<Sexp, NoMemory>
    requires thread { thread < 2 ^ 63 }
    requires level { level < 2 ^ 63 }
    ensures { IfOk result (λ x. x ≡ outgoing.message (codes ":DEBUG") (outgoing.number thread ∷ outgoing.number level ∷ parts.heading ∷ parts.restarts ∷ parts.frames ∷ parts.continuations ∷ [])) }
{
    let parts = [
        Sexp::symbol(alloc, ":DEBUG")?,
        number(thread),
        number(level),
        parts.heading,
        parts.restarts,
        parts.frames,
        parts.continuations,
    ];
    Ok(Sexp::list(alloc, parts)?)
}

fn made(alloc: Global, m: &ToEmacs) -> Result<Sexp, NoMemory>
    requires { HasSmallNumbers m.now }
    ensures form { IfOk result (λ x. x ≡ form_of m.now) }
    ensures sound { OnOk result (IsSound m.now) }
{
    match m {
        ToEmacs::Return { id, result: how } => return_message(alloc, *id, how),
        ToEmacs::InvalidRpc { id, text } => {
            of_number_and_text(alloc, ":INVALID-RPC", integer(id), text.as_str())
        }
        ToEmacs::ReaderError { packet, text } => {
            of_texts(alloc, ":READER-ERROR", packet.as_str(), text.as_str())
        }
        ToEmacs::WriteString { text, repl_result } => write_string(
            alloc,
            text.as_str(),
            *repl_result,
        ),
        ToEmacs::ReadString { thread, tag } => of_question(alloc, ":READ-STRING", *thread, *tag),
        ToEmacs::ReadAborted { thread, tag } => of_question(alloc, ":READ-ABORTED", *thread, *tag),
        ToEmacs::YesNo { thread, tag, text } => yes_no(alloc, *thread, *tag, text.as_str()),
        ToEmacs::NewPackage { name, prompt } => {
            of_texts(alloc, ":NEW-PACKAGE", name.as_str(), prompt.as_str())
        }
        ToEmacs::Debug {
            thread,
            level,
            message,
            type_line,
            restarts,
            frames,
            continuations,
        } => {
            let parts = LevelParts {
                heading: heading(alloc, message.as_str(), type_line.as_str())?,
                restarts: restart_lines(alloc, restarts.as_slice())?,
                frames: frame_lines(alloc, frames.as_slice())?,
                continuations: ids(alloc, continuations.as_slice())?,
            };
            debug(alloc, *thread, *level, parts)
        }
        ToEmacs::DebugActivate { thread, level } => of_level(
            alloc,
            ":DEBUG-ACTIVATE",
            *thread,
            *level,
        ),
        ToEmacs::DebugReturn { thread, level } => of_level(alloc, ":DEBUG-RETURN", *thread, *level),
        ToEmacs::DebugCondition { thread, text } => {
            of_number_and_text(alloc, ":DEBUG-CONDITION", number(*thread), text.as_str())
        }
    }
}

/// The form of a message. Tokens are in upper case, as the reader gives them. The form is plain, so that its wire text is read
/// back as this form.
pub fn to_sexp(alloc: Global, m: &ToEmacs) -> Result<Sexp, NoMemory>
    requires { HasSmallNumbers m.now }
    ensures form { IfOk result (λ x. x ≡ form_of m.now) }
    ensures plain { ReturnsPlain m.now → IfOk result (λ x. IsPlain max_open x) }
{
    made(alloc, m)
}
