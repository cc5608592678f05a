ghost use Rattle.std.specs.Prelude.{◌≡◌, ◌↔◌, IfOk};
ghost use Rattle.lisp_data.specs.Parts.{form_text};
ghost use Rattle.lisp_data.specs.declared.sexp.Sexp.{out-Sexp};
ghost use Rattle.rpc_messages.specs.Incoming as incoming;
ghost use Rattle.rpc_messages.specs.Incoming.{Finds, message_in};

use lisp_data::{NoMemory, Sexp, Text};
use std::alloc::Global;

/// The thread that a message names.
#[derive(Clone, Copy, Debug, PartialEq, Eq)]
pub enum ThreadName {
    /// `t`: in a request a new worker, in an interrupt the worker that was last sent a request.
    New,
    /// `:repl-thread`: the thread of the REPL.
    Repl,
    /// A thread's own number.
    Id(u64),
}

/// A message from Emacs, after `dispatch-event` of SLIME's `swank.lisp`.
#[derive(Drop)]
pub enum FromEmacs {
    /// `(:emacs-rex FORM PACKAGE THREAD ID)`: evaluate FORM, and answer with ID.
    Rex {
        form: Sexp,
        package: Option<Text>,
        thread: ThreadName,
        id: i64,
    },
    /// `(:emacs-interrupt THREAD)`
    Interrupt {
        thread: ThreadName,
    },
    /// `(:emacs-return-string THREAD TAG STRING)`: the line that the question of this tag asked for.
    ReturnString {
        thread: ThreadName,
        tag: u64,
        text: Text,
    },
    /// `(:emacs-return THREAD TAG VALUE)`: the answer to the question of this tag.
    Return {
        thread: ThreadName,
        tag: u64,
        value: Sexp,
    },
    /// What is no message: the packet, cut, and what is wrong with it.
    Unreadable {
        packet: Text,
        text: Text,
    },
}

/// Why a form gave no message.
#[derive(Clone, Copy, Debug, PartialEq, Eq)]
pub enum MessageFault {
    /// The form has none of the four shapes.
    UnknownMessage,
    NoMemory,
}

impl From<NoMemory> for MessageFault {
    ghost use Rattle.std.specs.Prelude.{◌≡◌};
    ghost use Rattle.rpc_messages.specs.declared.from_emacs.MessageFault.TheVariants.{NoMemory};

    ghost from_gives = { λ _ fault. fault ≡ NoMemory };

    fn from(_none: NoMemory) -> MessageFault {
        MessageFault::NoMemory
    }
}

fn is_symbol(form: &Sexp, name: &str) -> bool
    ensures { result ≡ incoming.is_symbol name.now (out-Sexp form.now) }
{
    match form {
        Sexp::Sym(token) => token.as_str().eq_ignore_ascii_case(name),
        _ => false,
    }
}

fn integer(form: &Sexp) -> Option<i64>
    ensures { result ≡ incoming.integer_in (out-Sexp form.now) }
{
    match form {
        Sexp::Int(number) => Some(*number),
        _ => None,
    }
}

/// A number from 0 up.
fn natural(form: &Sexp) -> Option<u64>
    ensures { result ≡ incoming.natural_in (out-Sexp form.now) }
{
    match form {
        Sexp::Int(number) => u64::try_from(*number).ok(),
        _ => None,
    }
}

fn thread_name(form: &Sexp) -> Option<ThreadName>
    ensures { result ≡ incoming.thread_in (out-Sexp form.now) }
{
    if is_symbol(form, "t") {
        return Some(ThreadName::New);
    }
    if is_symbol(form, ":repl-thread") {
        return Some(ThreadName::Repl);
    }
    Some(ThreadName::Id(natural(form)?))
}

/// The name of a thread that stands already, so not `t`.
fn standing_thread(form: &Sexp) -> Option<ThreadName>
    ensures { result ≡ incoming.standing_in (out-Sexp form.now) }
{
    match thread_name(form) {
        Some(ThreadName::New) => None,
        name => name,
    }
}

fn string(alloc: Global, form: &Sexp) -> Result<Text, MessageFault>
    ensures { Finds result (form_text form.now) }
{
    match form.as_text() {
        Some(text) => Ok(text.copy(alloc)?),
        None => Err(MessageFault::UnknownMessage),
    }
}

/// A string, or nil.
fn string_or_nil(alloc: Global, form: &Sexp) -> Result<Option<Text>, MessageFault>
    ensures { Finds result (incoming.package_in (out-Sexp form.now)) }
{
    match form {
        Sexp::Str(text) => Ok(Some(text.copy(alloc)?)),
        Sexp::List(items) if items.is_empty() => Ok(None),
        _ => Err(MessageFault::UnknownMessage),
    }
}

fn rex(alloc: Global, parts: &[Sexp]) -> Result<FromEmacs, MessageFault>
    ensures { Finds result (incoming.rex_in parts.now) }
{
    let [form, package, thread, id, ..] = parts else {
        return Err(MessageFault::UnknownMessage);
    };
    let (Some(thread), Some(id)) = (thread_name(thread), integer(id)) else {
        return Err(MessageFault::UnknownMessage);
    };
    let package = string_or_nil(alloc, package)?;
    let form = form.copy(alloc)?;
    Ok(FromEmacs::Rex {
        form,
        package,
        thread,
        id,
    })
}

fn interrupt(parts: &[Sexp]) -> Result<FromEmacs, MessageFault>
    ensures { Finds result (incoming.interrupt_in parts.now) }
{
    let [thread, ..] = parts else {
        return Err(MessageFault::UnknownMessage);
    };
    match thread_name(thread) {
        Some(thread) => Ok(FromEmacs::Interrupt { thread }),
        None => Err(MessageFault::UnknownMessage),
    }
}

fn return_string(alloc: Global, parts: &[Sexp]) -> Result<FromEmacs, MessageFault>
    ensures { Finds result (incoming.return_string_in parts.now) }
{
    let [thread, tag, text, ..] = parts else {
        return Err(MessageFault::UnknownMessage);
    };
    let (Some(thread), Some(tag)) = (standing_thread(thread), natural(tag)) else {
        return Err(MessageFault::UnknownMessage);
    };
    let text = string(alloc, text)?;
    Ok(FromEmacs::ReturnString { thread, tag, text })
}

fn return_value(alloc: Global, parts: &[Sexp]) -> Result<FromEmacs, MessageFault>
    ensures { Finds result (incoming.return_in parts.now) }
{
    let [thread, tag, value, ..] = parts else {
        return Err(MessageFault::UnknownMessage);
    };
    let (Some(thread), Some(tag)) = (standing_thread(thread), natural(tag)) else {
        return Err(MessageFault::UnknownMessage);
    };
    let value = value.copy(alloc)?;
    Ok(FromEmacs::Return { thread, tag, value })
}

fn message(alloc: Global, head: &Sexp, parts: &[Sexp]) -> Result<FromEmacs, MessageFault>
    ensures { Finds result (incoming.message_at head.now parts.now) }
{
    if is_symbol(head, ":emacs-rex") {
        rex(alloc, parts)
    } else if is_symbol(head, ":emacs-interrupt") {
        interrupt(parts)
    } else if is_symbol(head, ":emacs-return-string") {
        return_string(alloc, parts)
    } else if is_symbol(head, ":emacs-return") {
        return_value(alloc, parts)
    } else {
        Err(MessageFault::UnknownMessage)
    }
}

/// The message that a form is. Elements after those of its shape are ignored, and the message keeps copies.
pub fn of_sexp(alloc: Global, form: &Sexp) -> Result<FromEmacs, MessageFault>
    ensures found { IfOk result (λ m. message_in form.now ≡ Some m) }
    ensures unknown { (result ≡ Err MessageFault.UnknownMessage) ↔ (message_in form.now ≡ None) }
{
    match form.as_list() {
        Some([head, parts @ ..]) => message(alloc, head, parts),
        _ => Err(MessageFault::UnknownMessage),
    }
}
