ghost use Rattle.std.specs.Prelude.{◌≡◌, ◌≢◌, [], IfOk, codes};
ghost use Rattle.sexp_reader.specs.Names.{fault_name};
ghost use Rattle.inlet.specs.Messages.{IsMessageOf, message_or_unknown};
ghost use Rattle.rpc_messages.specs.Cut.{cut};
ghost use Rattle.rpc_messages.specs.Incoming.{message_in};
ghost use Rattle.rpc_messages.specs.declared.from_emacs.FromEmacs.TheVariants as message;

use lisp_data::{NoMemory, Sexp, Text};
use rpc_messages::{FromEmacs, MessageFault, cut as cut_text, of_sexp};
use sexp_reader::{ReadFault, read_form};
use std::alloc::Global;

fn unreadable(alloc: Global, packet: &str, fault: &str) -> Result<FromEmacs, NoMemory>
    ensures { IfOk result (λ m. m ≡ message.Unreadable (cut packet.now) fault.now) }
{
    let packet = cut_text(alloc, packet)?;
    let text = Text::of(alloc, fault)?;
    Ok(FromEmacs::Unreadable { packet, text })
}

fn message_of_form(alloc: Global, packet: &str, form: &Sexp) -> Result<FromEmacs, NoMemory>
    ensures { IfOk result (λ m. m ≡ message_or_unknown packet.now (message_in form.now)) }
{
    match of_sexp(alloc, form) {
        Ok(message) => Ok(message),
        Err(MessageFault::UnknownMessage) => unreadable(alloc, packet, "Unknown message"),
        Err(MessageFault::NoMemory) => Err(NoMemory),
    }
}

/// The message of a payload whose text is no form. Want of memory is no fault of the text.
fn message_of_fault(alloc: Global, packet: &str, fault: ReadFault) -> Result<FromEmacs, NoMemory>
    ensures fault { IfOk result (λ _. fault ≢ ReadFault.NoMemory) }
    ensures value { IfOk result (λ m. m ≡ message.Unreadable (cut packet.now) (fault_name fault)) }
{
    match fault {
        ReadFault::NoMemory => Err(NoMemory),
        _ => unreadable(alloc, packet, fault.name()),
    }
}

fn message_of_text(alloc: Global, packet: &str) -> Result<FromEmacs, NoMemory>
    ensures { IfOk result (IsMessageOf packet.now) }
{
    let text = Text::of(alloc, packet)?;
    match read_form(alloc, &text) {
        Ok(form) => message_of_form(alloc, packet, &form),
        Err(fault) => message_of_fault(alloc, packet, fault),
    }
}

/// The message of a payload. What is no text, no form or no message gives a message that says so, with the payload's text cut to
/// its first 1,000 characters.
pub fn message_of(alloc: Global, payload: &[u8]) -> Result<FromEmacs, NoMemory>
    ensures { IfOk result (IsMessageOf payload.now) }
{
    match str::from_utf8(payload) {
        Ok(text) => message_of_text(alloc, text),
        Err(_) => no_text(alloc),
    }
}

fn no_text(alloc: Global) -> Result<FromEmacs, NoMemory>
    ensures { IfOk result (λ m. m ≡ message.Unreadable [] (codes "Not UTF-8")) }
{
    let text = Text::of(alloc, "Not UTF-8")?;
    Ok(FromEmacs::Unreadable {
        packet: Text::new(alloc),
        text,
    })
}
