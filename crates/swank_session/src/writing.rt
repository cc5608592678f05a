ghost use Rattle.std.specs.Prelude.{◌≡◌, ◌<◌, ◌≤◌, All, map, length, Err, IfOk, OnOk};
ghost use Rattle.outside_traits.specs.Faults.{Rose};
ghost use Rattle.server_laws.specs.Small.{FitsPacket};
ghost use Rattle.session_model.specs.Pipe.{Cursor};
ghost use Rattle.session_model.specs.Wire as wire;
ghost use Rattle.swank_session.specs.Course.{IsFree, IsPaused, Later, Reaches, Spends, Writes};

use crate::ends::{Halt, halt_for};
use lisp_data::{NoMemory, Rows, Text};
use outlet::write_texts;
use outside_traits::Sink;
use rpc_messages::{ToEmacs, to_sexp};
use sexp_printer::print_wire;
use std::alloc::Global;
use swank_core::Core;

/// The text of a message.
fn text_of(alloc: Global, m: &ToEmacs) -> Result<Text, NoMemory>
    requires fits { FitsPacket m.now }
    ensures text { IfOk result (λ text. text ≡ wire.text_of m.now) }
    ensures short { IfOk result (λ text. length text ≤ 0xFFFFFF) }
{
    let form = to_sexp(alloc, m)?;
    Ok(print_wire(alloc, &form)?)
}

/// The texts of messages, in order.
fn texts_of(alloc: Global, messages: &[ToEmacs]) -> Result<Rows<Text>, NoMemory>
    requires fit { All FitsPacket messages.now }
    ensures texts { IfOk result (λ texts. texts ≡ map wire.text_of messages.now) }
    ensures short { IfOk result (λ texts. All (λ text. length text ≤ 0xFFFFFF) texts) }
{
    let mut texts = Rows::new(alloc);
    for m in messages {
        texts.push(text_of(alloc, m)?)?;
    }
    Ok(texts)
}

/// Writes the packets of messages.
fn write_batch<K: Sink>(
    alloc: Global,
    output: &mut K,
    sent: &mut u64,
    batch: &[ToEmacs],
) -> Result<(), Halt>
    requires fit { All FitsPacket batch.now }
    ensures writes { Writes (K.written output.old) (K.written output.new) sent.old sent.new batch.now result }
    ensures later { K.faults output.old ≤ K.faults output.new }
    ensures write_fault { result ≡ Err Halt.WriteFault → Rose (K.faults output.old) (K.faults output.new) }
{
    let Ok(texts) = texts_of(alloc, batch) else {
        return Err(Halt::NoMemory);
    };
    match write_texts(alloc, output, texts.as_slice()) {
        Ok(count) => {
            *sent = sent.saturating_add(count);
            Ok(())
        }
        Err(failure) => {
            *sent = sent.saturating_add(failure.sent);
            Err(halt_for(failure.cause))
        }
    }
}

/// Drains what is undrained, and writes it.
pub fn write_out<K: Sink>(
    alloc: Global,
    core: &mut Core,
    output: &mut K,
    sent: &mut u64,
) -> Result<(), Halt>
    requires free { IsFree core.old }
    requires room { length core.old.journal < core.old.limits.journal }
    ensures onward { Later core.old core.new }
    ensures spends { Spends core.old core.new (K.written output.old) (K.written output.new) sent.old sent.new result }
    ensures reaches { (c : Cursor) → Reaches core.old core.new result (λ _. c) c }
    ensures paused { OnOk result (IsPaused core.new) }
    ensures later { K.faults output.old ≤ K.faults output.new }
    ensures write_fault { result ≡ Err Halt.WriteFault → Rose (K.faults output.old) (K.faults output.new) }
{
    if core.undrained() == 0 {
        return Ok(());
    }
    let batch = core.drain(0);
    write_batch(alloc, output, sent, batch.as_slice())
}
