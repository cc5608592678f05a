ghost use Rattle.std.specs.Prelude.{◌≡◌, IfOk};
ghost use Rattle.session_model.specs.Arriving.{not_found};

use itoa::Buffer;
use lisp_data::{NoMemory, Text};
use rpc_messages::FromEmacs;
use std::alloc::Global;

/// What is said of a thread that isn't live.
pub fn not_found(alloc: Global, thread: u64) -> Result<Text, NoMemory>
    ensures { IfOk result (λ text. text ≡ not_found thread) }
{
    let mut text = Text::of(alloc, "Thread not found: ")?;
    let mut buffer = Buffer::new();
    text.push_str(buffer.format(thread))?;
    Ok(text)
}

fn copy_of_name(alloc: Global, name: &Option<Text>) -> Result<Option<Text>, NoMemory>
    ensures { IfOk result (λ copy. copy ≡ name.now) }
{
    match name {
        None => Ok(None),
        Some(text) => Ok(Some(text.copy(alloc)?)),
    }
}

/// A copy of a message.
pub fn copy_of(alloc: Global, message: &FromEmacs) -> Result<FromEmacs, NoMemory>
    ensures { IfOk result (λ copy. copy ≡ message.now) }
{
    Ok(match message {
        FromEmacs::Rex {
            form,
            package,
            thread,
            id,
        } => FromEmacs::Rex {
            form: form.copy(alloc)?,
            package: copy_of_name(alloc, package)?,
            thread: *thread,
            id: *id,
        },
        FromEmacs::Interrupt { thread } => FromEmacs::Interrupt { thread: *thread },
        FromEmacs::ReturnString { thread, tag, text } => FromEmacs::ReturnString {
            thread: *thread,
            tag: *tag,
            text: text.copy(alloc)?,
        },
        FromEmacs::Return { thread, tag, value } => FromEmacs::Return {
            thread: *thread,
            tag: *tag,
            value: value.copy(alloc)?,
        },
        FromEmacs::Unreadable { packet, text } => FromEmacs::Unreadable {
            packet: packet.copy(alloc)?,
            text: text.copy(alloc)?,
        },
    })
}
