ghost use Rattle.std.specs.Prelude.{◌≡◌, ◌++◌, ◌∷◌, [], length, take, OnOk, OnErr};

use crate::Journal;
use lisp_data::{NoMemory, Pile, Rows};
use rpc_messages::ToEmacs;
use session_model::Entry;
use std::alloc::Global;

/// Moves these behind the others, which stay in front also where memory is wanting.
fn append(alloc: Global, outs: &mut Rows<ToEmacs>, more: Rows<ToEmacs>) -> Result<(), NoMemory>
    ensures ok { OnOk result (outs.new ≡ outs.old ++ more) }
    ensures front { take (length outs.old) outs.new ≡ outs.old }
{
    if outs.is_empty() {
        *outs = more;
        return Ok(());
    }
    let mut rest = more;
    let mut turned = Pile::new(alloc);
    while let Some(output) = rest.pop() {
        turned.push(output)?;
    }
    while let Some(output) = turned.pop() {
        outs.push(output)?;
    }
    Ok(())
}

/// Writes what was told behind the outputs, and the entry behind the journal. Both stay as they were where memory is wanting.
pub fn write(
    alloc: Global,
    outs: &mut Rows<ToEmacs>,
    journal: &mut Journal,
    told: Rows<ToEmacs>,
    entry: Entry,
) -> Result<(), NoMemory>
    ensures outs { OnOk result (outs.new ≡ outs.old ++ told) }
    ensures journal { OnOk result (journal.new ≡ journal.old ++ entry ∷ []) }
    ensures same_outs { OnErr result (outs.new ≡ outs.old) }
    ensures same_journal { OnErr result (journal.new ≡ journal.old) }
{
    let kept = outs.len();
    if let Err(NoMemory) = append(alloc, outs, told) {
        outs.truncate(kept);
        return Err(NoMemory);
    }
    if let Err(NoMemory) = journal.add(entry) {
        outs.truncate(kept);
        return Err(NoMemory);
    }
    Ok(())
}
