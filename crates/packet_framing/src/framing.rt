ghost use Rattle.std.specs.Prelude.{◌≡◌, ◌<◌, ◌↔◌, ◌++◌, ℕ, List, length, OnOk, OnErr};
ghost use Rattle.packet_framing.specs.Frames.{packet_of};
ghost use Rattle.packet_framing.specs.Packets.{first_packet};

use crate::header::header_of;
use lisp_data::{Rows, Text};

/// Why a packet was not added.
#[derive(Clone, Copy, Debug, PartialEq, Eq)]
pub enum FrameFault {
    /// The text has more octets than six hexadecimal digits can tell.
    TooLong,
    /// Memory was wanting.
    NoMemory,
}

/// Adds the packet of a text at the end of `out`. The header counts octets, not characters.
pub fn frame(out: &mut Rows<u8>, text: &Text) -> Result<(), FrameFault>
    ensures ok { OnOk result (out.new ≡ out.old ++ packet_of text.now) }
    ensures too_long { (result ≡ Err FrameFault.TooLong) ↔ (0xFFFFFF < length text.now) }
    ensures err { OnErr result (out.new ≡ out.old) }

    // What was added is read back as that text, whatever follows it.
    ensures read { OnOk result ((more : List ℕ) → first_packet (packet_of text.now ++ more) ≡ Some (text.now, more)) }
{
    let payload = text.as_str().as_bytes();
    if payload.len() > 0xFFFFFF {
        return Err(FrameFault::TooLong);
    }
    let before = out.len();
    if out.extend(&header_of(payload.len() as u32)).is_err() {
        return Err(FrameFault::NoMemory);
    }
    if out.extend(payload).is_err() {
        out.truncate(before);
        return Err(FrameFault::NoMemory);
    }
    Ok(())
}
