ghost use Rattle.std.specs.Prelude.{◌≡◌, ◌++◌, IfOk, OnOk};
ghost use Rattle.std.specs.List.{concat};
ghost use Rattle.packet_framing.specs.Packets.{packets};

use crate::{Decoder, Next};
use lisp_data::{NoMemory, Rows};
use std::alloc::Global;

/// What a decoder gave of some pieces, and the decoder, which keeps the rest.
#[derive(Drop)]
pub struct Decoded {
    pub payloads: Rows<Rows<u8>>,
    pub decoder: Decoder,
}

/// Feeds the pieces to a new decoder, one after another, and after each takes every packet that is whole by then.
pub fn decode_pieces(alloc: Global, pieces: &[Rows<u8>]) -> Result<Decoded, NoMemory>
    ensures payloads { IfOk result (λ decoded. decoded.payloads ≡ (packets (concat pieces.now)).payloads) }
    ensures rest { IfOk result (λ decoded. decoded.decoder ≡ (packets (concat pieces.now)).rest) }
{
    let mut payloads = Rows::new(alloc);
    let mut decoder = Decoder::new(alloc);
    for piece in pieces {
        decoder.feed(piece.as_slice())?;
        take_packets(alloc, &mut decoder, &mut payloads)?;
    }
    Ok(Decoded { payloads, decoder })
}

/// Moves the payloads of all whole packets of a decoder to the end of a row.
fn take_packets(
    alloc: Global,
    decoder: &mut Decoder,
    payloads: &mut Rows<Rows<u8>>,
) -> Result<(), NoMemory>
    ensures payloads { OnOk result (payloads.new ≡ payloads.old ++ (packets decoder.old).payloads) }
    ensures rest { OnOk result (decoder.new ≡ (packets decoder.old).rest) }
{
    while let Next::Packet(payload) = decoder.next() {
        payloads.push(Rows::from_slice(alloc, payload)?)?;
    }
    Ok(())
}
