ghost use Rattle.std.specs.Prelude.{◌↔◌, ◌≤◌, All, IsTrue, length};

use crate::{WriteCause, WriteFailure, write_texts};
use lisp_data::{NoMemory, Rows, Text};
use outside_traits::MemSink;
use std::alloc::Global;
use std::process::Abort;
use std::test::Fail;

/// The packets of the texts below, 31 octets: the length of a text is told in octets.
const PACKETS: &[u8] = b"000003abc00000000000A\xC3\xA9\xC3\xA9\xC3\xA9\xC3\xA9()";

fn texts_of(alloc: Global) -> Result<Rows<Text>, NoMemory> {
    let mut texts = Rows::new(alloc);
    for text in ["abc", "", "éééé()"] {
        texts.push(Text::of(alloc, text)?)?;
    }
    Ok(texts)
}

fn are_short(texts: &[Text]) -> bool
    ensures { IsTrue result ↔ All (λ text. length text ≤ 0xFFFFFF) texts.now }
{
    texts.iter().all(|text| text.len() <= 0xFFFFFF)
}

fn written(
    rt: &impl Abort,
    alloc: Global,
    sink: &mut MemSink,
    texts: &Rows<Text>,
) -> Result<u64, WriteFailure> {
    assert!(rt; are_short(texts.as_slice()));
    write_texts(alloc, sink, texts.as_slice())
}

#[test]
fn texts_are_written_as_packets(rt: HostRuntime) -> Result<(), Fail> {
    let texts = texts_of(rt.alloc())?;
    for at_most in [1, 2, 7, 31, 100] {
        let mut sink = MemSink::new(rt.alloc(), at_most, Rows::new(rt.alloc()));
        let sent = written(&rt, rt.alloc(), &mut sink, &texts);
        assert_eq!(rt; sent, Ok(31));
        assert_eq!(rt; sink.taken.as_slice(), PACKETS);
    }
    Ok(())
}

/// With one octet a call the 31 octets take 31 writes, and the finish is call 32.
#[test]
fn a_failure_leaves_what_was_sent_before_it(rt: HostRuntime) -> Result<(), Fail> {
    let texts = texts_of(rt.alloc())?;
    for call in 1..33 {
        let mut sink = MemSink::new(rt.alloc(), 1, Rows::from_slice(rt.alloc(), &[call])?);
        let failure = WriteFailure {
            cause: WriteCause::WriteFault,
            sent: call - 1,
        };
        assert_eq!(rt; written(&rt, rt.alloc(), &mut sink, &texts), Err(failure));
        assert_eq!(rt; sink.taken.as_slice(), &PACKETS[..call as usize - 1]);
    }
    Ok(())
}

/// A batch is one write where the sink takes it whole, and none where it is empty; a finish follows.
#[test]
fn a_batch_is_one_write_and_one_finish(rt: HostRuntime) -> Result<(), Fail> {
    let texts = texts_of(rt.alloc())?;
    let empty: Rows<Text> = Rows::new(rt.alloc());
    for (texts, finish, octets) in [(&texts, 2, 31), (&empty, 1, 0)] {
        let mut sink = MemSink::new(rt.alloc(), 100, Rows::from_slice(rt.alloc(), &[finish])?);
        let failure = WriteFailure {
            cause: WriteCause::WriteFault,
            sent: octets,
        };
        assert_eq!(rt; written(&rt, rt.alloc(), &mut sink, texts), Err(failure));
        assert_eq!(rt; written(&rt, rt.alloc(), &mut sink, texts), Ok(octets));
        assert_eq!(rt; sink.taken.len() as u64, 2 * octets);
    }
    Ok(())
}
