use crate::{CutShort, Failed, MemSink, MemSource, Sink, Source, write_all};
use lisp_data::{NoMemory, Rows};
use std::alloc::Global;
use std::process::Abort;
use std::test::Fail;

fn pieces_of(alloc: Global, texts: &[&str]) -> Result<Rows<Rows<u8>>, NoMemory> {
    let mut pieces = Rows::new(alloc);
    for text in texts {
        pieces.push(Rows::from_slice(alloc, text.as_bytes())?)?;
    }
    Ok(pieces)
}

/// Reads into two octets.
fn reads<S: Source>(rt: &impl Abort, source: &mut S, want: Result<&str, Failed>) {
    let mut buf = [0; 2];
    match source.read(&mut buf) {
        Ok(n) => assert_eq!(rt; Ok(&buf[..n]), want.map(|text| text.as_bytes())),
        Err(Failed) => assert_eq!(rt; Err(Failed), want),
    }
}

#[test]
fn a_source_gives_one_piece_at_most_and_fails_where_it_is_told_to(
    rt: HostRuntime,
) -> Result<(), Fail> {
    let pieces = pieces_of(rt.alloc(), &["", "ab", "", "cde", "", "f", ""])?;
    let mut source = MemSource::new(pieces, Rows::from_slice(rt.alloc(), &[2, 6])?);
    let wants = [
        Ok("ab"),
        Err(Failed),
        Ok("cd"),
        Ok("e"),
        Ok("f"),
        Err(Failed),
        Ok(""),
        Ok(""),
    ];
    for want in wants {
        reads(&rt, &mut source, want);
    }
    Ok(())
}

#[test]
fn a_sink_takes_so_many_octets_a_call_and_fails_where_it_is_told_to(
    rt: HostRuntime,
) -> Result<(), Fail> {
    let mut sink = MemSink::new(rt.alloc(), 1, Rows::from_slice(rt.alloc(), &[3, 6])?);
    assert_eq!(rt; write_all(&mut sink, b"abcd"), Err(CutShort { taken: 2 }));
    assert_eq!(rt; write_all(&mut sink, b"cd"), Ok(()));
    assert_eq!(rt; sink.finish(), Err(Failed));
    assert_eq!(rt; sink.finish(), Ok(()));
    assert_eq!(rt; write_all(&mut sink, b""), Ok(()));
    assert_eq!(rt; sink.taken.as_slice(), b"abcd".as_slice());

    let mut wide = MemSink::new(rt.alloc(), 3, Rows::new(rt.alloc()));
    assert_eq!(rt; wide.write(b"abcd"), Ok(3));
    assert_eq!(rt; wide.write(b"d"), Ok(1));
    assert_eq!(rt; wide.taken.as_slice(), b"abcd".as_slice());
    Ok(())
}
