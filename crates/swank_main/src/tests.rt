use crate::devices::{ReaderSource, WriterSink};
use crate::failure::Failure;
use outside_traits::{Failed, Sink, Source};
use std::io;
use std::io::{Read, Write};
use std::test::Fail;
use swank_command::Status;

#[test]
fn failures_have_their_numbers_and_texts(rt: HostRuntime) -> Result<(), Fail> {
    let rows = [
        (Status::Usage, 2, "usage"),
        (Status::NoMemory, 3, "no memory"),
        (Status::ReadFault, 4, "read failed"),
        (Status::WriteFault, 5, "write failed"),
        (Status::BadHeader, 8, "bad header"),
        (Status::Truncated, 9, "truncated input"),
        (Status::InputLimit, 10, "input limit"),
        (Status::Budget, 11, "step limit"),
        (Status::JournalFull, 12, "journal full"),
    ];
    for (status, number, text) in rows {
        let failure = Failure::of(status).ok_or("a failure")?;
        assert_eq!(rt; failure.number(), number);
        assert_eq!(rt; format!(in rt.alloc(); "{failure}")?.as_str(), text);
    }
    assert!(rt; Failure::of(Status::Ok).is_none());
    Ok(())
}

/// A reader that fails at its first call, is interrupted at its second, and then gives one octet.
#[derive(Drop)]
struct Faulty {
    calls: u64,
}

impl Read for Faulty {
    fn read(&mut self, buf: &mut [u8]) -> io::Result<usize> {
        self.calls = self.calls.saturating_add(1);
        if self.calls == 1 {
            return Err(io::Error::from(io::ErrorKind::Other));
        }
        if self.calls == 2 {
            return Err(io::Error::from(io::ErrorKind::Interrupted));
        }
        if buf.is_empty() {
            return Ok(0);
        }
        buf[0] = 65;
        Ok(1)
    }
}

#[test]
fn a_reader_fails_once_and_is_asked_again_when_interrupted(rt: HostRuntime) {
    let mut input = ReaderSource::new(Faulty { calls: 0 });
    let mut buf = [0; 4];
    assert_eq!(rt; input.read(&mut buf), Err(Failed));
    assert_eq!(rt; input.read(&mut buf), Ok(1));
    assert_eq!(rt; buf[0], 65);
}

/// A writer that takes nothing at its first call, and then one octet a call.
#[derive(Drop)]
struct Slow {
    calls: u64,
}

impl Write for Slow {
    fn write(&mut self, buf: &[u8]) -> io::Result<usize> {
        self.calls = self.calls.saturating_add(1);
        if self.calls == 1 || buf.is_empty() {
            return Ok(0);
        }
        Ok(1)
    }

    fn flush(&mut self) -> io::Result<()> {
        Err(io::Error::from(io::ErrorKind::Other))
    }
}

#[test]
fn a_write_that_takes_nothing_is_a_fault(rt: HostRuntime) {
    let mut output = WriterSink::new(Slow { calls: 0 });
    assert_eq!(rt; output.write(b"ab"), Err(Failed));
    assert_eq!(rt; output.write(b"ab"), Ok(1));
    assert_eq!(rt; output.finish(), Err(Failed));
}
