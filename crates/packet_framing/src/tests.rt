ghost use Rattle.std.specs.Prelude.{◌<◌};

use super::*;
use lisp_data::{NoMemory, Rows, Text};
use std::alloc::Global;
use std::test::Fail;

/// A stream, the payloads of its packets, how many octets follow them, and whether those begin with a bad header.
struct Stream {
    octets: &'static str,
    payloads: &'static [&'static str],
    kept: usize,
    bad: bool,
}

const STREAMS: &[Stream] = &[
    Stream {
        octets: "00003b(:emacs-rex (swank:connection-info) \"COMMON-LISP-USER\" t 1)",
        payloads: &["(:emacs-rex (swank:connection-info) \"COMMON-LISP-USER\" t 1)"],
        kept: 0,
        bad: false,
    },
    Stream {
        octets: "00003B(:emacs-rex (swank:connection-info) \"COMMON-LISP-USER\" t 1)",
        payloads: &["(:emacs-rex (swank:connection-info) \"COMMON-LISP-USER\" t 1)"],
        kept: 0,
        bad: false,
    },
    Stream {
        octets: "000046(:emacs-rex (swank:interactive-eval \"(+ 1 2)\") \"COMMON-LISP-USER\" t 1)",
        payloads: &["(:emacs-rex (swank:interactive-eval \"(+ 1 2)\") \"COMMON-LISP-USER\" t 1)"],
        kept: 0,
        bad: false,
    },
    Stream {
        octets: "000045(:emacs-rex (swank:interactive-eval \"\\\"é\\\"\") \"COMMON-LISP-USER\" t 1)",
        payloads: &["(:emacs-rex (swank:interactive-eval \"\\\"é\\\"\") \"COMMON-LISP-USER\" t 1)"],
        kept: 0,
        bad: false,
    },
    Stream {
        octets: "000046(:emacs-rex (swank:interactive-eval \"(+ 1 2)\") \"COMMON-LISP-USER\" t 1)00004",
        payloads: &["(:emacs-rex (swank:interactive-eval \"(+ 1 2)\") \"COMMON-LISP-USER\" t 1)"],
        kept: 5,
        bad: false,
    },
    Stream {
        octets: "000005(a b)000005(a b",
        payloads: &["(a b)"],
        kept: 10,
        bad: false,
    },
    Stream {
        octets: "000002(a00000242000000",
        payloads: &["(a", "42", ""],
        kept: 0,
        bad: false,
    },
    Stream {
        octets: "00zz10",
        payloads: &[],
        kept: 6,
        bad: true,
    },
    Stream {
        octets: "00zz1",
        payloads: &[],
        kept: 5,
        bad: false,
    },
    Stream {
        octets: "00000242-000010000000",
        payloads: &["42"],
        kept: 13,
        bad: true,
    },
    Stream {
        octets: "",
        payloads: &[],
        kept: 0,
        bad: false,
    },
];

/// The octets in pieces of a given size, the last of them perhaps shorter, with an empty piece before each.
fn pieces_of(alloc: Global, octets: &[u8], size: usize) -> Result<Rows<Rows<u8>>, NoMemory>
    requires { 0 < size }
{
    let mut pieces = Rows::new(alloc);
    for piece in octets.chunks(size) {
        pieces.push(Rows::new(alloc))?;
        pieces.push(Rows::from_slice(alloc, piece)?)?;
    }
    Ok(pieces)
}

#[test]
fn streams_are_taken_apart_in_pieces_of_any_size(rt: HostRuntime) -> Result<(), Fail> {
    for stream in STREAMS {
        for size in [1, 2, 5, 7, 64, 1000] {
            let pieces = pieces_of(rt.alloc(), stream.octets.as_bytes(), size)?;
            let mut decoded = decode_pieces(rt.alloc(), pieces.as_slice())?;
            let given = decoded.payloads.as_slice();
            assert_eq!(rt;
                given.len(),
                stream.payloads.len(),
                "{} by {size}",
                stream.octets
            );
            for (payload, want) in given.iter().zip(stream.payloads) {
                assert_eq!(rt;
                    payload.as_slice(),
                    want.as_bytes(),
                    "{} by {size}",
                    stream.octets
                );
            }
            assert_eq!(rt;
                decoded.decoder.kept(),
                stream.kept,
                "{} by {size}",
                stream.octets
            );
            let bad = matches!(decoded.decoder.next(), Next::BadHeader);
            assert_eq!(rt; bad, stream.bad, "{} by {size}", stream.octets);
        }
    }
    Ok(())
}

#[test]
fn packets_count_octets_in_upper_case(rt: HostRuntime) -> Result<(), Fail> {
    let mut out = Rows::new(rt.alloc());
    for text in [
        "(:return (:ok \"=> \\\"é\\\"\") 1)",
        "",
        "(:reader-error \"(a\" \"Unclosed\")",
    ] {
        assert_eq!(rt;
            frame(&mut out, &Text::of(rt.alloc(), text)?),
            Ok(()),
            "{text}"
        );
    }
    let want =
        "00001D(:return (:ok \"=> \\\"é\\\"\") 1)00000000001F(:reader-error \"(a\" \"Unclosed\")";
    assert_eq!(rt; out.as_slice(), want.as_bytes());
    for (len, want) in [(0, b"000000"), (0x3B, b"00003B"), (0xABCDEF, b"ABCDEF")] {
        assert_eq!(rt; header_of(len), *want, "{len}");
    }
    Ok(())
}

#[test]
fn a_text_of_16_mebioctets_is_too_long_and_one_less_is_not(rt: HostRuntime) -> Result<(), Fail> {
    let mut text = Text::new(rt.alloc());
    let mut out = Rows::new(rt.alloc());
    let chunk = "0123456789abcde";
    for _ in 0..1_118_481 {
        text.push_str(chunk)?;
    }
    assert_eq!(rt; text.len(), 0xFFFFFF);
    assert_eq!(rt; frame(&mut out, &text), Ok(()));
    assert_eq!(rt; out.len(), 6 + 0xFFFFFF);
    text.push('f')?;
    assert_eq!(rt; frame(&mut out, &text), Err(FrameFault::TooLong));
    assert_eq!(rt; out.len(), 6 + 0xFFFFFF);
    Ok(())
}

#[test]
fn a_million_octets_may_come_one_by_one(rt: HostRuntime) -> Result<(), Fail> {
    let mut decoder = Decoder::new(rt.alloc());
    decoder.feed(&header_of(1_000_000))?;
    for _ in 1..1_000_000 {
        decoder.feed(b"x")?;
        assert!(rt; matches!(decoder.next(), Next::NotYet));
    }
    decoder.feed(b"x")?;
    match decoder.next() {
        Next::Packet(payload) => assert_eq!(rt; payload.len(), 1_000_000),
        _ => assert!(rt; false, "a whole packet"),
    }
    Ok(())
}

#[test]
fn a_long_backlog_makes_no_packet_dear(rt: HostRuntime) -> Result<(), Fail> {
    let mut decoder = Decoder::new(rt.alloc());
    for _ in 0..400_000 {
        decoder.feed(b"000000")?;
    }
    for _ in 0..400_000 {
        decoder.feed(b"000000")?;
        assert!(rt; matches!(decoder.next(), Next::Packet(_)));
    }
    assert_eq!(rt; decoder.kept(), 2_400_000);
    Ok(())
}
