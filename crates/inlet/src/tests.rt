use crate::{Pumped, message_of, pump};
use lisp_data::{NoMemory, Rows, Text};
use outside_traits::MemSource;
use packet_framing::{Decoder, frame};
use rpc_messages::{FromEmacs, ThreadName};
use std::alloc::Global;
use std::test::Fail;

/// What was answered, in a word.
fn word(answer: &Pumped) -> &str {
    match answer {
        Pumped::Message(FromEmacs::Unreadable { text, .. }) => text.as_str(),
        Pumped::Message(_) => "message",
        Pumped::End => "end",
        Pumped::BadHeader => "bad header",
        Pumped::Truncated => "truncated",
        Pumped::ReadFault => "fault",
        Pumped::InputLimit => "limit",
        Pumped::NoMemory => "no memory",
    }
}

/// The octets as pieces of so many each.
fn pieces(alloc: Global, octets: &[u8], size: usize) -> Result<Rows<Rows<u8>>, NoMemory> {
    let mut all = Rows::new(alloc);
    let mut piece = Rows::new(alloc);
    for octet in octets {
        piece.extend(&[*octet])?;
        if piece.len() >= size {
            all.push(piece)?;
            piece = Rows::new(alloc);
        }
    }
    all.push(piece)?;
    Ok(all)
}

#[test]
fn what_is_no_message_says_why(rt: HostRuntime) -> Result<(), Fail> {
    let alloc = rt.alloc();
    let table = [
        ("", "End"),
        ("; nothing", "End"),
        ("(a", "Unclosed"),
        ("\"a", "Unclosed"),
        (")", "StrayClose"),
        ("1.5", "BadToken"),
        ("9223372036854775808", "NumberTooWide"),
        ("1 2", "TrailingText"),
        ("42", "Unknown message"),
        ("()", "Unknown message"),
        ("(:emacs-rex)", "Unknown message"),
        ("(:emacs-rex (f) \"P\" t)", "Unknown message"),
        ("(:emacs-rex (f) p t 1)", "Unknown message"),
        ("(:emacs-rex (f) \"P\" -1 1)", "Unknown message"),
        ("(:emacs-rex (f) \"P\" :repl 1)", "Unknown message"),
        ("(:emacs-rex (f) \"P\" t \"1\")", "Unknown message"),
        ("(:emacs-interrupt)", "Unknown message"),
        ("(:emacs-return-string t 1 \"a\")", "Unknown message"),
        ("(:emacs-return-string 1 -1 \"a\")", "Unknown message"),
        ("(:emacs-return-string 1 1 a)", "Unknown message"),
        ("(:emacs-return 1 1)", "Unknown message"),
        ("(swank:quit-lisp)", "Unknown message"),
    ];
    for (payload, expected) in table {
        let FromEmacs::Unreadable { packet, text } = message_of(alloc, payload.as_bytes())? else {
            return Err(Fail::from("a message"));
        };
        assert_eq!(rt; packet.as_str(), payload);
        assert_eq!(rt; text.as_str(), expected);
    }
    Ok(())
}

#[test]
fn a_payload_gives_its_message(rt: HostRuntime) -> Result<(), Fail> {
    let alloc = rt.alloc();
    let interrupt = message_of(alloc, b"(:emacs-interrupt 99)")?;
    assert!(rt;
        matches!(
            &interrupt,
            FromEmacs::Interrupt {
                thread: ThreadName::Id(99)
            }
        )
    );
    let request = message_of(
        alloc,
        b"(:emacs-rex (swank:connection-info) \"CL-USER\" 99 5)",
    )?;
    assert!(rt;
        matches!(
            &request,
            FromEmacs::Rex {
                thread: ThreadName::Id(99),
                id: 5,
                ..
            }
        )
    );
    Ok(())
}

#[test]
fn octets_that_are_no_text_are_not_shown(rt: HostRuntime) -> Result<(), Fail> {
    let alloc = rt.alloc();
    let FromEmacs::Unreadable { packet, text } = message_of(alloc, &[40, 255, 41])? else {
        return Err(Fail::from("a message"));
    };
    assert_eq!(rt; packet.as_str(), "");
    assert_eq!(rt; text.as_str(), "Not UTF-8");
    Ok(())
}

#[test]
fn a_stream_in_any_pieces_gives_the_same(rt: HostRuntime) -> Result<(), Fail> {
    let alloc = rt.alloc();
    let octets = b"000015(:emacs-interrupt 99)000002(a00";
    for size in [1usize, 2, 5, 100] {
        let mut source = MemSource::new(pieces(alloc, octets, size)?, Rows::new(alloc));
        let mut decoder = Decoder::new(alloc);
        let mut taken = 0;
        for expected in ["message", "Unclosed", "truncated", "truncated"] {
            assert!(rt; taken <= 1000);
            let answer = pump(alloc, &mut source, &mut decoder, &mut taken);
            assert_eq!(rt; word(&answer), expected);
        }
        assert_eq!(rt; taken, 37);
    }
    Ok(())
}

#[test]
fn a_bad_header_stops_the_stream(rt: HostRuntime) -> Result<(), Fail> {
    let alloc = rt.alloc();
    let mut source = MemSource::new(pieces(alloc, b"00zz10", 100)?, Rows::new(alloc));
    let mut decoder = Decoder::new(alloc);
    let mut taken = 0;
    for _ in 0..2u8 {
        assert!(rt; taken <= 1000);
        let answer = pump(alloc, &mut source, &mut decoder, &mut taken);
        assert_eq!(rt; word(&answer), "bad header");
    }
    Ok(())
}

#[test]
fn a_read_that_fails_loses_nothing(rt: HostRuntime) -> Result<(), Fail> {
    let alloc = rt.alloc();
    let octets = b"000015(:emacs-interrupt 99)";
    let fails = Rows::from_vec(vec![in alloc; 1, 3, 5, 6, 8]?);
    let mut source = MemSource::new(pieces(alloc, octets, 9)?, fails);
    let mut decoder = Decoder::new(alloc);
    let mut taken = 0;
    for expected in [
        "fault", "fault", "fault", "fault", "message", "fault", "end",
    ] {
        assert!(rt; taken <= 1000);
        let answer = pump(alloc, &mut source, &mut decoder, &mut taken);
        assert_eq!(rt; word(&answer), expected);
    }
    Ok(())
}

#[test]
fn an_empty_input_ends(rt: HostRuntime) -> Result<(), Fail> {
    let alloc = rt.alloc();
    let mut source = MemSource::new(Rows::new(alloc), Rows::new(alloc));
    let mut decoder = Decoder::new(alloc);
    let mut taken = 0;
    let answer = pump(alloc, &mut source, &mut decoder, &mut taken);
    assert_eq!(rt; word(&answer), "end");
    Ok(())
}

#[test]
fn the_text_of_a_long_packet_is_cut(rt: HostRuntime) -> Result<(), Fail> {
    let alloc = rt.alloc();
    let mut text = Text::new(alloc);
    for _ in 0..1001u16 {
        text.push('1')?;
    }
    let mut octets = Rows::new(alloc);
    let _ = frame(&mut octets, &text);
    let mut source = MemSource::new(pieces(alloc, octets.as_slice(), 4096)?, Rows::new(alloc));
    let mut decoder = Decoder::new(alloc);
    let mut taken = 0;
    let Pumped::Message(FromEmacs::Unreadable { packet, text }) = pump(
        alloc,
        &mut source,
        &mut decoder,
        &mut taken,
    ) else {
        return Err(Fail::from("a message"));
    };
    assert_eq!(rt; packet.len(), 1003);
    assert_eq!(rt; text.as_str(), "BadToken");
    Ok(())
}
