use crate::Mailbox;
use lisp_data::{Sexp, Text};
use rpc_messages::{FromEmacs, Pattern, ThreadName};
use std::test::Fail;

#[test]
fn the_first_accepted_message_is_taken(rt: HostRuntime) -> Result<(), Fail> {
    let alloc = rt.alloc();
    let thread = ThreadName::Id(1);
    let mut mailbox = Mailbox::new(alloc);
    mailbox.post(
        3,
        FromEmacs::Rex {
            form: Sexp::Int(1),
            package: None,
            thread,
            id: 1,
        },
    )?;
    mailbox.post(
        5,
        FromEmacs::ReturnString {
            thread,
            tag: 1,
            text: Text::of(alloc, "a")?,
        },
    )?;
    mailbox.post(
        8,
        FromEmacs::Return {
            thread,
            tag: 1,
            value: Sexp::Int(2),
        },
    )?;
    mailbox.post(
        9,
        FromEmacs::Rex {
            form: Sexp::Int(3),
            package: None,
            thread,
            id: 2,
        },
    )?;
    mailbox.post(
        11,
        FromEmacs::ReturnString {
            thread,
            tag: 1,
            text: Text::of(alloc, "b")?,
        },
    )?;
    let takes = [
        (Pattern::StringFor(2), None),
        (Pattern::StringFor(1), Some(5)),
        (Pattern::ValueFor(1), Some(8)),
        (Pattern::Rex, Some(3)),
        (Pattern::StringFor(1), Some(11)),
        (Pattern::StringFor(1), None),
        (Pattern::Rex, Some(9)),
        (Pattern::Rex, None),
    ];
    for (pattern, expected) in takes {
        let place = mailbox.take_first(&pattern).map(|(at, _)| at);
        assert_eq!(rt; place, expected);
    }
    Ok(())
}

#[test]
fn a_message_is_accepted_until_it_is_taken(rt: HostRuntime) -> Result<(), Fail> {
    let alloc = rt.alloc();
    let mut mailbox = Mailbox::new(alloc);
    mailbox.post(
        4,
        FromEmacs::Return {
            thread: ThreadName::Id(1),
            tag: 7,
            value: Sexp::Int(2),
        },
    )?;
    let pattern = Pattern::ValueFor(7);
    let before = mailbox.accepts(&pattern) && !mailbox.accepts(&Pattern::Rex);
    let entries = mailbox.into_entries();
    assert!(rt; before && entries.len() == 1);
    Ok(())
}
