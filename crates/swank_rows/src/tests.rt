use crate::session::{Given, Remains, first_wrong, ran};
use lisp_data::{NoMemory, Rows};
use std::alloc::Global;
use std::test::Fail;
use swank_command::Status;

const REQUEST: &str = r#"00003b(:emacs-rex (swank:connection-info) "COMMON-LISP-USER" t 1)"#;

const REPLY: &str =
    r#"000114(:return (:ok (:pid 0 :style :spawn :encoding (:coding-systems ("utf-8-unix")) :lisp-implementation (:type "Profile" :name "profile" :version "1") :machine (:instance "none") :features nil :modules nil :package (:name "COMMON-LISP-USER" :prompt "CL-USER") :version "2.28")) 1)"#;

const EVALUATION: &str =
    r#"000041(:emacs-rex (swank:interactive-eval "42") "COMMON-LISP-USER" t 1)"#;

const ANSWER: &str = r#"000019(:return (:ok "=> 42") 1)"#;

/// Whether a run wrote this and ended so.
fn left(ran: Remains, written: &str, status: Status) -> bool {
    ran.status == status
        && ran.written.as_slice() == written.as_bytes()
        && ran.sent == written.len() as u64
}

fn joined(alloc: Global, parts: &[&str]) -> Result<Rows<u8>, NoMemory> {
    let mut octets = Rows::new(alloc);
    for part in parts {
        octets.extend(part.as_bytes())?;
    }
    Ok(octets)
}

/// Whether these octets, however they are cut, are answered by these, with the same events, and the session ends so.
fn answers(
    alloc: Global,
    octets: &[&str],
    written: &str,
    status: Status,
) -> Result<bool, NoMemory> {
    let octets = joined(alloc, octets)?;
    let whole = ran(alloc, Given::pipe(octets.as_slice()))?;
    for piece in [1, 7] {
        let given = Given {
            piece,
            ..Given::pipe(octets.as_slice())
        };
        let cut = ran(alloc, given)?;
        if !cut.events.same(&whole.events) || !left(cut, written, status) {
            return Ok(false);
        }
    }
    Ok(left(whole, written, status))
}

fn streams_are_answered(alloc: Global) -> Result<bool, NoMemory> {
    let upper = r#"00003B(:emacs-rex (swank:connection-info) "COMMON-LISP-USER" t 1)"#;
    let accent = r#"000045(:emacs-rex (swank:interactive-eval "\"é\"") "COMMON-LISP-USER" t 1)"#;
    let accented = r#"00001D(:return (:ok "=> \"é\"") 1)"#;
    let unclosed = r#"00001F(:reader-error "(a" "Unclosed")"#;
    let empty = r#"000018(:reader-error "" "End")"#;
    let cut = &EVALUATION[..EVALUATION.len() - 1];
    Ok(
        answers(alloc, &[REQUEST], REPLY, Status::Ok)?
            && answers(alloc, &[upper], REPLY, Status::Ok)?
            && answers(alloc, &[], "", Status::Ok)?
            && answers(alloc, &[EVALUATION], ANSWER, Status::Ok)?
            && answers(alloc, &[accent], accented, Status::Ok)?
            && answers(alloc, &[EVALUATION, "00004"], ANSWER, Status::Truncated)?
            && answers(alloc, &[REQUEST, "00004"], REPLY, Status::Truncated)?
            && answers(alloc, &[EVALUATION, cut], ANSWER, Status::Truncated)?
            && answers(alloc, &["00zz10"], "", Status::BadHeader)?
            && answers(alloc, &[EVALUATION, "00zz10"], ANSWER, Status::BadHeader)?
            && answers(alloc, &["000002(a"], unclosed, Status::Ok)?
            && answers(alloc, &["000000"], empty, Status::Ok)?,
    )
}

#[test]
fn octets_are_answered_however_they_are_cut(rt: HostRuntime) -> Result<(), Fail> {
    assert!(rt; streams_are_answered(rt.alloc())?);
    Ok(())
}

const MESSAGES: &str = r#"> (:emacs-rex (swank:interactive-eval "42") "COMMON-LISP-USER" t 1)
< (:return (:ok "=> 42") 1)

> 42
> (a
> (:emacs-nothing)
> (:emacs-rex (swank:interactive-eval "42") "COMMON-LISP-USER" t 1)
< (:reader-error "42" "Unknown message")
< (:reader-error "(a" "Unclosed")
< (:reader-error "(:emacs-nothing)" "Unknown message")
< (:return (:ok "=> 42") 1)

> (:emacs-rex (swank:connection-info) "COMMON-LISP-USER" 99 5)
< (:invalid-rpc 5 "Thread not found: 99")

> (:emacs-interrupt 99)
< (:debug-condition 99 "Thread not found: 99")

> (:emacs-interrupt :repl-thread)
> (:emacs-rex (swank:interactive-eval "1") "COMMON-LISP-USER" :repl-thread 1)
> (:emacs-interrupt 1)
> (:emacs-interrupt t)
> (:emacs-rex (swank:interactive-eval "2") "COMMON-LISP-USER" 1 2)
> (:emacs-rex (swank:interactive-eval "3") "COMMON-LISP-USER" t 3)
< (:return (:ok "=> 1") 1)
< (:return (:ok "=> 2") 2)
< (:return (:ok "=> 3") 3)

> (:emacs-return-string 1 1 "nobody asked")
> (:emacs-return-string 99 1 "nobody is there")
> (:emacs-return 1 1 t)
> (:emacs-rex (swank:interactive-eval "2") nil 1 2)
< (:return (:ok "=> 2") 2)

> (:emacs-rex (swank:interactive-eval "1") "COMMON-LISP-USER" t 1)
> (:emacs-rex (swank:interactive-eval "2") "COMMON-LISP-USER" t 1)
> (:emacs-rex (swank:interactive-eval "3") "COMMON-LISP-USER" 2 7)
< (:return (:ok "=> 1") 1)
< (:return (:ok "=> 2") 1)
< (:invalid-rpc 7 "Thread not found: 2")"#;

#[test]
fn messages_go_to_the_threads_that_they_name(rt: HostRuntime) -> Result<(), Fail> {
    assert_eq!(rt; first_wrong(rt.alloc(), MESSAGES)?, 0);
    Ok(())
}

/// Whether an interrupt for the REPL's thread is an event of its own alone, and what follows is answered.
fn interrupts_are_dropped(alloc: Global) -> Result<bool, NoMemory> {
    let interrupt = "00001f(:emacs-interrupt :repl-thread)";
    let octets = joined(alloc, &[interrupt, EVALUATION])?;
    let ran = ran(alloc, Given::pipe(octets.as_slice()))?;
    let events = "Arrive Arrive Lend(2) Burst(2,6) Drain(1) End ";
    Ok(ran.events.as_str() == events && left(ran, ANSWER, Status::Ok))
}

#[test]
fn an_interrupt_of_a_live_thread_is_dropped(rt: HostRuntime) -> Result<(), Fail> {
    assert!(rt; interrupts_are_dropped(rt.alloc())?);
    Ok(())
}

/// Whether a run on the evaluation and a few words more has these events, writes this, and ends so.
fn goes(
    alloc: Global,
    words: &str,
    events: &str,
    written: &str,
    status: Status,
) -> Result<bool, NoMemory> {
    let given = Given {
        words,
        ..Given::pipe(EVALUATION.as_bytes())
    };
    let ran = ran(alloc, given)?;
    Ok(ran.events.as_str() == events && left(ran, written, status))
}

fn limits_are_kept(alloc: Global) -> Result<bool, NoMemory> {
    let whole = "Arrive Lend(2) Burst(2,6) Drain(1) End ";
    let full = "Arrive Lend(2) Burst(2,6) Drain(1) ";
    let spent = "Arrive Lend(2) Burst(2,1) ";
    Ok(
        goes(alloc, "pipe", whole, ANSWER, Status::Ok)?
            && goes(alloc, "pipe --journal 6", whole, ANSWER, Status::Ok)?
            && goes(alloc, "pipe --journal 5", full, ANSWER, Status::JournalFull)?
            && goes(alloc, "pipe --steps 1", spent, "", Status::Budget)?
            && goes(
                alloc,
                "pipe --steps 6 --journal 6",
                whole,
                ANSWER,
                Status::Ok,
            )?,
    )
}

#[test]
fn limits_end_a_session(rt: HostRuntime) -> Result<(), Fail> {
    assert!(rt; limits_are_kept(rt.alloc())?);
    Ok(())
}

fn refuses(alloc: Global, words: &str) -> Result<bool, NoMemory> {
    let given = Given {
        words,
        ..Given::pipe(EVALUATION.as_bytes())
    };
    let ran = ran(alloc, given)?;
    Ok(ran.taken == 0 && ran.events.is_empty() && left(ran, "", Status::Usage))
}

fn other_words_are_refused(alloc: Global) -> Result<bool, NoMemory> {
    Ok(
        refuses(alloc, "")?
            && refuses(alloc, "pipe --steps x")?
            && refuses(alloc, "pipe --steps 0")?
            && refuses(alloc, "pipe --steps=5")?
            && refuses(alloc, "pipe --journal 1")?
            && refuses(alloc, "serve")?,
    )
}

#[test]
fn other_words_run_nothing(rt: HostRuntime) -> Result<(), Fail> {
    assert!(rt; other_words_are_refused(rt.alloc())?);
    Ok(())
}

fn faults_end(alloc: Global) -> Result<bool, NoMemory> {
    let read = Given {
        bad_read: 2,
        ..Given::pipe(EVALUATION.as_bytes())
    };
    let write = Given {
        at_most: 1,
        bad_write: 3,
        ..Given::pipe(EVALUATION.as_bytes())
    };
    let empty = ran(alloc, Given::pipe(&[]))?;
    Ok(
        left(ran(alloc, read)?, ANSWER, Status::ReadFault)
            && left(ran(alloc, write)?, "00", Status::WriteFault)
            && empty.events.as_str() == "End "
            && left(empty, "", Status::Ok),
    )
}

#[test]
fn faults_of_the_devices_end_a_session(rt: HostRuntime) -> Result<(), Fail> {
    assert!(rt; faults_end(rt.alloc())?);
    Ok(())
}

fn octets_that_are_no_text(alloc: Global) -> Result<bool, NoMemory> {
    let mut octets = joined(alloc, &["000001"])?;
    octets.push(255)?;
    let ran = ran(alloc, Given::pipe(octets.as_slice()))?;
    Ok(left(ran, r#"00001E(:reader-error "" "Not UTF-8")"#, Status::Ok))
}

#[test]
fn octets_that_are_no_text_are_told(rt: HostRuntime) -> Result<(), Fail> {
    assert!(rt; octets_that_are_no_text(rt.alloc())?);
    Ok(())
}

/// A packet of 1,048,576 octets, its header with them, that holds a string of as many `a` as there is room for.
fn large_packet(alloc: Global) -> Result<Rows<u8>, NoMemory> {
    let part = [97; 1_048];
    let mut packet = joined(alloc, &["0ffffa\""])?;
    for _ in 0..1_000 {
        packet.extend(&part)?;
    }
    packet.extend(&part[..568])?;
    packet.push(34)?;
    Ok(packet)
}

fn copies(alloc: Global, packet: &[u8], count: u64) -> Result<Rows<u8>, NoMemory> {
    let mut octets = Rows::new(alloc);
    for _ in 0..count {
        octets.extend(packet)?;
    }
    Ok(octets)
}

/// Whether 64 such packets, as much as a session may have, are each answered, and the session ends at the limit.
fn as_much_as_may_be_is_read(alloc: Global) -> Result<bool, NoMemory> {
    let packet = large_packet(alloc)?;
    let octets = copies(alloc, packet.as_slice(), 64)?;
    let ran = ran(alloc, Given::pipe(octets.as_slice()))?;
    let begins = ran.written.as_slice().starts_with(b"000410(:reader-error ");
    Ok(
        begins
            && ran.status == Status::InputLimit
            && ran.taken == 67_108_864
            && ran.sent == 64 * 1_046,
    )
}

#[test]
fn no_more_is_read_than_a_session_may_have(rt: HostRuntime) -> Result<(), Fail> {
    assert!(rt; as_much_as_may_be_is_read(rt.alloc())?);
    Ok(())
}
