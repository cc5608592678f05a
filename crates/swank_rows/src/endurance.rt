//! Sessions that go on, where a body that ends them for want of memory would meet every clause.

use crate::client::{Answered, Asking};
use crate::session::first_wrong;
use lisp_data::{NoMemory, Rows, Text};
use lisp_image::Image;
use outside_traits::MemSource;
use std::alloc::Global;
use std::cell::Cell;
use std::test::Fail;
use swank_command::{Status, run};

const DEEP: &str = r#"> <OPEN>(
> (:emacs-rex (swank:interactive-eval "1") "COMMON-LISP-USER" t 1)
< (:reader-error "<OPEN>(" "TooDeep")
< (:return (:ok "=> 1") 1)

> <OPEN>
> (:emacs-rex (swank:interactive-eval "1") "COMMON-LISP-USER" t 1)
< (:reader-error "<OPEN>" "Unclosed")
< (:return (:ok "=> 1") 1)

> (:emacs-rex (swank:interactive-eval "<OPEN>(") "COMMON-LISP-USER" t 1)
> (:emacs-rex (swank:interactive-eval "1") "COMMON-LISP-USER" t 2)
< (:return (:abort "NIL") 1)
< (:return (:ok "=> 1") 2)

> (:emacs-rex (swank:interactive-eval "cl-user:zz") "COMMON-LISP-USER" t 1)
> (:emacs-rex (swank:interactive-eval "'cl-user::zz") "COMMON-LISP-USER" t 2)
< (:return (:abort "NIL") 1)
< (:return (:ok "=> ZZ") 2)"#;

#[test]
fn what_cannot_be_read_ends_no_session(rt: HostRuntime) -> Result<(), Fail> {
    assert_eq!(rt; first_wrong(rt.alloc(), DEEP)?, 0);
    Ok(())
}

const LONG: &str = r#"* 1999
> (:emacs-rex (swank:interactive-eval "<N>") "COMMON-LISP-USER" t <N>)
< (:return (:ok "=> <N>") <N>)
* 1
> (a
> (:emacs-rex (swank:interactive-eval "1") "COMMON-LISP-USER" t 1)
< (:reader-error "(a" "Unclosed")
< (:return (:ok "=> 1") 1)

* 1000
> (:emacs-rex (swank:interactive-eval "<N>") "COMMON-LISP-USER" t <N>)
> <N>
> (:emacs-rex (swank:interactive-eval "'a") "COMMON-LISP-USER" :repl-thread <N>)
< (:return (:ok "=> <N>") <N>)
< (:reader-error "<N>" "Unknown message")
< (:return (:ok "=> A") <N>)"#;

#[test]
fn thousands_of_messages_are_answered(rt: HostRuntime) -> Result<(), Fail> {
    assert_eq!(rt; first_wrong(rt.alloc(), LONG)?, 0);
    Ok(())
}

const REQUEST: &str = r#"000041(:emacs-rex (swank:interactive-eval "42") "COMMON-LISP-USER" t 1)"#;

const REPLY: &str = r#"000019(:return (:ok "=> 42") 1)"#;

/// Two requests, each a piece of its own.
fn two_requests(alloc: Global) -> Result<MemSource, NoMemory> {
    let mut pieces = Rows::new(alloc);
    for _ in 0..2 {
        pieces.push(Rows::from_slice(alloc, REQUEST.as_bytes())?)?;
    }
    Ok(MemSource::new(pieces, Rows::new(alloc)))
}

/// How a session ends with a client that asks again only once it has its answer.
fn status_over(alloc: Global) -> Result<Status, NoMemory> {
    let mut words = Rows::new(alloc);
    words.push(Text::of(alloc, "pipe")?)?;
    let image = Image::new(alloc)?;
    let written = Cell::new(0);
    let mut asking = Asking::new(two_requests(alloc)?, REPLY.len() as u64, &written);
    let mut answered = Answered::new(alloc, &written);
    let outcome = run(alloc, words.as_slice(), image, &mut asking, &mut answered);
    Ok(outcome.status)
}

#[test]
fn an_answer_is_written_before_more_is_read(rt: HostRuntime) -> Result<(), Fail> {
    assert_eq!(rt; status_over(rt.alloc())?, Status::Ok);
    Ok(())
}
