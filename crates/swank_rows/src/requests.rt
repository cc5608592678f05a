//! The functions that a request may call, and what is answered where they are refused.

use crate::session::first_wrong;
use std::test::Fail;

const REQUESTS: &str =
    r##"> (:emacs-rex (swank:interactive-eval "1 'a \"two\"") "COMMON-LISP-USER" t 1)
> (:emacs-rex (swank:interactive-eval "") "COMMON-LISP-USER" t 2)
> (:emacs-rex (swank:interactive-eval ":key") "COMMON-LISP-USER" t 3)
> (:emacs-rex (swank:interactive-eval "t") "COMMON-LISP-USER" t 4)
> (:emacs-rex (swank:interactive-eval "nil") "COMMON-LISP-USER" t 5)
> (:emacs-rex (swank:interactive-eval "'(a \"b\" (nil . c))") "COMMON-LISP-USER" t 6)
> (:emacs-rex (swank:interactive-eval "'(a \"b\" (nil -7))") "COMMON-LISP-USER" t 7)
> (:emacs-rex (swank:interactive-eval "#'car") "COMMON-LISP-USER" t 8)
> (:emacs-rex (swank:interactive-eval-region "'cl-user::here") "CL" t 9)
> (:emacs-rex (swank:interactive-eval "'there") "cl-user" t 10)
> (:emacs-rex (swank:interactive-eval "everywhere") "KEYWORD" t 11)
< (:return (:ok "=> \"two\"") 1)
< (:return (:ok "; No value") 2)
< (:return (:ok "=> :KEY") 3)
< (:return (:ok "=> T") 4)
< (:return (:ok "=> NIL") 5)
< (:return (:abort "NIL") 6)
< (:return (:ok "=> (A \"b\" (NIL -7))") 7)
< (:return (:ok "=> CAR") 8)
< (:return (:ok "=> COMMON-LISP-USER::HERE") 9)
< (:return (:ok "=> THERE") 10)
< (:return (:ok "=> :EVERYWHERE") 11)

> (:emacs-rex (swank:swank-require '(swank-repl)) "COMMON-LISP-USER" t 1)
> (:emacs-rex (swank-repl:create-repl nil :coding-system "utf-8-unix") "COMMON-LISP-USER" t 2)
> (:emacs-rex (swank:buffer-first-change "a.lisp") "COMMON-LISP-USER" t 3)
> (:emacs-rex (swank:list-all-package-names t) "COMMON-LISP-USER" t 4)
> (:emacs-rex (swank:set-package "CL") "COMMON-LISP-USER" t 5)
> (:emacs-rex (swank-repl:create-repl nil) "COMMON-LISP-USER" t 6)
< (:return (:ok nil) 1)
< (:return (:ok ("COMMON-LISP-USER" "CL-USER")) 2)
< (:return (:ok nil) 3)
< (:return (:ok ("COMMON-LISP" "COMMON-LISP-USER" "KEYWORD")) 4)
< (:return (:ok ("COMMON-LISP" "CL")) 5)
< (:return (:ok ("COMMON-LISP" "CL")) 6)

> (:emacs-rex (swank-repl:listener-eval "42<LF>") "COMMON-LISP-USER" :repl-thread 1)
> (:emacs-rex (swank-repl:listener-eval "; nothing<LF>") "COMMON-LISP-USER" :repl-thread 2)
< (:write-string "42<LF>" :repl-result)
< (:return (:ok nil) 1)
< (:write-string "; No value<LF>" :repl-result)
< (:return (:ok nil) 2)

> (:emacs-rex (swank:nosuch) "COMMON-LISP-USER" t 4)
> (:emacs-rex (swank:interactive-eval 5) "COMMON-LISP-USER" t 5)
> (:emacs-rex (swank:interactive-eval "(") "COMMON-LISP-USER" t 6)
> (:emacs-rex (swank:interactive-eval "nope:x") "COMMON-LISP-USER" t 7)
> (:emacs-rex (swank:set-package "NOPE") "COMMON-LISP-USER" :repl-thread 8)
> (:emacs-rex (swank:interactive-eval "1") "COMMON-LISP-USER" :repl-thread 9)
< (:return (:abort "NIL") 4)
< (:return (:abort "NIL") 5)
< (:return (:abort "NIL") 6)
< (:return (:abort "NIL") 7)
< (:return (:abort "NIL") 8)
< (:return (:ok "=> 1") 9)"##;

#[test]
fn functions_of_requests_are_served(rt: HostRuntime) -> Result<(), Fail> {
    assert_eq!(rt; first_wrong(rt.alloc(), REQUESTS)?, 0);
    Ok(())
}

const UNBUILT: &str = r#"> (:emacs-rex (swank:interactive-eval "(+ 1 2)") "COMMON-LISP-USER" t 1)
> (:emacs-rex (swank:interactive-eval "x") "COMMON-LISP-USER" t 2)
> (:emacs-rex (swank:list-threads) "COMMON-LISP-USER" t 3)
< (:return (:abort "NIL") 1)
< (:return (:abort "NIL") 2)
< (:return (:abort "NIL") 3)"#;

#[test]
fn what_is_not_built_is_aborted(rt: HostRuntime) -> Result<(), Fail> {
    assert_eq!(rt; first_wrong(rt.alloc(), UNBUILT)?, 0);
    Ok(())
}

const PREFIXES: &str = r#"> (:emacs-rex (swank::swank-require) "COMMON-LISP-USER" t 1)
> (:emacs-rex (swank-repl:swank-require) "COMMON-LISP-USER" t 2)
> (:emacs-rex (swank-repl::swank-require) "COMMON-LISP-USER" t 3)
> (:emacs-rex (SWANK:Swank-Require) "COMMON-LISP-USER" t 4)
> (:emacs-rex (swank:set-package '"KEYWORD") "COMMON-LISP-USER" t 5)
< (:return (:ok nil) 1)
< (:return (:ok nil) 2)
< (:return (:ok nil) 3)
< (:return (:ok nil) 4)
< (:return (:ok ("KEYWORD" "KEYWORD")) 5)"#;

#[test]
fn each_prefix_names_the_same_functions(rt: HostRuntime) -> Result<(), Fail> {
    assert_eq!(rt; first_wrong(rt.alloc(), PREFIXES)?, 0);
    Ok(())
}

/// What is no call of a function, and what lacks its argument.
const NEAR_MISSES: &str = r#"> (:emacs-rex (connection-info) "COMMON-LISP-USER" t 1)
> (:emacs-rex (slynk:connection-info) "COMMON-LISP-USER" t 2)
> (:emacs-rex (:swank-require) "COMMON-LISP-USER" t 3)
> (:emacs-rex 42 "COMMON-LISP-USER" t 4)
> (:emacs-rex () "COMMON-LISP-USER" t 5)
> (:emacs-rex swank:connection-info "COMMON-LISP-USER" t 6)
> (:emacs-rex ("swank:nosuch" x) "COMMON-LISP-USER" t 7)
> (:emacs-rex ((swank:connection-info)) "COMMON-LISP-USER" t 8)
> (:emacs-rex (swank:interactive-eval) "COMMON-LISP-USER" t 9)
> (:emacs-rex (swank:interactive-eval-region 1) "COMMON-LISP-USER" t 10)
> (:emacs-rex (swank-repl:listener-eval text) "COMMON-LISP-USER" t 11)
> (:emacs-rex (swank:interactive-eval #'"1") "COMMON-LISP-USER" t 12)
> (:emacs-rex (swank:set-package nil) "COMMON-LISP-USER" t 13)
> (:emacs-rex (swank:set-package 'cl) "COMMON-LISP-USER" t 14)
> (:emacs-rex (swank:set-package "cl") "COMMON-LISP-USER" t 15)
> (:emacs-rex (swank:interactive-eval "1 (a") "COMMON-LISP-USER" t 16)
> (:emacs-rex (swank:interactive-eval "'(a b)") "COMMON-LISP-USER" t 17)
< (:return (:abort "NIL") 1)
< (:return (:abort "NIL") 2)
< (:return (:abort "NIL") 3)
< (:return (:abort "NIL") 4)
< (:return (:abort "NIL") 5)
< (:return (:abort "NIL") 6)
< (:return (:abort "NIL") 7)
< (:return (:abort "NIL") 8)
< (:return (:abort "NIL") 9)
< (:return (:abort "NIL") 10)
< (:return (:abort "NIL") 11)
< (:return (:abort "NIL") 12)
< (:return (:abort "NIL") 13)
< (:return (:abort "NIL") 14)
< (:return (:abort "NIL") 15)
< (:return (:abort "NIL") 16)
< (:return (:ok "=> (A B)") 17)"#;

#[test]
fn near_misses_are_aborted(rt: HostRuntime) -> Result<(), Fail> {
    assert_eq!(rt; first_wrong(rt.alloc(), NEAR_MISSES)?, 0);
    Ok(())
}

/// A form that weighs too much, and a value whose text would be too long.
const TOO_LARGE: &str =
    r#"> (:emacs-rex (swank:buffer-first-change "<LONG>") "COMMON-LISP-USER" t 1)
> (:emacs-rex (swank:interactive-eval "'(<MANY>)") "CL" t 2)
> (:emacs-rex (swank:interactive-eval "'(a b)") "COMMON-LISP-USER" t 3)
< (:return (:abort "NIL") 1)
< (:return (:abort "NIL") 2)
< (:return (:ok "=> (A B)") 3)"#;

#[test]
fn what_is_too_large_is_aborted(rt: HostRuntime) -> Result<(), Fail> {
    assert_eq!(rt; first_wrong(rt.alloc(), TOO_LARGE)?, 0);
    Ok(())
}
