use crate::info;
use lisp_data::Sexp;
use std::test::Fail;

/// Whether the form is a list of this many items.
fn has_items(form: &Sexp, count: usize) -> bool {
    match form {
        Sexp::List(items) => items.len() == count,
        _ => false,
    }
}

#[test]
fn nine_keys_have_their_values(rt: HostRuntime) -> Result<(), Fail> {
    let form = info(rt.alloc(), "COMMON-LISP-USER", "CL-USER")?;
    assert!(rt; has_items(&form, 18));
    Ok(())
}
