ghost use Rattle.std.specs.Prelude.{◌≡◌, IfOk, OnOk};
ghost use Rattle.lisp_data.specs.declared.sexp.Sexp.TheViews.{out-Sexp};
ghost use Rattle.lisp_frames.specs.Stack.{with_redex, within};
ghost use Rattle.mailboxes.specs.Mail.{first_accepted, without_accepted};
ghost use Rattle.step_model.specs.CurrentPackage.{binds_package, bound_package};
ghost use Rattle.step_model.specs.Perform.{answer_in, package_bound};
ghost use Rattle.term_model.specs.declared.focus.Focus.TheVariants as focus;
ghost use Rattle.term_model.specs.declared.found.Found.TheVariants as found;
ghost use Rattle.lisp_step.specs.Rows.{laid, received, waited};

use crate::going::{give_value, lay};
use lisp_data::{NoMemory, Rows, Sexp, Text, Value};
use lisp_dynamic::package_of_request;
use lisp_frames::Stack;
use lisp_image::Image;
use mailboxes::Mailbox;
use rpc_messages::{FromEmacs, Pattern};
use std::alloc::Global;
use term_model::{Focus, Found, Frame, Plain};

/// Begins to serve a request: its function is the redex, inside its layer and the binding of its package.
fn begin(
    alloc: Global,
    request: Frame,
    markers: Rows<Plain>,
    stack: &mut Stack,
) -> Result<(), NoMemory>
    ensures { OnOk result (stack.new ≡ laid (within request stack.old) markers (found.Here focus.Rpc)) }
{
    stack.push_over(request)?;
    lay(alloc, stack, markers, Found::Here(Focus::Rpc))
}

/// The marker of the binding of `*PACKAGE*` that a request of this form and this package has; some have none.
#[tactic(auto, using(crate::proofs::WaitingLemmas::bound_some, crate::proofs::WaitingLemmas::bound_none))]
fn package_markers(
    alloc: Global,
    image: &Image,
    form: &Sexp,
    package: Option<Text>,
) -> Result<Rows<Plain>, NoMemory>
    ensures { IfOk result (λ markers. markers ≡ package_bound (binds_package form.now) (bound_package image.now «package»)) }
{
    let mut markers = Rows::new(alloc);
    if let Some(value) = package_of_request(alloc, image, form, package)? {
        let variable = image.package_variable().share()?;
        markers.push(Plain::Dynamic { variable, value })?;
    }
    Ok(markers)
}

/// The value that the answer to a question gives.
fn answer(alloc: Global, form: &Sexp) -> Result<Value, NoMemory>
    ensures { IfOk result (λ value. value ≡ answer_in (out-Sexp form.now)) }
{
    match form {
        Sexp::Str(text) => Ok(Value::Str(text.copy(alloc)?)),
        Sexp::Int(number) => Ok(Value::Int(*number)),
        Sexp::List(items) => Value::truth(alloc, !items.is_empty()),
        Sexp::Sym(_) => Value::truth(alloc, true),
    }
}

/// A message that was taken: a request is served, and an answer gives its value.
fn receive(
    alloc: Global,
    at: u64,
    mail: FromEmacs,
    stack: &mut Stack,
    image: &Image,
) -> Result<(), NoMemory>
    ensures { OnOk result (stack.new ≡ received stack.old image.now at mail) }
{
    match mail {
        FromEmacs::Rex {
            form,
            package,
            id,
            ..
        } => {
            let markers = package_markers(alloc, image, &form, package)?;
            begin(alloc, Frame::Rex { at, id, form }, markers, stack)
        }
        FromEmacs::ReturnString { text, .. } => give_value(alloc, stack, Value::Str(text)),
        FromEmacs::Return { value, .. } => give_value(alloc, stack, answer(alloc, &value)?),
        FromEmacs::Interrupt { .. } | FromEmacs::Unreadable { .. } => Ok(()),
    }
}

/// Waits for what the pattern accepts: the first such message is taken, and without one nothing changes.
pub(crate) fn wait(
    alloc: Global,
    pattern: Pattern,
    stack: &mut Stack,
    image: &Image,
    mailbox: &mut Mailbox,
) -> Result<(), NoMemory>
    ensures stack { OnOk result (stack.new ≡ waited (with_redex (focus.Wait pattern) stack.old) image.now (first_accepted pattern mailbox.old)) }
    ensures mailbox { mailbox.new ≡ without_accepted pattern mailbox.old }
{
    stack.set_focus(Focus::Wait(pattern));
    match mailbox.take_first(&pattern) {
        Some((at, mail)) => receive(alloc, at, mail, stack, image),
        None => Ok(()),
    }
}
