//! Control texts: the text that a control text gives for its arguments.
//!
//! [`format_text`] is the whole of it, and its contract is an equation with `formatted` in `specs/Formatted.antt`, each fault an
//! equivalence. A first pass finds faults and the length and takes no memory, so a text that would be too long is not begun.
//! The time taken is in proportion to the control text and the arguments.
#![tactic(auto)]

mod directive;
mod fault;
mod hexadecimal;
mod passes;
mod piece;

ghost use Rattle.std.specs.Prelude.{◌≡◌, ◌↔◌, Ok, Err, IfOk};
ghost use Rattle.lisp_format.specs.Formatted.{formatted};

use crate::passes::{measure, write};
pub use fault::FormatFault;
use lisp_data::{Text, Value};
use lisp_errors::MAX_WEIGHT;
use std::alloc::Global;

/// The text of a control text with the directives `~a`, `~s`, `~d`, `~x`, `~%` and `~~`, in either case. The package is the full
/// name of the current one.
pub fn format_text(
    alloc: Global,
    control: &Text,
    args: &[Value],
    package: &Text,
) -> Result<Text, FormatFault>
    ensures text { IfOk result (λ text. formatted «package».now control.now args.now ≡ Ok text) }
    ensures bad_directive { (result ≡ Err FormatFault.BadDirective) ↔ (formatted «package».now control.now args.now ≡ Err FormatFault.BadDirective) }
    ensures too_few { (result ≡ Err FormatFault.TooFewArguments) ↔ (formatted «package».now control.now args.now ≡ Err FormatFault.TooFewArguments) }
    ensures too_long { (result ≡ Err FormatFault.TooLong) ↔ (formatted «package».now control.now args.now ≡ Err FormatFault.TooLong) }
{
    let text = control.as_str();
    match measure(text, args, package) {
        Err(fault) => Err(fault),
        Ok(length) => {
            if length >= MAX_WEIGHT {
                return Err(FormatFault::TooLong);
            }
            write(alloc, text, args, package)
        }
    }
}

#[cfg(test)]
mod tests;
