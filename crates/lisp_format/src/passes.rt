ghost use Rattle.std.specs.Prelude.{◌≡◌, false};
ghost use Rattle.std.specs.Str.{chars};
ghost use Rattle.lisp_format.specs.Formatted.{text_from};
ghost use Rattle.lisp_format.specs.Passes.{reckoned, Writes};

use crate::fault::FormatFault;
use crate::piece::{piece_length, step_of, write_piece};
use lisp_data::{Text, Value};
use std::alloc::Global;

/// How many octets the text has, or the first fault. It takes no memory.
#[tactic(auto, unfolding(crate::specs::Formatted::text_from))]
pub fn measure(control: &str, args: &[Value], current: &Text) -> Result<u64, FormatFault>
    ensures { result ≡ reckoned 0 (text_from current.now false (chars control.now) args.now) }
{
    let mut rest = control.chars();
    let mut after_tilde = false;
    let mut left = args;
    let mut total: u64 = 0;
    while let Some(c) = rest.next() {
        let next = match step_of(after_tilde, c, left) {
            Ok(next) => next,
            Err(fault) => return Err(fault),
        };
        total = total.saturating_add(piece_length(next.piece, current));
        after_tilde = next.after_tilde;
        left = next.left;
    }
    if after_tilde {
        return Err(FormatFault::BadDirective);
    }
    Ok(total)
}

/// The text, or the first fault.
#[tactic(auto, unfolding(crate::specs::Formatted::text_from))]
pub fn write(
    alloc: Global,
    control: &str,
    args: &[Value],
    current: &Text,
) -> Result<Text, FormatFault>
    ensures { Writes result (text_from current.now false (chars control.now) args.now) }
{
    let mut rest = control.chars();
    let mut after_tilde = false;
    let mut left = args;
    let mut out = Text::new(alloc);
    while let Some(c) = rest.next() {
        let next = match step_of(after_tilde, c, left) {
            Ok(next) => next,
            Err(fault) => return Err(fault),
        };
        write_piece(alloc, &mut out, next.piece, current)?;
        after_tilde = next.after_tilde;
        left = next.left;
    }
    if after_tilde {
        return Err(FormatFault::BadDirective);
    }
    Ok(out)
}
