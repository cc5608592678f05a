ghost use Rattle.std.specs.Prelude.{◌≡◌, IfOk};
ghost use Rattle.rpc_messages.specs.Cut as spec;

use lisp_data::{NoMemory, Text};
use std::alloc::Global;

const MAX_SHOWN: usize = 1000;

/// The text, or its first 1,000 characters and three dots where it has more.
pub fn cut(alloc: Global, text: &str) -> Result<Text, NoMemory>
    ensures { IfOk result (λ short. short ≡ spec.cut text.now) }
{
    let mut shown = Text::new(alloc);
    let mut count = 0;
    let mut rest = text.chars();
    while let Some(c) = rest.next() {
        if count >= MAX_SHOWN {
            shown.push_str("...")?;
            return Ok(shown);
        }
        shown.push(c)?;
        count += 1;
    }
    Ok(shown)
}
