ghost use Rattle.std.specs.Prelude.{◌≡◌};
ghost use Rattle.rpc_messages.specs.Waiting.{accepted};

use crate::FromEmacs;

/// What a thread waits for.
#[derive(Clone, Copy, Debug, PartialEq, Eq)]
pub enum Pattern {
    /// A request.
    Rex,
    /// The string for the question of this tag.
    StringFor(u64),
    /// The value for the question of this tag.
    ValueFor(u64),
}

/// Whether a thread that waits for this pattern takes this message.
pub fn accepts(p: &Pattern, m: &FromEmacs) -> bool
    ensures { result ≡ accepted p.now m.now }
{
    match (p, m) {
        (Pattern::Rex, FromEmacs::Rex { .. }) => true,
        (Pattern::StringFor(wanted), FromEmacs::ReturnString { tag, .. }) => wanted == tag,
        (Pattern::ValueFor(wanted), FromEmacs::Return { tag, .. }) => wanted == tag,
        _ => false,
    }
}
