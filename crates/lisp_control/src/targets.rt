ghost use Rattle.std.specs.Prelude.{◌≡◌};
ghost use Rattle.term_model.specs.Targets.{find_block, find_catch};

use lisp_data::{Symbol, Value};
use lisp_frames::{Sought, Stack};

/// The number of the nearest block of this name that is seen from the redex, counted from the top, which is 0 (HyperSpec, special operator
/// RETURN-FROM). None where none is seen.
#[tactic(auto, using(crate::proofs::TargetLemmas::block_found))]
pub fn find_block(stack: &Stack, name: &Symbol) -> Option<u64>
    ensures { result ≡ find_block name.now stack.now.context }
{
    let (n, _) = stack.nearest(Sought::Block(name))?;
    Some(n)
}

/// The number of the newest catch whose tag is the same, counted from the top, which is 0 (HyperSpec, special operator THROW). None where there
/// is none.
#[tactic(auto, using(crate::proofs::TargetLemmas::catch_found))]
pub fn find_catch(stack: &Stack, tag: &Value) -> Option<u64>
    ensures { result ≡ find_catch tag.now stack.now.context }
{
    let (n, _) = stack.nearest(Sought::Catch(tag))?;
    Some(n)
}
