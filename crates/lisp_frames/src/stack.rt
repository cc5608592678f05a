ghost use Rattle.std.specs.Prelude.{◌≡◌, ◌<◌, ◌≤◌, ◌^◌, ◌+◌, ◌↔◌, [], ◌∷◌, slice_get, reverse, Err, OnOk, OnErr};
ghost use Rattle.std.specs.Option.{option_copied};
ghost use Rattle.term_model.specs.Room.{is_within, layers, levels, limit};
ghost use Rattle.term_model.specs.Search.{layer_at};
ghost use Rattle.lisp_frames.specs.Stack.{by_change, fresh, changed_at, innermost, is_full, outer, with_again, with_context, with_redex, with_serial, within};
ghost use Rattle.lisp_frames.specs.declared.stack.PushFault.TheVariants as fault;

use crate::changes::{Change, change_at};
use lisp_data::NoMemory;
use rpc_messages::Pattern;
use std::alloc::Global;
use std::marker::Model;
use std::mem;
use term_model::{Focus, Frame};

/// Why a frame couldn't be pushed.
#[derive(Debug, Drop, PartialEq)]
pub enum PushFault {
    /// There are as many layers as there may be.
    Exhausted,
    NoMemory,
}

impl From<NoMemory> for PushFault {
    ghost use Rattle.std.specs.Prelude.{◌≡◌};
    ghost use Rattle.lisp_frames.specs.declared.stack.PushFault.TheVariants.{NoMemory};

    // `?` gives this fault for want of memory.
    ghost from_gives = { λ _ fault. fault ≡ NoMemory };

    fn from(_fault: NoMemory) -> PushFault {
        PushFault::NoMemory
    }
}

/// The frames of a thread with its redex and the serial of its next protected form. Contracts see the record of the three, with the
/// frames as a context, the innermost first.
pub struct Stack {
    layers: Vec<Frame>,
    /// How many of them are levels of the debugger.
    opened: u64,
    redex: Focus,
    serial: u64,
}

impl Model for Stack {
    ghost use Rattle.std.specs.Prelude.{◌≡◌, reverse};
    ghost use Rattle.std.specs.Coded.{codes};
    ghost use Rattle.lisp_data.specs.contracts.sexp.Sexp as sexp;
    ghost use Rattle.lisp_data.specs.contracts.value.Value as value;
    ghost use Rattle.syntax_trees.specs.contracts.ast.Ast as ast;
    ghost use Rattle.term_model.specs.Room.{levels};
    ghost use Rattle.lisp_frames.specs.Stack.{StackState};

    ghost Value = { StackState };

    ghost coded = { Prim.hlevel (codes, ast.the_row.coded, value.the_row.coded, sexp.the_row.coded) };

    ghost view = { λ s. record { context = reverse s.layers.items; redex = s.redex; serial = s.serial } };

    ghost invariant = { λ s. s.opened ≡ levels (reverse s.layers.items) };
}

impl Drop for Stack {
    fn drop(self) {
        let Stack {
            layers: _,
            opened: _,
            redex: _,
            serial: _,
        } = self;
    }
}

/// How many levels of the debugger the frame is: one or none.
fn level_of(frame: &Frame) -> u64
    ensures { result ≡ levels (frame.now ∷ []) }
{
    match frame {
        Frame::Sldb { .. } => 1,
        Frame::On(_) | Frame::Rex { .. } | Frame::Ask { .. } => 0,
        Frame::Protect { .. } | Frame::Cleanup { .. } => 0,
    }
}

/// How many layers there may be with this many levels open.
#[tactic(auto, unfolding(term_model::specs::Room::limit))]
fn limit(levels: u64) -> u128
    ensures { result ≡ limit levels }
{
    20_000 + 500 * u128::from(levels)
}

/// The layer at this place, counted from 0.
fn layer(layers: &[Frame], place: usize) -> Option<&Frame>
    ensures { option_copied result ≡ slice_get layers.now place }
{
    layers.get(place)
}

impl Stack {
    /// The stack of a new thread, which waits for a request with nothing around. It takes no memory.
    pub fn new(alloc: Global) -> Stack
        ensures { result ≡ fresh }
    {
        Stack {
            layers: Vec::new(alloc),
            opened: 0,
            redex: Focus::Wait(Pattern::Rex),
            serial: 0,
        }
    }

    /// How many layers there are. The thread's top, which is around all frames, is one of them.
    #[tactic(auto, using(crate::proofs::ContextLemmas::layers_reverse))]
    pub fn depth(&self) -> u64
        ensures { result ≡ layers self.now.context }
    {
        self.layers.len() as u64 + 1
    }

    /// How many levels of the debugger are open.
    pub fn levels(&self) -> u64
        ensures { result ≡ levels self.now.context }
    {
        self.opened
    }

    /// Whether there are as many layers as there may be, or more.
    pub fn is_full(&self) -> bool
        ensures { result ≡ is_full self.now.context }
    {
        limit(self.opened) <= u128::from(self.depth())
    }

    /// Whether the layers are within their limit, which they may also fill.
    pub fn is_within(&self) -> bool
        ensures { result ≡ is_within self.now.context }
    {
        u128::from(self.depth()) <= limit(self.opened)
    }

    /// Puts a frame directly around the redex, also past the limit. The frame is dropped where memory is wanting.
    #[tactic(auto, using(crate::proofs::ContextLemmas::levels_push, crate::proofs::ContextLemmas::reverse_push, crate::proofs::ContextLemmas::levels_bound, crate::proofs::ContextLemmas::one_level))]
    pub fn push_over(&mut self, f: Frame) -> Result<(), NoMemory>
        ensures ok { OnOk result (self.new ≡ within f self.old) }
        ensures err { OnErr result (self.new ≡ self.old) }
    {
        let level = level_of(&f);
        self.layers.push(f)?;
        self.opened += level;
        Ok(())
    }

    /// Puts a frame directly around the redex, where the limit leaves room for it. The frame is dropped otherwise.
    pub fn push(&mut self, f: Frame) -> Result<(), PushFault>
        ensures ok { OnOk result (self.new ≡ within f self.old) }
        ensures exhausted { (result ≡ Err fault.Exhausted) ↔ (limit (levels self.old.context) ≤ layers self.old.context) }
        ensures err { OnErr result (self.new ≡ self.old) }
    {
        if self.is_full() {
            return Err(PushFault::Exhausted);
        }
        self.push_over(f)?;
        Ok(())
    }

    /// Takes the innermost frame off, None where there is none.
    #[tactic(auto, using(crate::proofs::ContextLemmas::levels_push, crate::proofs::ContextLemmas::reverse_push, crate::proofs::ContextLemmas::levels_bound))]
    pub fn pop(&mut self) -> Option<Frame>
        ensures frame { result ≡ innermost self.old.context }
        ensures rest { self.new ≡ with_context (outer self.old.context) self.old }
    {
        let frame = self.layers.pop()?;
        self.opened -= level_of(&frame);
        Some(frame)
    }

    pub fn focus(&self) -> &Focus
        ensures { result.now ≡ self.now.redex }
    {
        &self.redex
    }

    pub fn set_focus(&mut self, f: Focus)
        ensures { self.new ≡ with_redex f self.old }
    {
        self.redex = f;
    }

    /// Puts this in the place of the redex, which is given back.
    pub fn replace_focus(&mut self, f: Focus) -> Focus
        ensures old { result ≡ self.old.redex }
        ensures new { self.new ≡ with_redex f self.old }
    {
        mem::replace(&mut self.redex, f)
    }

    /// The frames, the outermost first.
    #[tactic(auto, using(crate::proofs::ContextLemmas::reverse_twice))]
    pub fn frames(&self) -> &[Frame]
        ensures { result.now ≡ reverse self.now.context }
    {
        self.layers.as_slice()
    }

    /// The frame of the layer of this number, counted from the bottom. Number 0 is the thread's top, which is around all frames and is
    /// none; and there is none where the number is `depth` or more.
    #[tactic(auto, using(crate::proofs::ContextLemmas::layer_at_place, crate::proofs::ContextLemmas::layer_at_zero))]
    pub fn frame_at(&self, n: u64) -> Option<&Frame>
        ensures { option_copied result ≡ layer_at n self.now.context }
    {
        let place = n.checked_sub(1)?;
        layer(self.layers.as_slice(), place as usize)
    }

    /// Makes one change in the layer of this number, if it is a frame.
    #[tactic(auto, using(crate::proofs::ContextLemmas::changed_at_place, crate::proofs::ContextLemmas::changed_at_zero, crate::proofs::ContextLemmas::levels_at_place))]
    pub(crate) fn change(&mut self, n: u64, change: Change)
        ensures { self.new ≡ with_context (changed_at n (by_change change) self.old.context) self.old }
    {
        if let Some(place) = n.checked_sub(1) {
            change_at(&mut self.layers, place as usize, change);
        }
    }

    /// Says whether the level of the debugger whose layer has this number is to be announced again.
    pub fn set_again(&mut self, n: u64, again: bool)
        ensures { self.new ≡ with_context (changed_at n (with_again again) self.old.context) self.old }
    {
        self.change(n, Change::Again(again));
    }

    /// Gives the next serial, and raises it by one.
    pub fn take_serial(&mut self) -> u64
        requires { self.old.serial < 2 ^ 63 }
        ensures serial { result ≡ self.old.serial }
        ensures next { self.new ≡ with_serial (self.old.serial + 1) self.old }
    {
        let serial = self.serial;
        self.serial += 1;
        serial
    }
}
