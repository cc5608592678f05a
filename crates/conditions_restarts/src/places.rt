ghost use Rattle.std.specs.Prelude.{◌≡◌, ◌≤◌, ◌-◌, length, reverse, take, option_map};
ghost use Rattle.lisp_frames.specs.Stack.{innermost};
ghost use Rattle.std.specs.Option.{option_copied};
ghost use Rattle.conditions_restarts.specs.Places.{find_place, named_from, offered_in, offered_in_plain, place_of, served_in, top_place};
ghost use Rattle.term_model.specs.Restarts.{find_restart};

use lisp_data::Symbol;
use lisp_frames::Stack;
use term_model::{Frame, Offer, Plain};

/// Where a restart is: the number of its layer, counted from the top, which is 0, and its place among the restarts of that layer, from 0.
#[derive(Clone, Copy, Debug, PartialEq, Eq)]
pub struct RestartPlace {
    pub layer: u64,
    pub number: u64,
}

/// The place of the first of these restarts that has the name.
fn named(offers: &[Offer], name: &Symbol) -> Option<u64>
    ensures { result ≡ named_from name.now 0 offers.now }
{
    let mut n = 0;
    'offers: while n < offers.len() {
        if offers[n].name.symbol().same(name) {
            return Some(n as u64);
        }
        n += 1;
    }
    None
}

fn offered_in_plain(layer: &Plain, name: &Symbol) -> Option<u64>
    ensures { result ≡ offered_in_plain name.now layer.now }
{
    match layer {
        Plain::Restarts(offers) => named(offers.as_slice(), name),
        _ => None,
    }
}

/// Whether the layer around a request is a level, which gives the request its ABORT.
fn served_in(outer: Option<&Frame>, name: &Symbol) -> Option<u64>
    ensures { result ≡ served_in name.now (option_copied outer.entry) }
{
    match outer {
        Some(Frame::Sldb { .. }) => {
            if name.is_standard("ABORT") {
                return Some(0);
            }
            None
        }
        _ => None,
    }
}

/// The place of the restart of this name that a layer offers, with the layer around it.
fn offered_in(frame: &Frame, outer: Option<&Frame>, name: &Symbol) -> Option<u64>
    ensures { result ≡ offered_in name.now frame.now (option_copied outer.entry) }
{
    match frame {
        Frame::On(layer) => offered_in_plain(layer, name),
        Frame::Rex { .. } => served_in(outer, name),
        Frame::Protect { .. } | Frame::Cleanup { .. } => None,
        Frame::Sldb { .. } | Frame::Ask { .. } => None,
    }
}

/// The restart of the thread's top.
fn top_place(name: &Symbol) -> Option<RestartPlace>
    ensures { result ≡ top_place name.now }
{
    if name.is_standard("ABORT") {
        return Some(RestartPlace {
            layer: 0,
            number: 0,
        });
    }
    None
}

/// The innermost of the layers that are outside the one of this number.
fn outer(layers: &[Frame], n: usize) -> Option<&Frame>
    requires { n ≤ length layers.now }
    ensures { option_copied result ≡ innermost (reverse (take (n - 1) layers.now)) }
{
    let place = n.checked_sub(2)?;
    layers.get(place)
}

/// The place of the innermost restart of this name in these layers, the outermost first.
fn find_in(layers: &[Frame], name: &Symbol) -> Option<RestartPlace>
    ensures { result ≡ find_place name.now (reverse layers.now) }
{
    let mut n = layers.len();
    'layers: while n > 0 {
        let number = offered_in(&layers[n - 1], outer(layers, n), name);
        if let Some(number) = number {
            return Some(RestartPlace {
                layer: n as u64,
                number,
            });
        }
        n -= 1;
    }
    top_place(name)
}

/// The place of the innermost visible restart of this name, None where there is none.
#[tactic(auto, using(crate::proofs::PlaceLemmas::restart_found))]
pub fn find_restart(stack: &Stack, name: &Symbol) -> Option<RestartPlace>
    ensures { result ≡ option_map place_of (find_restart name.now stack.now.context) }
{
    find_in(stack.frames(), name)
}
