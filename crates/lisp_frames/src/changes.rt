ghost use Rattle.std.specs.Prelude.{◌≡◌};
ghost use Rattle.lisp_frames.specs.Stack.{at_place, by_change, with_again, with_value, with_value_in_plain};

use lisp_data::Value;
use term_model::{Frame, Plain};

/// A change of a frame: of a level, whether it is to be announced again; of a binding, its value. A frame of another kind stays as it is.
#[derive(Drop)]
pub(crate) enum Change {
    Again(bool),
    Value(Value),
}

fn announce(frame: &mut Frame, now: bool)
    ensures { frame.new ≡ with_again now frame.old }
{
    if let Frame::Sldb { again, .. } = frame {
        *again = now;
    }
}

fn bind_in(layer: &mut Plain, v: Value)
    ensures { layer.new ≡ with_value_in_plain v layer.old }
{
    match layer {
        Plain::Lexical { value, .. } => *value = v,
        Plain::Dynamic { value, .. } => *value = v,
        _ => {}
    }
}

fn bind(frame: &mut Frame, v: Value)
    ensures { frame.new ≡ with_value v frame.old }
{
    if let Frame::On(layer) = frame {
        bind_in(layer, v);
    }
}

fn make_change(frame: &mut Frame, made: Change)
    ensures { frame.new ≡ by_change made frame.old }
{
    match made {
        Change::Again(again) => announce(frame, again),
        Change::Value(v) => bind(frame, v),
    }
}

/// Changes the frame at this place, counted from 0, if there is one.
pub(crate) fn change_at(layers: &mut Vec<Frame>, place: usize, made: Change)
    ensures { layers.new.items ≡ at_place place (by_change made) layers.old.items }
{
    if place < layers.len() {
        make_change(&mut layers[place], made);
    }
}
