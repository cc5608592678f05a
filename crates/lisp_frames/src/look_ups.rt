ghost use Rattle.std.specs.Prelude.{◌≡◌, option_map, reverse, unwrap_or};
ghost use Rattle.std.specs.Option.{option_copied};
ghost use Rattle.lisp_frames.specs.Seeking.{form_in, level_in, nearest_sought, shown, value_in, value_in_plain, with_sought};
ghost use Rattle.lisp_frames.specs.Stack.{given_back, with_context};
ghost use Rattle.term_model.specs.Levels.{current_level, served_form};
ghost use Rattle.term_model.specs.Variables.{dynamic, lexical, with_dynamic, with_lexical};

use crate::changes::Change;
use crate::sought::{Seen, sees};
use crate::{Sought, Stack};
use lisp_data::{Condition, Sexp, Symbol, Value};
use term_model::{Frame, Plain};

/// The nearest of these layers, the outermost first, that is sought, with its number, counted from the top, which is 0.
fn nearest<'a>(layers: &'a [Frame], sought: Sought) -> Option<(u64, &'a Frame)>
    ensures { option_map (λ found. (found.0, found.1.now)) result ≡ nearest_sought sought.entry (reverse layers.now) }
{
    let mut n = layers.len();
    'layers: while n > 0 {
        let frame = &layers[n - 1];
        match sees(sought, frame) {
            Seen::Target => return Some((n as u64, frame)),
            Seen::End => return None,
            Seen::Other => n -= 1,
        }
    }
    None
}

fn value_in_plain(layer: &Plain) -> Option<&Value>
    ensures { option_copied result ≡ value_in_plain layer.now }
{
    match layer {
        Plain::Lexical { value, .. } | Plain::Dynamic { value, .. } => Some(value),
        _ => None,
    }
}

/// The value of the binding that a layer is.
fn value_in(frame: &Frame) -> Option<&Value>
    ensures { option_copied result ≡ value_in frame.now }
{
    match frame {
        Frame::On(layer) => value_in_plain(layer),
        _ => None,
    }
}

/// The form of the request that a layer is.
fn form_in(frame: &Frame) -> Option<&Sexp>
    ensures { option_copied result ≡ form_in frame.now }
{
    match frame {
        Frame::Rex { form, .. } => Some(form),
        _ => None,
    }
}

/// The number and the condition of the level that a layer is.
fn level_in(frame: &Frame) -> Option<(u64, &Condition)>
    ensures { option_map (λ level. (level.0, level.1.now)) result ≡ level_in frame.now }
{
    match frame {
        Frame::Sldb {
            level,
            condition,
            ..
        } => Some((*level, condition)),
        _ => None,
    }
}

impl Stack {
    /// The nearest layer that is sought, with its number, counted from the top, which is 0 and no layer of the stack.
    #[tactic(auto, using(crate::proofs::SearchLemmas::nearest_frames))]
    pub fn nearest(&self, sought: Sought) -> Option<(u64, &Frame)>
        ensures { option_map (λ found. (found.0, found.1.now)) result ≡ nearest_sought sought.entry self.now.context }
    {
        nearest(self.frames(), sought)
    }

    /// The value of a lexical variable, which is seen up to the nearest call, evaluation or request; None where it has none.
    #[tactic(auto, using(crate::proofs::SearchLemmas::lexical_found))]
    pub fn lookup(&self, s: &Symbol) -> Option<&Value>
        ensures { option_copied result ≡ lexical s.now self.now.context }
    {
        let (_, frame) = self.nearest(Sought::Lexical(s))?;
        value_in(frame)
    }

    /// The value of a variable's newest dynamic binding; None where it has none.
    #[tactic(auto, using(crate::proofs::SearchLemmas::dynamic_found))]
    pub fn dynamic(&self, s: &Symbol) -> Option<&Value>
        ensures { option_copied result ≡ dynamic s.now self.now.context }
    {
        let (_, frame) = self.nearest(Sought::Dynamic(s))?;
        value_in(frame)
    }

    /// The form of the nearest request; None where there is none around.
    #[tactic(auto, using(crate::proofs::SearchLemmas::form_found))]
    pub fn served_form(&self) -> Option<&Sexp>
        ensures { option_copied result ≡ served_form self.now.context }
    {
        let (_, frame) = self.nearest(Sought::Request)?;
        form_in(frame)
    }

    /// The number and the condition of the innermost level of the debugger; None where none is open.
    #[tactic(auto, using(crate::proofs::SearchLemmas::level_found))]
    pub fn level(&self) -> Option<(u64, &Condition)>
        ensures { option_map (λ level. (level.0, level.1.now)) result ≡ option_map shown (current_level self.now.context) }
    {
        let (_, frame) = self.nearest(Sought::Level)?;
        level_in(frame)
    }

    /// Gives the nearest binding that is sought this value, or gives the value back.
    fn bind(&mut self, sought: Sought, v: Value) -> Option<Value>
        ensures changed { self.new ≡ with_context (unwrap_or (with_sought sought.entry v self.old.context) self.old.context) self.old }
        ensures back { result ≡ given_back v (with_sought sought.entry v self.old.context) }
    {
        let Some((n, _)) = self.nearest(sought) else {
            return Some(v);
        };
        self.change(n, Change::Value(v));
        None
    }

    /// Gives a lexical variable this value. The value is given back where `lookup` finds no such variable.
    #[tactic(auto, using(crate::proofs::SearchLemmas::lexical_bound))]
    pub fn assign(&mut self, s: &Symbol, v: Value) -> Option<Value>
        ensures changed { self.new ≡ with_context (unwrap_or (with_lexical s.now v self.old.context) self.old.context) self.old }
        ensures back { result ≡ given_back v (with_lexical s.now v self.old.context) }
    {
        self.bind(Sought::Lexical(s), v)
    }

    /// Gives the newest dynamic binding of a variable this value. The value is given back where there is none.
    #[tactic(auto, using(crate::proofs::SearchLemmas::dynamic_bound))]
    pub fn assign_dynamic(&mut self, s: &Symbol, v: Value) -> Option<Value>
        ensures changed { self.new ≡ with_context (unwrap_or (with_dynamic s.now v self.old.context) self.old.context) self.old }
        ensures back { result ≡ given_back v (with_dynamic s.now v self.old.context) }
    {
        self.bind(Sought::Dynamic(s), v)
    }
}
