ghost use Rattle.std.specs.Prelude.{◌≡◌, ◌≢◌, [], true, is_some, IfOk};
ghost use Rattle.term_model.specs.Room.{enter, room, wrap};
ghost use Rattle.term_model.specs.declared.found.Found.{Found};
ghost use Rattle.lisp_frames.specs.Stack.{is_full, with_context};
ghost use Rattle.lisp_frames.specs.Resumed.{entered, last_laid, next_in, resumed_to};

use crate::Stack;
use going_in::{Next, look, resumed};
use lisp_data::{NoMemory, Pile, Rows, Value};
use std::alloc::Global;
use term_model::{Focus, Found, Frame, Outcome, Plain};

impl Stack {
    /// Goes in from what was found, as far as there is room for layers, and says whether there was room for all of them. Where there
    /// was none, the layers that had room stand, and the redex is the one before.
    #[tactic(auto, using(crate::proofs::RoomLemmas::enter_inside, crate::proofs::RoomLemmas::enter_full, crate::proofs::RoomLemmas::room_smaller))]
    pub fn enter(&mut self, alloc: Global, found: Found) -> Result<bool, NoMemory>
        ensures fits { IfOk result (λ fits. fits ≡ is_some (enter (room self.old.context) self.old.context found).redex) }
        ensures entered { IfOk result (λ _. self.new ≡ entered (enter (room self.old.context) self.old.context found) self.old) }
    {
        let mut found = found;
        'inside: while let Found::Inside(partial, form) = found {
            if self.is_full() {
                return Ok(false);
            }
            self.push_over(Frame::On(Plain::Form(partial)))?;
            found = look(alloc, &form)?;
        }
        match found {
            Found::Here(redex) => self.set_focus(redex),
            Found::Already(value) => self.set_focus(Focus::Given(Outcome::Value(value))),
            Found::Inside(..) => {}
        }
        Ok(true)
    }

    /// Puts the last marker round a value, which needs no room: the marker with its value is the redex. It says whether it was one.
    fn lay_last(&mut self, marker: Plain, is_last: bool, found: Found) -> Result<bool, NoMemory>
        ensures fits { IfOk result (λ fits. fits ≡ is_some (last_laid marker is_last self.old.context found).redex) }
        ensures laid { IfOk result (λ _. self.new ≡ entered (last_laid marker is_last self.old.context found) self.old) }
    {
        match (found, is_last) {
            (Found::Already(value), true) => {
                self.push_over(Frame::On(marker))?;
                self.set_focus(Focus::Given(Outcome::Value(value)));
                Ok(true)
            }
            _ => Ok(false),
        }
    }

    /// Puts markers around the redex, the outermost first, as far as there is room for them. What is left of them had none.
    #[tactic(auto, using(crate::proofs::RoomLemmas::wrap_inside))]
    fn lay_markers(&mut self, markers: &mut Pile<Plain>) -> Result<(), NoMemory>
        ensures laid { IfOk result (λ _. (found : Found) → wrap (room self.new.context) self.new.context markers.new found ≡ wrap (room self.old.context) self.old.context markers.old found) }
        ensures full { IfOk result (λ _. markers.new ≢ [] → is_full self.new.context ≡ true) }
        ensures kept { IfOk result (λ _. self.new ≡ with_context self.new.context self.old) }
    {
        'markers: while !self.is_full() {
            let Some(marker) = markers.pop() else {
                return Ok(());
            };
            self.push_over(Frame::On(marker))?;
        }
        Ok(())
    }

    /// Puts markers around the redex, the outermost first, and goes in from what was found inside them, as far as there is room. It
    /// says what `enter` says.
    #[tactic(auto, using(crate::proofs::RoomLemmas::wrap_full))]
    pub fn lay(
        &mut self,
        alloc: Global,
        markers: Rows<Plain>,
        found: Found,
    ) -> Result<bool, NoMemory>
        ensures fits { IfOk result (λ fits. fits ≡ is_some (wrap (room self.old.context) self.old.context markers found).redex) }
        ensures laid { IfOk result (λ _. self.new ≡ entered (wrap (room self.old.context) self.old.context markers found) self.old) }
    {
        let mut markers = Pile::of(markers);
        self.lay_markers(&mut markers)?;
        match markers.pop() {
            None => Ok(self.enter(alloc, found)?),
            Some(marker) => Ok(self.lay_last(marker, markers.is_empty(), found)?),
        }
    }

    /// Takes the form off that waits for the value of the term inside it, and gives what it meets next. None where nothing directly
    /// around the redex waits for a value: then the value is the redex.
    pub fn resume(&mut self, alloc: Global, value: Value) -> Result<Option<Found>, NoMemory>
        ensures found { IfOk result (λ found. found ≡ next_in self.old.context value) }
        ensures changed { IfOk result (λ found. self.new ≡ resumed_to found value self.old) }
    {
        let value = match self.pop() {
            None => value,
            Some(Frame::On(layer)) => match resumed(alloc, layer, value)? {
                Next::Goes(found) => return Ok(Some(found)),
                Next::Keeps(layer, value) => {
                    self.push_over(Frame::On(layer))?;
                    value
                }
            },
            Some(frame) => {
                self.push_over(frame)?;
                value
            }
        };
        self.set_focus(Focus::Given(Outcome::Value(value)));
        Ok(None)
    }
}
