ghost use Rattle.std.specs.Prelude.{◌≡◌, ◌∷◌, [], IfOk};
ghost use Rattle.std.specs.Option.{option_copied};
ghost use Rattle.conditions_restarts.specs.Places.{place_of};
ghost use Rattle.term_model.specs.Restarts.{abort_exit, brings, by_action, by_layer, by_offer, invoked, nothing_at};

use crate::places::{RestartPlace, find_restart};
use lisp_data::{NoMemory, Rows, Symbol, Value};
use lisp_frames::Stack;
use std::alloc::Global;
use term_model::{Action, Bring, Frame, Leaving, Offer, Outcome, Plain};

/// What an outcome is that an exit brings.
fn brought(alloc: Global, outcome: &Outcome) -> Result<Bring, NoMemory>
    ensures { IfOk result (λ bring. bring ≡ brings outcome.now) }
{
    match outcome {
        Outcome::Value(value) => Ok(Bring::Value(value.copy(alloc)?)),
        Outcome::Reply(reply) => Ok(Bring::Reply(reply.copy(alloc)?)),
    }
}

/// The exit of a restart with this action.
fn by_action(
    alloc: Global,
    place: RestartPlace,
    args: Rows<Value>,
    action: &Action,
) -> Result<Leaving, NoMemory>
    ensures { IfOk result (λ exit. exit ≡ by_action place.layer place.number args action.now) }
{
    let bring = match action {
        Action::Give(outcome) => brought(alloc, outcome)?,
        Action::Run(_) => Bring::Clause {
            number: place.number,
            args,
        },
    };
    Ok(Leaving {
        target: place.layer,
        bring,
    })
}

/// The exit that leaves everything inside the layer of this number, and the layer.
fn nothing_at(target: u64) -> Leaving
    ensures { result ≡ nothing_at target }
{
    Leaving {
        target,
        bring: Bring::Nothing,
    }
}

fn by_offer(
    alloc: Global,
    place: RestartPlace,
    args: Rows<Value>,
    offer: Option<&Offer>,
) -> Result<Option<Leaving>, NoMemory>
    ensures { IfOk result (λ exit. exit ≡ by_offer place.layer place.number args (option_copied offer.entry)) }
{
    match offer {
        None => Ok(None),
        Some(offer) => Ok(Some(by_action(alloc, place, args, &offer.action)?)),
    }
}

fn by_layer(
    alloc: Global,
    place: RestartPlace,
    args: Rows<Value>,
    frame: Option<&Frame>,
) -> Result<Option<Leaving>, NoMemory>
    ensures { IfOk result (λ exit. exit ≡ by_layer place.layer place.number args (option_copied frame.entry)) }
{
    match frame {
        Some(Frame::On(Plain::Restarts(offers))) => {
            by_offer(
                alloc,
                place,
                args,
                offers.as_slice().get(place.number as usize),
            )
        }
        Some(Frame::Rex { .. }) => Ok(Some(nothing_at(place.layer))),
        _ => Ok(None),
    }
}

/// The exit that the restart at this place makes with these arguments, None where there is none.
pub fn invoke(
    stack: &Stack,
    alloc: Global,
    place: RestartPlace,
    args: Rows<Value>,
) -> Result<Option<Leaving>, NoMemory>
    ensures { IfOk result (λ exit. exit ≡ invoked place.layer place.number args stack.now.context) }
{
    if place.layer == 0 {
        return Ok(Some(nothing_at(0)));
    }
    by_layer(alloc, place, args, stack.frame_at(place.layer))
}

/// The exit by the innermost visible ABORT. The thread's top has one, so there always is one.
#[tactic(auto, using(crate::proofs::PlaceLemmas::abort_by_place))]
pub fn abort_exit(stack: &Stack, alloc: Global) -> Result<Leaving, NoMemory>
    ensures { IfOk result (λ exit. exit ≡ abort_exit stack.now.context) }
{
    let abort = Symbol::common_lisp(alloc, "ABORT")?;
    let Some(place) = find_restart(stack, &abort) else {
        return Ok(nothing_at(0));
    };
    match invoke(stack, alloc, place, Rows::new(alloc))? {
        Some(exit) => Ok(exit),
        None => Ok(nothing_at(0)),
    }
}
