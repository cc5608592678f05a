ghost use Rattle.std.specs.Prelude.{◌≡◌, IfOk, drop, slice_get};
ghost use Rattle.std.specs.Option.{option_copied};
ghost use Rattle.lisp_acts.specs.Runs.{action_in, call_at, call_in, clause_at, clause_in, cluster_in, offer_in, plain_in, run_at};

use lisp_data::{Name, NoMemory, Rows, Value};
use lisp_sequences::copy_items;
use std::alloc::Global;
use syntax_trees::{Code, Forms};
use term_model::{Action, Bring, Cluster, Frame, Offer, Outcome, Plain};

/// What runs at the target of an exit.
#[derive(Drop)]
pub(crate) enum Runs {
    /// NIL is given.
    Nothing,
    Clause(Code),
    Gives(Outcome),
    Calls(Name, Rows<Value>),
}

fn outcome_of(alloc: Global, outcome: &Outcome) -> Result<Outcome, NoMemory>
    ensures { IfOk result (λ other. other ≡ outcome.now) }
{
    match outcome {
        Outcome::Value(value) => Ok(Outcome::Value(value.copy(alloc)?)),
        Outcome::Reply(reply) => Ok(Outcome::Reply(reply.copy(alloc)?)),
    }
}

/// The form at this place among others.
#[tactic(auto, using(crate::proofs::FormLemmas::gone_past, crate::proofs::FormLemmas::found_first))]
fn form_at(forms: &Forms, number: u64) -> Result<Option<Code>, NoMemory>
    ensures { IfOk result (λ form. form ≡ slice_get forms.now number) }
{
    let mut left = forms.share()?;
    let mut n = 0;
    'forms: while n < number {
        if left.is_empty() {
            return Ok(None);
        }
        left = left.rest();
        n += 1;
    }
    Ok(left.first()?)
}

fn clause_in(clause: Option<Code>) -> Runs
    ensures { result ≡ clause_in clause }
{
    match clause {
        None => Runs::Nothing,
        Some(clause) => Runs::Clause(clause),
    }
}

fn action_in(alloc: Global, action: &Action) -> Result<Runs, NoMemory>
    ensures { IfOk result (λ runs. runs ≡ action_in action.now) }
{
    match action {
        Action::Give(outcome) => Ok(Runs::Gives(outcome_of(alloc, outcome)?)),
        Action::Run(clause) => Ok(Runs::Clause(clause.share()?)),
    }
}

fn offer_in(alloc: Global, offer: Option<&Offer>) -> Result<Runs, NoMemory>
    ensures { IfOk result (λ runs. runs ≡ offer_in (option_copied offer.entry)) }
{
    match offer {
        None => Ok(Runs::Nothing),
        Some(offer) => action_in(alloc, &offer.action),
    }
}

fn cluster_in(cluster: &Cluster, number: u64) -> Result<Runs, NoMemory>
    ensures { IfOk result (λ runs. runs ≡ cluster_in cluster.now number) }
{
    match cluster {
        Cluster::Clauses(clauses) => Ok(clause_in(form_at(clauses, number)?)),
        Cluster::Ignoring | Cluster::Functions(_) => Ok(Runs::Nothing),
    }
}

fn plain_in(alloc: Global, layer: &Plain, number: u64) -> Result<Runs, NoMemory>
    ensures { IfOk result (λ runs. runs ≡ plain_in layer.now number) }
{
    match layer {
        Plain::Handlers(cluster) => cluster_in(cluster, number),
        Plain::Restarts(offers) => offer_in(alloc, offers.as_slice().get(number as usize)),
        _ => Ok(Runs::Nothing),
    }
}

/// The clause of this number that the target has.
fn clause_at(alloc: Global, target: Option<&Frame>, number: u64) -> Result<Runs, NoMemory>
    ensures { IfOk result (λ runs. runs ≡ clause_at (option_copied target.entry) number) }
{
    match target {
        Some(Frame::On(layer)) => plain_in(alloc, layer, number),
        _ => Ok(Runs::Nothing),
    }
}

fn call_in(alloc: Global, layer: &Plain) -> Result<Runs, NoMemory>
    ensures { IfOk result (λ runs. runs ≡ call_in layer.now) }
{
    match layer {
        Plain::Call {
            function,
            arguments,
        } => Ok(Runs::Calls(function.share()?, copy_items(alloc, arguments.as_slice())?)),
        _ => Ok(Runs::Nothing),
    }
}

/// The call that the target is.
fn call_at(alloc: Global, target: Option<&Frame>) -> Result<Runs, NoMemory>
    ensures { IfOk result (λ runs. runs ≡ call_at (option_copied target.entry)) }
{
    match target {
        Some(Frame::On(layer)) => call_in(alloc, layer),
        _ => Ok(Runs::Nothing),
    }
}

/// What an exit that brings this looks for at its target.
pub(crate) fn run_at(alloc: Global, bring: &Bring, target: Option<&Frame>) -> Result<Runs, NoMemory>
    ensures { IfOk result (λ runs. runs ≡ run_at bring.now (option_copied target.entry)) }
{
    match bring {
        Bring::Clause { number, .. } => clause_at(alloc, target, *number),
        Bring::Call => call_at(alloc, target),
        Bring::Value(_) | Bring::Reply(_) | Bring::Nothing => Ok(Runs::Nothing),
    }
}
