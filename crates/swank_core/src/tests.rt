//! Sessions of a message each, run by hand.
ghost use Rattle.std.specs.Prelude.{◌≡◌, ◌≤◌, false, IfOk};
ghost use Rattle.session_model.specs.Legal.{IsSmallName, MayArrive, max_burst};
ghost use Rattle.swank_core.specs.Session.{world};

use crate::{Core, Entry, Event, Limits};
use lisp_data::{NoMemory, Rows, Sexp, Text};
use lisp_image::Image;
use rpc_messages::{FromEmacs, Returned, ThreadName, ToEmacs};
use std::alloc::Global;
use std::test::Fail;

/// The request to evaluate `5` in this thread.
fn request(alloc: Global, thread: ThreadName) -> Result<FromEmacs, NoMemory>
    requires { IsSmallName thread }
    ensures { IfOk result (λ m. MayArrive m) }
{
    let mut items = Rows::new(alloc);
    items.push(Sexp::Sym(Text::of(alloc, "swank:interactive-eval")?))?;
    items.push(Sexp::Str(Text::of(alloc, "5")?))?;
    Ok(FromEmacs::Rex {
        form: Sexp::List(items),
        package: None,
        thread,
        id: 7,
    })
}

/// A session over a fresh image.
fn session(alloc: Global) -> Result<Core, NoMemory>
    ensures whole { IfOk result (λ core. core.failed ≡ false) }
    ensures open { IfOk result (λ core. (world core).ended ≡ false) }
{
    let image = Image::new(alloc)?;
    let limits = Limits {
        steps: 1000,
        journal: 100,
    };
    match Core::open(alloc, image, &limits) {
        Err(_) => Err(NoMemory),
        Ok(core) => Ok(core),
    }
}

/// Whether the only output is the reply to the request.
fn is_reply(outs: &Rows<ToEmacs>) -> bool {
    matches!(
        outs.as_slice(),
        [ToEmacs::Return {
            id: 7,
            result: Returned::Ok(_)
        }]
    )
}

/// Makes a burst of a thread that is ready, and gives the number of its steps.
fn burst(core: &mut Core, t: u64, max: u64) -> u64
    requires whole { core.old.failed ≡ false }
    requires some { 1 ≤ max }
    requires most { max ≤ max_burst }
{
    if !core.ready(t) {
        return 0;
    }
    match core.lend(0, t) {
        Err(_) => 0,
        Ok(loan) => core.commit(0, loan, max).unwrap_or(0),
    }
}

/// Whether a message makes the thread of this number write one reply, in a burst of some steps, and leaves the session quiet.
fn answers(core: &mut Core, m: FromEmacs, t: u64) -> bool
    requires whole { core.old.failed ≡ false }
    requires open { (world core.old).ended ≡ false }
    requires may { MayArrive m }
{
    if core.arrive(0, m).is_err() || core.next_ready(0) != Some(t) {
        return false;
    }
    let steps = burst(core, t, 256);
    if core.failed() || core.undrained() == 0 {
        return false;
    }
    let outs = core.drain(0);
    is_reply(&outs)
        && steps > 0
        && core.steps() == steps
        && core.quiet()
        && core.journal().len() == 4
}

#[test]
fn a_request_is_answered(rt: HostRuntime) -> Result<(), Fail> {
    let alloc = rt.alloc();
    let m = request(alloc, ThreadName::Repl)?;
    let mut core = session(alloc)?;
    let answered = answers(&mut core, m, 1);
    assert!(rt; answered);
    Ok(())
}

#[test]
fn a_worker_ends_with_its_reply(rt: HostRuntime) -> Result<(), Fail> {
    let alloc = rt.alloc();
    let m = request(alloc, ThreadName::New)?;
    let mut core = session(alloc)?;
    let answered = answers(&mut core, m, 2) && core.next_ready(0).is_none() && core.lent() == 0;
    assert!(rt; answered);
    Ok(())
}

/// Whether the REPL's thread, which has taken this request, answers it though an interrupt comes for the thread.
fn goes_on(core: &mut Core, m: FromEmacs) -> bool
    requires whole { core.old.failed ≡ false }
    requires open { (world core.old).ended ≡ false }
    requires may { MayArrive m }
{
    if core.arrive(0, m).is_err() || burst(core, 1, 1) != 1 || core.failed() || core.ended() {
        return false;
    }
    let interrupt = FromEmacs::Interrupt {
        thread: ThreadName::Repl,
    };
    if core.arrive(0, interrupt).is_err() || burst(core, 1, 256) == 0 {
        return false;
    }
    if core.failed() || core.undrained() == 0 {
        return false;
    }
    let outs = core.drain(0);
    is_reply(&outs) && core.quiet()
}

#[test]
fn an_interrupt_of_a_live_thread_is_dropped(rt: HostRuntime) -> Result<(), Fail> {
    let alloc = rt.alloc();
    let m = request(alloc, ThreadName::Repl)?;
    let mut core = session(alloc)?;
    let answered = goes_on(&mut core, m);
    assert!(rt; answered);
    Ok(())
}

/// Whether the end of the input is noted, and then the session is stopped.
fn stops(core: &mut Core) -> bool
    requires open { (world core.old).ended ≡ false }
{
    let before = core.ended() || core.closed();
    if core.end_input(3).is_err() {
        return false;
    }
    core.halt();
    let first = matches!(
        core.journal().entry(0),
        Some(Entry {
            seat: 3,
            event: Event::End
        })
    );
    !before && core.ended() && core.closed() && core.steps_after_end() == 0 && first
}

#[test]
fn the_input_ends_and_the_session_is_stopped(rt: HostRuntime) -> Result<(), Fail> {
    let alloc = rt.alloc();
    let mut core = session(alloc)?;
    let stopped = stops(&mut core);
    assert!(rt; stopped);
    Ok(())
}
