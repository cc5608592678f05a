ghost use Rattle.std.specs.Prelude.{◌≡◌, ◌<◌, ℕ, reverse, OnOk};
ghost use Rattle.session_model.specs.Arriving.{workers_after, workers_without};
ghost use Rattle.swank_core.specs.Workers.{AreDistinct, AreWorkers};

use crate::burst::REPL;
use lisp_data::NoMemory;

/// Takes a worker out of the live ones, which stand in the order of their last requests, the last at the end.
pub fn remove_worker(workers: &mut Vec<u64>, t: u64)
    ensures { reverse workers.new.items ≡ workers_without t (reverse workers.old.items) }
{
    workers.retain(|worker| *worker != t);
}

/// A request was routed to a live thread.
pub fn route(workers: &mut Vec<u64>, t: u64) -> Result<(), NoMemory>
    requires distinct { AreDistinct (reverse workers.old.items) }
    ensures ok { OnOk result (reverse workers.new.items ≡ workers_after t (reverse workers.old.items)) }
    ensures kept { (n : ℕ) → t < n → AreWorkers n (reverse workers.old.items) → AreWorkers n (reverse workers.new.items) }
{
    if t == REPL || workers.last() == Some(&t) {
        return Ok(());
    }
    workers.reserve(1)?;
    remove_worker(workers, t);
    workers.push(t)?;
    Ok(())
}
