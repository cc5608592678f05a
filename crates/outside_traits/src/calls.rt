ghost use Rattle.std.specs.Prelude.{◌≡◌, ◌≤◌, ◌↔◌, IsTrue, Contains};
ghost use Rattle.outside_traits.specs.Faults.{Rose, raised};

use crate::Failed;
use lisp_data::Rows;

/// The calls of a device in memory: the numbers of those that fail, counted from 1, how many were made, and how many failed.
#[derive(Drop)]
pub(crate) struct Calls {
    fail_at: Rows<u64>,
    made: u64,
    faults: u64,
}

impl Calls {
    pub(crate) fn new(fail_at: Rows<u64>) -> Calls
        ensures { result ≡ record { fail_at = fail_at; made = 0; faults = 0 } }
    {
        Calls {
            fail_at,
            made: 0,
            faults: 0,
        }
    }

    /// Counts a call, and says whether it is one that fails. It looks through the whole list of those.
    pub(crate) fn next_fails(&mut self) -> bool
        ensures listed { IsTrue result ↔ Contains self.old.fail_at (raised self.old.made) }
        ensures after { self.new ≡ record self.old { made = raised self.old.made } }
        ensures faults { self.new.faults ≡ self.old.faults }
    {
        self.made = self.made.saturating_add(1);
        self.fail_at.as_slice().contains(&self.made)
    }

    /// Counts a fault, and gives it.
    pub(crate) fn fault(&mut self) -> Failed
        ensures after { self.new ≡ record self.old { faults = raised self.old.faults } }
        ensures later { self.old.faults ≤ self.new.faults }
        ensures rose { Rose self.old.faults self.new.faults }
    {
        self.faults = self.faults.saturating_add(1);
        Failed
    }
}
