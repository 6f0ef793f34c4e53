//! Calls that fail by a list.
ghost use Rattle.std.specs.Prelude.{◌≡◌, ◌≤◌, ◌↔◌, IsTrue, Contains};
ghost use Rattle.leda_edge.specs.Causes.{one_more};

use crate::source::Failed;
use std::marker::Model;

/// Counts the calls on an object in memory, and knows which of them are to fail.
#[derive(Drop)]
pub struct CallPlan {
    fails: Vec<u64>,
    made: u64,
    faults: u64,
}

impl Model for CallPlan {
    ghost use Rattle.leda_edge.specs.Memory.{Calls};

    ghost Value = { Calls };

    ghost view = { λ plan. record {
      fails = plan.fails.items;
      made = plan.made;
      faults = plan.faults;
    } };
}

impl CallPlan {
    /// No call was made. The calls with these numbers are to fail, and the first call has the
    /// number 1.
    pub fn new(fails: Vec<u64>) -> Self
        ensures { result ≡ record { fails = fails.items; made = 0; faults = 0 } }
    {
        CallPlan {
            fails,
            made: 0,
            faults: 0,
        }
    }

    /// Counts a call, and says whether it is to fail. The count stands still at the last value of a
    /// u64.
    pub fn begin(&mut self) -> bool
        ensures listed { IsTrue result ↔ Contains self.old.fails self.new.made }
        ensures after { self.new ≡ record self.old { made = one_more self.old.made } }
    {
        self.made = self.made.saturating_add(1);
        self.fails.contains(&self.made)
    }

    /// Counts a fault.
    pub fn fail(&mut self) -> Failed
        ensures after { self.new ≡ record self.old { faults = one_more self.old.faults } }
        ensures later { self.old.faults ≤ self.new.faults }
    {
        self.faults = self.faults.saturating_add(1);
        Failed
    }
}
