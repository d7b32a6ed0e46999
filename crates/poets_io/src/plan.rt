//! Calls that fail by plan.
ghost use Rattle.std.specs.Prelude.{◌≡◌, ◌≤◌, ◌↔◌, IsTrue};
ghost use Rattle.poets_io.specs.Causes.{counted};
ghost use Rattle.poets_io.specs.States.{NextFails, new_plan, after_call};

use poets_value::List;
use std::marker::Model;

/// The numbers of the calls that fail, from 1, and how many calls and faults there were.
#[derive(Drop)]
pub(crate) struct Plan {
    fails: List<u64>,
    calls: u64,
    faults: u64,
}

impl Model for Plan {
    ghost use Rattle.poets_io.specs.States.{CallPlan};

    ghost Value = { CallPlan };

    ghost view = { λ p. record { fails = p.fails.items; calls = p.calls; faults = p.faults } };
}

impl Plan {
    /// The plan before the first call.
    pub(crate) fn new(fails: List<u64>) -> Plan
        ensures { result ≡ new_plan fails.items }
    {
        Plan {
            fails,
            calls: 0,
            faults: 0,
        }
    }

    /// Counts a call, and says whether it is one that fails.
    pub(crate) fn next_fails(&mut self) -> bool
        ensures fails { IsTrue result ↔ NextFails self.old }
        ensures after { self.new ≡ after_call self.old }
    {
        let fails = self.fails.as_slice();
        match self.calls.checked_add(1) {
            Some(number) => {
                let found = fails.contains(&number);
                self.calls = number;
                found
            }
            // The number of this call is past every number that a list can hold.
            None => false,
        }
    }

    /// Counts a fault.
    pub(crate) fn count_fault(&mut self)
        ensures after { self.new ≡ record self.old { faults = counted self.old.faults } }
        ensures later { self.old.faults ≤ self.new.faults }
    {
        self.faults = self.faults.saturating_add(1);
    }
}
