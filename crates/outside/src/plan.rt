//! Which calls of an object in memory fail.
ghost use Rattle.std.specs.Prelude.{◌≡◌, ◌≤◌};
ghost use Rattle.outside.specs.Plans.{after_call, call_counted, fails_next, fault_counted, plan_of};

use std::marker::Model;

/// Which calls fail, by their numbers from 1, and how many calls and faults there were. Both counts stay at 2^64 - 1.
#[derive(Debug, Drop)]
pub struct FaultPlan {
    failing: Vec<u64>,
    calls: u64,
    faults: u64,
}

impl Model for FaultPlan {
    ghost use Rattle.outside.specs.Plans.{PlanState};

    ghost Value = { PlanState };

    ghost view = { λ plan. record { failing = plan.failing.items; calls = plan.calls; faults = plan.faults } };
}

impl FaultPlan {
    /// The calls with these numbers fail. No call was made yet.
    pub fn new(failing: Vec<u64>) -> Self
        ensures { result ≡ plan_of failing.items }
    {
        FaultPlan {
            failing,
            calls: 0,
            faults: 0,
        }
    }

    /// The number of calls so far, those that failed among them.
    pub fn calls(&self) -> u64
        ensures { result ≡ self.now.calls }
    {
        self.calls
    }

    /// Counts a call, says whether it is one that fails, and counts the fault where it is.
    pub fn fails(&mut self) -> bool
        ensures answer { result ≡ fails_next self.old }
        ensures counted { self.new ≡ after_call self.old }
        ensures no_fall { self.old.faults ≤ self.new.faults }
    {
        if self.call() {
            self.fault();
            return true;
        }
        false
    }

    /// Counts a call, and says whether it is one that fails; the fault is not counted yet.
    pub fn call(&mut self) -> bool
        ensures answer { result ≡ fails_next self.old }
        ensures counted { self.new ≡ call_counted self.old }
    {
        self.calls = self.calls.saturating_add(1);
        self.failing.contains(&self.calls)
    }

    /// Counts a fault.
    pub fn fault(&mut self)
        ensures counted { self.new ≡ fault_counted self.old }
        ensures no_fall { self.old.faults ≤ self.new.faults }
    {
        self.faults = self.faults.saturating_add(1);
    }
}
