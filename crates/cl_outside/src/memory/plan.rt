//! `Plan`: which calls are to fail.

ghost use Rattle.std.specs.Prelude.{◌≡◌};
ghost use Rattle.cl_outside.specs.Plan.{CallPlan, fails_next, after_call};

use std::marker::Model;

// The numbers of the calls that are to fail, from 1, and how many calls there were. The number of
// a call stays at its type's end.
#[derive(Drop)]
pub struct Plan {
    fails: Vec<u64>,
    calls: u64,
}

impl Model for Plan {
    ghost Value = { CallPlan };

    ghost view = { λ plan. record { fails = plan.fails.items; calls = plan.calls } };
}

impl Plan {
    pub fn create(fails: Vec<u64>) -> Plan
        ensures { result ≡ record { fails = fails.items; calls = 0 } }
    {
        Plan { fails, calls: 0 }
    }

    /// Counts one more call, and tells whether it is to fail.
    pub fn next_fails(&mut self) -> bool
        ensures fails { result ≡ fails_next self.old }
        ensures counted { self.new ≡ after_call self.old }
    {
        self.calls = self.calls.saturating_add(1);
        self.fails.contains(&self.calls)
    }
}
