ghost use Rattle.std.specs.Prelude.{◌≡◌, [], true, IfOk, IsFalse};
ghost use Rattle.causes.specs.Counts.{HasCause};
ghost use Rattle.outside.specs.Plan.{after_call, fails_next, fresh, refused};

use causes::raised;
use std::alloc::{AllocError, Global};
use std::marker::Model;

/// Which calls of a device in memory fail, with its counts of calls and of faults.
#[derive(Drop)]
pub struct FaultPlan {
    failing: Vec<u64>,
    calls: u64,
    faults: u64,
}

impl Model for FaultPlan {
    ghost use Rattle.outside.specs.Plan.{Plan};

    ghost Value = { Plan };

    ghost view = { λ p. record { failing = p.failing.items; calls = p.calls; faults = p.faults } };
}

impl FaultPlan {
    /// No call yet; the calls with these numbers, counted from 1, will fail.
    pub fn new(alloc: Global, failing: &[u64]) -> Result<FaultPlan, AllocError>
        ensures { IfOk result (λ plan. plan ≡ fresh failing.now) }
    {
        Ok(FaultPlan {
            failing: failing.to_vec(alloc)?,
            calls: 0,
            faults: 0,
        })
    }

    /// How often the device failed.
    pub fn faults(&self) -> u64
        ensures { result ≡ self.now.faults }
    {
        self.faults
    }

    /// Counts the next call, and answers whether it fails.
    pub fn next_fails(&mut self) -> bool
        ensures fails { result ≡ fails_next self.old }
        ensures plan { self.new ≡ after_call self.old }
        ensures cause { HasCause result self.old.faults self.new.faults }
        ensures calm { self.old.failing ≡ [] → IsFalse result }
    {
        self.calls = self.calls.saturating_add(1);
        let fails = self.failing.contains(&self.calls);
        if fails {
            self.faults = raised(self.faults);
        }
        fails
    }

    /// Counts one fault that is none of the numbered calls.
    pub fn refuse(&mut self)
        ensures plan { self.new ≡ refused self.old }
        ensures cause { HasCause true self.old.faults self.new.faults }
    {
        self.faults = raised(self.faults);
    }
}
