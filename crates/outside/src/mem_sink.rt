ghost use Rattle.std.specs.Prelude.{◌≡◌, ◌≤◌, [], Some, length, min, IfOk};
ghost use Rattle.causes.specs.Counts.{HasCause};
ghost use Rattle.outside.specs.Answers.{has_failed, IsFailed};
ghost use Rattle.outside.specs.Told.{Writes};
ghost use Rattle.outside.specs.Plan.{after_call, fails_next, fresh};

use crate::fault_plan::FaultPlan;
use crate::{DeviceFault, Sink};
use std::alloc::{AllocError, Global};
use std::marker::Model;

/// A sink in memory. It tells its bytes, takes at most a set number of bytes a write, and fails at
/// the writes that were asked for.
#[derive(Drop)]
pub struct MemSink {
    piece: usize,
    plan: FaultPlan,
    bytes: Vec<u8>,
}

impl Model for MemSink {
    ghost use Rattle.std.specs.Prelude.{◌≤◌};
    ghost use Rattle.outside.specs.Stock.{Collected};

    ghost Value = { Collected };

    ghost view = { λ s. record { piece = s.piece; plan = s.plan; bytes = s.bytes.items } };

    ghost invariant = { λ s. 1 ≤ s.piece };
}

impl MemSink {
    /// A sink with nothing written. A write takes at most `piece` bytes; the writes with the
    /// numbers in `failing`, counted from 1, fail.
    pub fn new(alloc: Global, piece: usize, failing: &[u64]) -> Result<MemSink, AllocError>
        requires { 1 ≤ piece }
        ensures { IfOk result (λ sink. sink ≡ record { piece = piece; plan = fresh failing.now; bytes = [] }) }
    {
        Ok(MemSink {
            piece,
            plan: FaultPlan::new(alloc, failing)?,
            bytes: Vec::new(alloc),
        })
    }

    /// What was written.
    pub fn bytes(&self) -> &[u8]
        ensures { result.now ≡ self.now.bytes }
    {
        &self.bytes
    }
}

impl Sink for MemSink {
    ghost written = { λ s. Some s.bytes };

    ghost faults = { λ s. s.plan.faults };

    ghost calm = { λ s. s.plan.failing ≡ [] };

    fn faults(&self) -> u64 {
        self.plan.faults()
    }

    fn write(&mut self, from: &[u8]) -> Result<usize, DeviceFault>
        ensures bytes { Writes (Some self.old.bytes) (Some self.new.bytes) result from.now }
        ensures cause { HasCause (has_failed result) self.old.plan.faults self.new.plan.faults }
        ensures calm { self.old.plan.failing ≡ [] → self.new.plan.failing ≡ [] }
        ensures calm_answers { self.old.plan.failing ≡ [] → IsFailed result → ⊥ }
        ensures listed { has_failed result ≡ fails_next self.old.plan }
        ensures amount { IfOk result (λ n. n ≡ min self.old.piece (length from.now)) }
        ensures plan { self.new.plan ≡ after_call self.old.plan }
        ensures piece { self.new.piece ≡ self.old.piece }
    {
        if self.plan.next_fails() {
            return Err(DeviceFault::Failed);
        }
        let count = self.piece.min(from.len());
        self.bytes.extend_from_slice(&from[..count])?;
        Ok(count)
    }

    /// It holds nothing back, and never fails here.
    fn flush(&mut self) -> Result<(), DeviceFault>
        ensures written { Some self.new.bytes ≡ Some self.old.bytes }
        ensures cause { HasCause (has_failed result) self.old.plan.faults self.new.plan.faults }
        ensures calm { self.old.plan.failing ≡ [] → self.new.plan.failing ≡ [] }
        ensures calm_answers { self.old.plan.failing ≡ [] → IsFailed result → ⊥ }
        ensures same { self.new ≡ self.old }
    {
        Ok(())
    }
}
