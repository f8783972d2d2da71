ghost use Rattle.std.specs.Prelude.{◌≡◌, ◌≢◌, ℕ, ◌<◌, ◌≤◌, ◌+◌, ◌^◌, ◌++◌, ◌∷◌, ◌↔◌, [], List, Bool, Some, true, length, min, set, IfOk, OnOk, OnErr, IsSome, IsNone, IsTrue, MatchResult};
ghost use Rattle.std.specs.declared.option.Option.{Option};
ghost use Rattle.causes.specs.Counts.{HasCause};
ghost use Rattle.outside.specs.Answers.{has_failed, IsFailed, IsMemory};
ghost use Rattle.outside.specs.Told.{Reads};
ghost use Rattle.outside.specs.Plan.{after_call, fails_next, fresh};
ghost use Rattle.outside.specs.Stock.{advanced, bytes_of, input_at};
ghost use Rattle.outside.specs.Begins.{AfterBegin};

use crate::fault_plan::FaultPlan;
use crate::held::{NamedBytes, find_bytes};
use crate::opened::Opened;
use crate::{DeviceFault, Shelf};
use std::alloc::{AllocError, Global};
use std::marker::Model;

/// A shelf in memory. It tells its bytes, gives at most a set number of bytes a read, and fails at
/// the reads that were asked for.
#[derive(Drop)]
pub struct MemShelf {
    piece: usize,
    plan: FaultPlan,
    held: Vec<NamedBytes>,
    begun: Vec<Opened>,
}

impl Model for MemShelf {
    ghost use Rattle.std.specs.Prelude.{◌≤◌};
    ghost use Rattle.outside.specs.Stock.{Stock};

    ghost Value = { Stock };

    ghost view = { λ s. record { piece = s.piece; plan = s.plan; held = s.held.items; begun = s.begun.items } };

    ghost invariant = { λ s. 1 ≤ s.piece };
}

impl MemShelf {
    /// A shelf that holds no names. A read gives at most `piece` bytes; the reads with the numbers
    /// in `failing` fail, where all reads of the shelf are counted together, from 1.
    pub fn new(alloc: Global, piece: usize, failing: &[u64]) -> Result<MemShelf, AllocError>
        requires { 1 ≤ piece }
        ensures { IfOk result (λ shelf. shelf ≡ record { piece = piece; plan = fresh failing.now; held = []; begun = [] }) }
    {
        Ok(MemShelf {
            piece,
            plan: FaultPlan::new(alloc, failing)?,
            held: Vec::new(alloc),
            begun: Vec::new(alloc),
        })
    }

    /// Holds a copy of `bytes` under that name, which was not held before. Takes memory as the
    /// shelf's lists do, from the allocator that the shelf was made with.
    #[tactic(auto, using(crate::proofs::Holding::holding))]
    pub fn add(&mut self, name: &str, bytes: &[u8]) -> Result<(), AllocError>
        requires { IsNone (bytes_of self.old.held name.now) }
        ensures held { OnOk result (bytes_of self.new.held name.now ≡ Some bytes.now) }
        ensures others { OnOk result ((other : List ℕ) → other ≢ name.now → bytes_of self.new.held other ≡ bytes_of self.old.held other) }
        ensures kept { (self.new.piece ≡ self.old.piece) × (self.new.plan ≡ self.old.plan) × (self.new.begun ≡ self.old.begun) }
        ensures refused { OnErr result (self.new ≡ self.old) }
    {
        let one = NamedBytes::copy_of(*self.held.allocator(), name, bytes)?;
        self.held.push(one)?;
        Ok(())
    }

    /// How many bytes the reads of the begun input with that number gave.
    pub fn taken(&self, id: u32) -> u64
        requires { id < length self.now.begun }
        ensures { result ≡ (input_at self.now.begun id).given }
    {
        self.begun[id as usize].given()
    }
}

#[tactic(auto, using(crate::proofs::Giving::giving))]
impl Shelf for MemShelf {
    ghost tells = { λ _. true };

    ghost bytes = { λ s name. bytes_of s.held name };

    ghost begun = { λ s. length s.begun };

    ghost left = { λ s id. Some (input_at s.begun id).left };

    ghost faults = { λ s. s.plan.faults };

    ghost calm = { λ s. s.plan.failing ≡ [] };

    fn faults(&self) -> u64 {
        self.plan.faults()
    }

    fn begin(&mut self, alloc: Global, name: &str) -> Result<u32, DeviceFault>
        requires room { length self.old.begun < 2 ^ 32 }
        ensures number { IfOk result (λ id. id ≡ length self.old.begun) }
        ensures begun { OnOk result (length self.new.begun ≡ length self.old.begun + 1) }
        ensures held { OnOk result (IsSome (bytes_of self.old.held name.now)) }
        ensures start { OnOk result (Some (input_at self.new.begun (length self.old.begun)).left ≡ bytes_of self.old.held name.now) }
        ensures others { (id : ℕ) → id < length self.old.begun → input_at self.new.begun id ≡ input_at self.old.begun id }
        ensures names { bytes_of self.new.held ≡ bytes_of self.old.held }
        ensures refused { OnErr result (length self.new.begun ≡ length self.old.begun) }
        ensures cause { HasCause (has_failed result) self.old.plan.faults self.new.plan.faults }
        ensures calm { self.old.plan.failing ≡ [] → self.new.plan.failing ≡ [] }
        ensures calm_answers { self.old.plan.failing ≡ [] → IsFailed result → IsNone (bytes_of self.old.held name.now) }
        ensures unheld { IsNone (bytes_of self.old.held name.now) ↔ IsFailed result }
        ensures after { AfterBegin self.old name.now self.new result }
    {
        let Some(bytes) = find_bytes(&self.held, name) else {
            self.plan.refuse();
            return Err(DeviceFault::Failed);
        };
        let bytes = bytes.to_vec(alloc)?;
        let id = self.begun.len() as u32;
        if self.begun.push(Opened::new(bytes)).is_err() {
            return Err(DeviceFault::Memory(AllocError));
        }
        Ok(id)
    }

    fn read(&mut self, id: u32, into: &mut [u8]) -> Result<usize, DeviceFault>
        requires known { id < length self.old.begun }
        ensures bytes { Reads (Some (input_at self.old.begun id).left) (Some (input_at self.new.begun id).left) result into.new }
        ensures others { (other : ℕ) → other ≢ id → input_at self.new.begun other ≡ input_at self.old.begun other }
        ensures names { bytes_of self.new.held ≡ bytes_of self.old.held }
        ensures begun { length self.new.begun ≡ length self.old.begun }
        ensures memory { IsMemory result → ⊥ }
        ensures cause { HasCause (has_failed result) self.old.plan.faults self.new.plan.faults }
        ensures calm { self.old.plan.failing ≡ [] → self.new.plan.failing ≡ [] }
        ensures calm_answers { self.old.plan.failing ≡ [] → IsFailed result → ⊥ }
        ensures listed { has_failed result ≡ fails_next self.old.plan }
        ensures amount { IfOk result (λ n. n ≡ min (min self.old.piece (length (input_at self.old.begun id).left)) (length into.new)) }
        ensures plan { self.new.plan ≡ after_call self.old.plan }
        ensures inputs { MatchResult result (λ n. self.new.begun ≡ set self.old.begun id (advanced n (input_at self.old.begun id))) (λ _. self.new.begun ≡ self.old.begun) }
        ensures kept { (self.new.piece ≡ self.old.piece) × (self.new.held ≡ self.old.held) }
    {
        if self.plan.next_fails() {
            return Err(DeviceFault::Failed);
        }
        Ok(self.begun[id as usize].give(self.piece, into))
    }
}
