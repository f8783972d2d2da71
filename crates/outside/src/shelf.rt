ghost use Rattle.std.specs.Prelude.{◌≡◌, ◌≢◌, ℕ, ◌+◌, ◌^◌, ◌<◌, List, IfOk, OnOk, OnErr, IsSome, IsNone, IsTrue, Bool};
ghost use Rattle.std.specs.declared.option.Option.{Option};
ghost use Rattle.causes.specs.Counts.{HasCause};
ghost use Rattle.outside.specs.Answers.{has_failed, IsFailed, IsMemory};
ghost use Rattle.outside.specs.Told.{Reads};

use crate::DeviceFault;
use std::alloc::Global;

/// Named inputs, each read from its first byte as often as it is begun.
pub trait Shelf {
    /// Whether the shelf tells its bytes.
    ghost tells: { Self → Bool };

    /// The bytes of a name, where the shelf tells its bytes and holds the name.
    ghost bytes: { Self → List ℕ → Option (List ℕ) };

    /// How many calls of `begin` answered Ok.
    ghost begun: { Self → ℕ };

    /// What is left of the begun input with that number, where it is told.
    ghost left: { Self → ℕ → Option (List ℕ) };

    /// How often the shelf failed.
    ghost faults: { Self → ℕ };

    /// The shelf tells that it fails only at a `begin` of a name that it does not hold.
    ghost calm: { Self → Type 0 };

    /// How often the shelf failed, up to 2^64 - 1.
    fn faults(&self) -> u64
        ensures count { result ≡ faults self.now };

    /// Begins the input with that name at its first byte, and answers the number under which it is
    /// read: the number of earlier calls that answered Ok.
    fn begin(&mut self, alloc: Global, name: &str) -> Result<u32, DeviceFault>
        requires room { begun self.old < 2 ^ 32 }
        ensures number { IfOk result (λ id. id ≡ begun self.old) }
        ensures begun { OnOk result (begun self.new ≡ begun self.old + 1) }
        ensures held { OnOk result (IsTrue (tells self.old) → IsSome (bytes self.old name.now)) }
        ensures start { OnOk result (left self.new (begun self.old) ≡ bytes self.old name.now) }
        ensures others { (id : ℕ) → id < begun self.old → left self.new id ≡ left self.old id }
        ensures names { bytes self.new ≡ bytes self.old }
        ensures tells { tells self.new ≡ tells self.old }
        ensures refused { OnErr result (begun self.new ≡ begun self.old) }
        ensures cause { HasCause (has_failed result) (faults self.old) (faults self.new) }
        ensures calm { calm self.old → calm self.new }
        ensures calm_answers { calm self.old → IsFailed result → IsNone (bytes self.old name.now) };

    /// Fills a front of `into` with the next bytes of the begun input with that number, and answers
    /// how many. The answer 0 for a slice that is not empty is the end. Takes no memory.
    fn read(&mut self, id: u32, into: &mut [u8]) -> Result<usize, DeviceFault>
        requires known { id < begun self.old }
        ensures bytes { Reads (left self.old id) (left self.new id) result into.new }
        ensures others { (other : ℕ) → other ≢ id → left self.new other ≡ left self.old other }
        ensures names { bytes self.new ≡ bytes self.old }
        ensures tells { tells self.new ≡ tells self.old }
        ensures begun { begun self.new ≡ begun self.old }
        ensures memory { IsMemory result → ⊥ }
        ensures cause { HasCause (has_failed result) (faults self.old) (faults self.new) }
        ensures calm { calm self.old → calm self.new }
        ensures calm_answers { calm self.old → IsFailed result → ⊥ };
}
