ghost use Rattle.std.specs.Prelude.{◌≡◌, ℕ, List};
ghost use Rattle.std.specs.declared.option.Option.{Option};
ghost use Rattle.causes.specs.Counts.{HasCause};
ghost use Rattle.outside.specs.Answers.{has_failed, IsFailed, IsMemory};
ghost use Rattle.outside.specs.Told.{Reads};

use crate::DeviceFault;

/// Bytes that are read in pieces, from the first to the last.
pub trait Source {
    /// The bytes that are left, where the source tells them.
    ghost left: { Self → Option (List ℕ) };

    /// How often the source failed.
    ghost faults: { Self → ℕ };

    /// The source tells that it never fails.
    ghost calm: { Self → Type 0 };

    /// The type of the other part.
    ghost Other: { Type 0 };

    /// The other part: what no read changes.
    ghost other: { Self → Other };

    /// How often the source failed, up to 2^64 - 1.
    fn faults(&self) -> u64
        ensures count { result ≡ faults self.now };

    /// Fills a front of `into` with the next bytes and answers how many. The answer 0 for a slice
    /// that is not empty is the end. Takes no memory.
    fn read(&mut self, into: &mut [u8]) -> Result<usize, DeviceFault>
        ensures bytes { Reads (left self.old) (left self.new) result into.new }
        ensures cause { HasCause (has_failed result) (faults self.old) (faults self.new) }
        ensures memory { IsMemory result → ⊥ }
        ensures calm { calm self.old → calm self.new }
        ensures calm_answers { calm self.old → IsFailed result → ⊥ }
        ensures other { other self.new ≡ other self.old };
}
