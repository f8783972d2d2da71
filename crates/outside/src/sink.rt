ghost use Rattle.std.specs.Prelude.{◌≡◌, ℕ, List};
ghost use Rattle.std.specs.declared.option.Option.{Option};
ghost use Rattle.causes.specs.Counts.{HasCause};
ghost use Rattle.outside.specs.Answers.{has_failed, IsFailed};
ghost use Rattle.outside.specs.Told.{Writes};

use crate::DeviceFault;

/// Takes bytes in pieces.
pub trait Sink {
    /// All the bytes that were written, where the sink tells them.
    ghost written: { Self → Option (List ℕ) };

    /// How often the sink failed.
    ghost faults: { Self → ℕ };

    /// The sink tells that it never fails.
    ghost calm: { Self → Type 0 };

    /// How often the sink failed, up to 2^64 - 1.
    fn faults(&self) -> u64
        ensures count { result ≡ faults self.now };

    /// Takes a front of `from` and answers its length, which is 0 only for an empty slice: a sink
    /// that can take nothing answers `Failed`.
    fn write(&mut self, from: &[u8]) -> Result<usize, DeviceFault>
        ensures bytes { Writes (written self.old) (written self.new) result from.now }
        ensures cause { HasCause (has_failed result) (faults self.old) (faults self.new) }
        ensures calm { calm self.old → calm self.new }
        ensures calm_answers { calm self.old → IsFailed result → ⊥ };

    /// Hands on what the sink holds back of the bytes that it took.
    fn flush(&mut self) -> Result<(), DeviceFault>
        ensures written { written self.new ≡ written self.old }
        ensures cause { HasCause (has_failed result) (faults self.old) (faults self.new) }
        ensures calm { calm self.old → calm self.new }
        ensures calm_answers { calm self.old → IsFailed result → ⊥ };
}
