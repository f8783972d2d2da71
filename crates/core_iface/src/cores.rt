ghost use Rattle.std.specs.Prelude.{◌≡◌, ◌-◌, ◌^◌, ◌<◌, false, [], None, IsSome};
ghost use Rattle.causes.specs.Counts.{HasCause};
ghost use Rattle.usac_cfg.specs.UsacConfig.{IsWellFormed};
ghost use Rattle.core_iface.specs.Decoding.{Definitions};
ghost use Rattle.core_iface.specs.Faults.{has_failed};
ghost use Rattle.core_iface.specs.Laws.{StaysSound, EmitsBlocks, WarmsUp};

use crate::fault::CoreFault;
use std::alloc::Global;
use usac_cfg::UsacConfig;
use usac_frame::Unit;

/// A decoder of units into samples.
///
/// A core is ready from a `reset` that answers Ok until a `flush`, or until a call refuses. A refusal
/// leaves the samples and the number of units fed as they were, and the core not ready: `Failed` where
/// the core's count of faults rose in the call, `Memory` where memory ran out. The trait is this
/// project's own: the standard says how audio is decoded, and names no such calls.
///
/// What a core does, it says in `does`; the three laws at the end are what every `does` has to keep.
/// `docs/DECODER.md` says why, and what they ask of a real decoder.
pub trait Core {
    ghost use Rattle.core_iface.specs.Answering.{Meaning, Answers, running, stepped, emitted, drained};

    /// What every core of this type does.
    ghost does: { Definitions };

    /// What is known of a core: the configuration and the state that it is ready with, its count
    /// of faults and the number of units that it was fed.
    ghost meaning: { Self → Meaning };

    /// A calm core fails only where it is reset to a configuration that it does not serve.
    ghost IsCalm: { Self → Type 0 };

    /// How many units, the first of them independent, have to be stepped before a unit so that its block does not depend on
    /// what was decoded before them.
    fn warm_up(&self, config: &UsacConfig) -> u32
        requires { IsWellFormed config.now }
        ensures { result ≡ does.warm config.now };

    /// How often this core failed. The count never falls, and stays at `u64::MAX`.
    fn faults(&self) -> u64
        ensures { result ≡ (meaning self.now).faults };

    /// How many units this core decoded, over all resets.
    fn fed(&self) -> u64
        ensures { result ≡ (meaning self.now).fed };

    /// Starts on a stream of the configuration, as if no unit had been before.
    fn reset(&mut self, alloc: Global, config: &UsacConfig) -> Result<(), CoreFault>
        requires { IsWellFormed config.now }
        ensures answers { Answers result (meaning self.old) (meaning self.new)
            (running config.now (does.init config.now)) 0 [] [] [] }
        ensures faults { HasCause (has_failed result) (meaning self.old).faults (meaning self.new).faults }
        ensures stays_calm { IsCalm self.old → IsCalm self.new }
        ensures calm_serves { IsCalm self.old → does.serves config.now → has_failed result ≡ false };

    /// Decodes a unit and appends its block: the samples of all channels, one time after another.
    fn step(&mut self, alloc: Global, unit: &Unit, out: &mut Vec<i16>) -> Result<(), CoreFault>
        requires ready { IsSome (meaning self.old).ready }
        requires fed { (meaning self.old).fed < 2 ^ 64 - 1 }
        ensures answers { Answers result (meaning self.old) (meaning self.new)
            (stepped does (meaning self.old).ready unit.now) 1
            out.old.items out.new.items (emitted does (meaning self.old).ready unit.now) }
        ensures faults { HasCause (has_failed result) (meaning self.old).faults (meaning self.new).faults }
        ensures stays_calm { IsCalm self.old → IsCalm self.new }
        ensures calm_never_fails { IsCalm self.old → has_failed result ≡ false };

    /// Appends the drain: the samples that are still to come behind the last unit. The core is not ready any more, whatever
    /// the answer.
    fn flush(&mut self, alloc: Global, out: &mut Vec<i16>) -> Result<(), CoreFault>
        requires { IsSome (meaning self.old).ready }
        ensures answers { Answers result (meaning self.old) (meaning self.new) None 0
            out.old.items out.new.items (drained does (meaning self.old).ready) }
        ensures faults { HasCause (has_failed result) (meaning self.old).faults (meaning self.new).faults }
        ensures stays_calm { IsCalm self.old → IsCalm self.new }
        ensures calm_never_fails { IsCalm self.old → has_failed result ≡ false };

    // The laws: facts on `does`, below the last `fn`.

    /// Soundness: the states that occur are sound.
    ghost stays_sound: { StaysSound does };

    /// Shape: a block has the samples of a frame, and the drain has 128 for each channel.
    ghost emits_blocks: { EmitsBlocks does };

    /// Warm-up: behind it neither a block nor the drain depends on what was before.
    ghost warms_up: { WarmsUp does };
}
