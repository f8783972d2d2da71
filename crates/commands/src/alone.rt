// A command without an input.
ghost use Rattle.std.specs.Prelude.{◌≡◌, ◌≢◌, ◌≤◌, ◌^◌, ℕ, [], false};
ghost use Rattle.core_iface.specs.Decoding.{Definitions};
ghost use Rattle.commands.specs.Causes.{Caused};
ghost use Rattle.commands.specs.Worlds.{world};
ghost use Rattle.commands.specs.Calling.{Called};
ghost use Rattle.commands.specs.OnNone.{NoInput, on_none};

use crate::outcome::Outcome;
use core_iface::Core;
use outside::{Shelf, Sink};
use std::alloc::Global;

/// What a command does without an input.
pub trait Alone {
    /// What it does, over a core of which this is known.
    ghost does: { Self → Definitions → NoInput };

    /// Runs to its end, or to the first event that stops it.
    fn run<K: Sink, C: Core>(&mut self, alloc: Global, out: &mut K, core: &mut C) -> Outcome
        requires { (C.meaning core.old).fed ≤ 2 ^ 63 }
        ensures does { (does self.old C.does).Ends
            (record {
              written_before = K.written out.old;
              written_after = K.written out.new;
              fed_before = (C.meaning core.old).fed;
              fed_after = (C.meaning core.new).fed;
            }) result }
        ensures caused { (shelf : ℕ) → Caused
            (record { shelf = shelf; out = K.faults out.old; core = (C.meaning core.old).faults })
            (record { shelf = shelf; out = K.faults out.new; core = (C.meaning core.new).faults }) result }
        ensures calm_out { K.calm out.old → K.calm out.new }
        ensures calm_core { C.IsCalm core.old → C.IsCalm core.new }
        ensures no_read { result ≢ Outcome.ReadFault }
        ensures calm_writes { K.calm out.old → result ≢ Outcome.WriteFault }
        ensures calm_decodes { (does self.old C.does).Serves → C.IsCalm core.old → result ≢ Outcome.CoreFault }
        ensures untouched { (does self.old C.does).plays ≡ false → core.new ≡ core.old }
        ensures no_core { (does self.old C.does).plays ≡ false → result ≢ Outcome.CoreFault };
}

/// Runs a command without an input. The shelf is left as it was.
pub fn run_none<A: Alone, H: Shelf, K: Sink, C: Core>(
    alloc: Global,
    alone: &mut A,
    shelf: &mut H,
    out: &mut K,
    core: &mut C,
) -> Outcome
    requires { (C.meaning core.old).fed ≤ 2 ^ 63 }
    ensures { Called (on_none (A.does alone.old C.does)) []
        (world H.Shelf K.Sink C.Core shelf.old out.old core.old) (world H.Shelf K.Sink C.Core shelf.new out.new core.new) result }
{
    let _ = shelf;
    alone.run(alloc, out, core)
}
