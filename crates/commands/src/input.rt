// A command on one input.
ghost use Rattle.std.specs.Prelude.{◌≡◌, ◌≢◌, ◌<◌, ◌≤◌, ◌^◌, ℕ, List, [], ◌∷◌, Option, false, Some};
ghost use Rattle.outside.specs.Other.{all_but};
ghost use Rattle.core_iface.specs.Decoding.{Definitions};
ghost use Rattle.core_iface.specs.Answering.{Running};
ghost use Rattle.commands.specs.Causes.{Caused};
ghost use Rattle.commands.specs.Doing.{DoesSource};
ghost use Rattle.commands.specs.Worlds.{world};
ghost use Rattle.commands.specs.Calling.{Called};
ghost use Rattle.commands.specs.OnInput.{OneInput, on_input};

use crate::outcome::Outcome;
use core_iface::Core;
use outside::{DeviceFault, FromShelf, Shelf, Sink, Source};
use std::alloc::Global;

/// What a command does with its one input.
pub trait Input {
    /// What it does, by the bytes of the input, over a core of which this is known.
    ghost does: { Self → Definitions → OneInput };

    /// It can be run over a core that is ready so.
    ghost IsReady: { Definitions → Self → Option Running → Type 0 };

    /// Runs on a source, to its end or to the first event that stops it.
    fn run<S: Source, K: Sink, C: Core>(
        &mut self,
        alloc: Global,
        source: &mut S,
        out: &mut K,
        core: &mut C,
    ) -> Outcome
        requires fed { (C.meaning core.old).fed ≤ 2 ^ 63 }
        requires ready { IsReady C.does self.old (C.meaning core.old).ready }
        ensures does { DoesSource (does self.old C.does).Ends (S.left source.old) (S.left source.new)
            (record {
              written_before = K.written out.old;
              written_after = K.written out.new;
              fed_before = (C.meaning core.old).fed;
              fed_after = (C.meaning core.new).fed;
            }) result }
        ensures caused { Caused
            (record { shelf = S.faults source.old; out = K.faults out.old; core = (C.meaning core.old).faults })
            (record { shelf = S.faults source.new; out = K.faults out.new; core = (C.meaning core.new).faults }) result }
        ensures other { S.other source.new ≡ S.other source.old }
        ensures calm_source { S.calm source.old → S.calm source.new }
        ensures calm_out { K.calm out.old → K.calm out.new }
        ensures calm_core { C.IsCalm core.old → C.IsCalm core.new }
        ensures calm_reads { S.calm source.old → result ≢ Outcome.ReadFault }
        ensures calm_writes { K.calm out.old → result ≢ Outcome.WriteFault }
        ensures calm_decodes { (text : List ℕ) → S.left source.old ≡ Some text → (does self.old C.does).Serves text → C.IsCalm core.old → result ≢ Outcome.CoreFault }
        ensures untouched { (does self.old C.does).plays ≡ false → core.new ≡ core.old }
        ensures no_core { (does self.old C.does).plays ≡ false → result ≢ Outcome.CoreFault };
}

/// Runs on the input of a shelf with that number.
fn run_begun<I: Input, H: Shelf, K: Sink, C: Core>(
    alloc: Global,
    input: &mut I,
    shelf: &mut H,
    id: u32,
    out: &mut K,
    core: &mut C,
) -> Outcome
    requires begun { id < H.begun shelf.old }
    requires ready { I.IsReady C.does input.old (C.meaning core.old).ready }
    requires fed { (C.meaning core.old).fed ≤ 2 ^ 63 }
    ensures does { DoesSource (I.does input.old C.does).Ends (H.left shelf.old id) (H.left shelf.new id)
        (record {
          written_before = K.written out.old;
          written_after = K.written out.new;
          fed_before = (C.meaning core.old).fed;
          fed_after = (C.meaning core.new).fed;
        }) result }
    ensures caused { Caused
        (record { shelf = H.faults shelf.old; out = K.faults out.old; core = (C.meaning core.old).faults })
        (record { shelf = H.faults shelf.new; out = K.faults out.new; core = (C.meaning core.new).faults }) result }
    ensures begun { H.begun shelf.new ≡ H.begun shelf.old }
    ensures names { H.bytes shelf.new ≡ H.bytes shelf.old }
    ensures tells { H.tells shelf.new ≡ H.tells shelf.old }
    ensures others { all_but id (H.left shelf.new) ≡ all_but id (H.left shelf.old) }
    ensures calm_shelf { H.calm shelf.old → H.calm shelf.new }
    ensures calm_out { K.calm out.old → K.calm out.new }
    ensures calm_core { C.IsCalm core.old → C.IsCalm core.new }
    ensures calm_reads { H.calm shelf.old → result ≢ Outcome.ReadFault }
    ensures calm_writes { K.calm out.old → result ≢ Outcome.WriteFault }
    ensures calm_decodes { (text : List ℕ) → H.left shelf.old id ≡ Some text → (I.does input.old C.does).Serves text → C.IsCalm core.old → result ≢ Outcome.CoreFault }
    ensures untouched { (I.does input.old C.does).plays ≡ false → core.new ≡ core.old }
    ensures no_core { (I.does input.old C.does).plays ≡ false → result ≢ Outcome.CoreFault }
{
    let mut source = FromShelf::new(shelf, id);
    input.run(alloc, &mut source, out, core)
}

/// Runs on the input with that name.
pub fn run_file<I: Input, H: Shelf, K: Sink, C: Core>(
    alloc: Global,
    input: &mut I,
    name: &str,
    shelf: &mut H,
    out: &mut K,
    core: &mut C,
) -> Outcome
    requires begun { H.begun shelf.old ≤ 2 ^ 31 }
    requires ready { I.IsReady C.does input.old (C.meaning core.old).ready }
    requires fed { (C.meaning core.old).fed ≤ 2 ^ 63 }
    ensures { Called (on_input (I.does input.old C.does)) (name.now ∷ [])
        (world H.Shelf K.Sink C.Core shelf.old out.old core.old) (world H.Shelf K.Sink C.Core shelf.new out.new core.new) result }
{
    let id = match shelf.begin(alloc, name) {
        Ok(id) => id,
        Err(DeviceFault::Failed) => return Outcome::ReadFault,
        Err(DeviceFault::Memory(error)) => return Outcome::Memory(error),
    };
    run_begun(alloc, input, shelf, id, out, core)
}
