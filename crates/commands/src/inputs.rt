// A command on several inputs.
ghost use Rattle.std.specs.Prelude.{◌≡◌, ◌≢◌, ◌<◌, ◌≤◌, ◌+◌, ◌*◌, ◌^◌, ℕ, List, [], false, length, map, Option, Some};
ghost use Rattle.outside.specs.Other.{all_but};
ghost use Rattle.core_iface.specs.Decoding.{Definitions};
ghost use Rattle.core_iface.specs.Answering.{Running};
ghost use Rattle.commands.specs.Causes.{Caused};
ghost use Rattle.commands.specs.Worlds.{world};
ghost use Rattle.commands.specs.Calling.{Called};
ghost use Rattle.commands.specs.OnInputs.{Several, LeadsOn, on_inputs};

use crate::outcome::Outcome;
use core_iface::Core;
use outside::{DeviceFault, FromShelf, Shelf, Sink, Source};
use std::alloc::Global;

/// What a command does with several inputs, one after another.
pub trait Inputs {
    /// The type of what it knows of the inputs that passed.
    ghost At: { Type 0 };

    /// What is known before the first one.
    ghost first: { Self → At };

    /// What it does, over a core of which this is known.
    ghost does: { Definitions → Several At };

    /// How it stands, and the core is ready, where that is known.
    ghost IsReady: { Definitions → At → Self → Option Running → Type 0 };

    /// Runs on the source of the next input, to its end or to the first event that stops it. `Done` is that it passed.
    fn run<S: Source, K: Sink, C: Core>(
        &mut self,
        alloc: Global,
        source: &mut S,
        out: &mut K,
        core: &mut C,
    ) -> Outcome
        requires fed { (C.meaning core.old).fed ≤ 2 ^ 63 + 2 ^ 40 }
        requires ready { (at : At) × IsReady C.does at self.old (C.meaning core.old).ready }
        ensures does { (at : At) → IsReady C.does at self.old (C.meaning core.old).ready →
            LeadsOn (does C.does) at (λ next. IsReady C.does next self.new (C.meaning core.new).ready) (S.left source.old) (S.left source.new)
            (record {
              written_before = K.written out.old;
              written_after = K.written out.new;
              fed_before = (C.meaning core.old).fed;
              fed_after = (C.meaning core.new).fed;
            }) result }
        ensures few { (C.meaning core.new).fed ≤ (C.meaning core.old).fed + 2 ^ 33 }
        ensures caused { Caused
            (record { shelf = S.faults source.old; out = K.faults out.old; core = (C.meaning core.old).faults })
            (record { shelf = S.faults source.new; out = K.faults out.new; core = (C.meaning core.new).faults }) result }
        ensures other { S.other source.new ≡ S.other source.old }
        ensures calm_source { S.calm source.old → S.calm source.new }
        ensures calm_out { K.calm out.old → K.calm out.new }
        ensures calm_core { C.IsCalm core.old → C.IsCalm core.new }
        ensures calm_reads { S.calm source.old → result ≢ Outcome.ReadFault }
        ensures calm_writes { K.calm out.old → result ≢ Outcome.WriteFault }
        ensures calm_decodes { (at : At) → IsReady C.does at self.old (C.meaning core.old).ready → (text : List ℕ) → S.left source.old ≡ Some text → ((does C.does).one at).Serves text → C.IsCalm core.old → result ≢ Outcome.CoreFault }
        ensures untouched { (does C.does).plays ≡ false → core.new ≡ core.old }
        ensures no_core { (does C.does).plays ≡ false → result ≢ Outcome.CoreFault };
}

/// Runs on the input of a shelf with that number.
fn run_next<I: Inputs, H: Shelf, K: Sink, C: Core>(
    alloc: Global,
    inputs: &mut I,
    shelf: &mut H,
    id: u32,
    out: &mut K,
    core: &mut C,
) -> Outcome
    requires begun { id < H.begun shelf.old }
    requires ready { (at : I.At) × I.IsReady C.does at inputs.old (C.meaning core.old).ready }
    requires fed { (C.meaning core.old).fed ≤ 2 ^ 63 + 2 ^ 40 }
    ensures does { (at : I.At) → I.IsReady C.does at inputs.old (C.meaning core.old).ready →
        LeadsOn (I.does C.does) at (λ next. I.IsReady C.does next inputs.new (C.meaning core.new).ready) (H.left shelf.old id) (H.left shelf.new id)
        (record {
          written_before = K.written out.old;
          written_after = K.written out.new;
          fed_before = (C.meaning core.old).fed;
          fed_after = (C.meaning core.new).fed;
        }) result }
    ensures few { (C.meaning core.new).fed ≤ (C.meaning core.old).fed + 2 ^ 33 }
    ensures caused { Caused
        (record { shelf = H.faults shelf.old; out = K.faults out.old; core = (C.meaning core.old).faults })
        (record { shelf = H.faults shelf.new; out = K.faults out.new; core = (C.meaning core.new).faults }) result }
    ensures begun { H.begun shelf.new ≡ H.begun shelf.old }
    ensures names { H.bytes shelf.new ≡ H.bytes shelf.old }
    ensures tells { H.tells shelf.new ≡ H.tells shelf.old }
    ensures others { all_but id (H.left shelf.new) ≡ all_but id (H.left shelf.old) }
    ensures calm_shelf { H.calm shelf.old → H.calm shelf.new }
    ensures calm_out { K.calm out.old → K.calm out.new }
    ensures calm_core { C.IsCalm core.old → C.IsCalm core.new }
    ensures calm_reads { H.calm shelf.old → result ≢ Outcome.ReadFault }
    ensures calm_writes { K.calm out.old → result ≢ Outcome.WriteFault }
    ensures calm_decodes { (at : I.At) → I.IsReady C.does at inputs.old (C.meaning core.old).ready → (text : List ℕ) → H.left shelf.old id ≡ Some text → ((I.does C.does).one at).Serves text → C.IsCalm core.old → result ≢ Outcome.CoreFault }
    ensures untouched { (I.does C.does).plays ≡ false → core.new ≡ core.old }
    ensures no_core { (I.does C.does).plays ≡ false → result ≢ Outcome.CoreFault }
{
    let mut source = FromShelf::new(shelf, id);
    inputs.run(alloc, &mut source, out, core)
}

/// Runs on the inputs with these names, one after another, as far as they pass.
pub fn run_files<I: Inputs, H: Shelf, K: Sink, C: Core>(
    alloc: Global,
    inputs: &mut I,
    names: &[&str],
    shelf: &mut H,
    out: &mut K,
    core: &mut C,
) -> Outcome
    requires some { 0 < length names.now }
    requires few { length names.now ≤ 64 }
    requires begun { H.begun shelf.old ≤ 2 ^ 31 }
    requires ready { I.IsReady C.does (I.first inputs.old) inputs.old (C.meaning core.old).ready }
    requires fed { (C.meaning core.old).fed ≤ 2 ^ 63 }
    ensures { Called (on_inputs (I.does C.does) (I.first inputs.old)) (map (λ name. name.now) names.now)
        (world H.Shelf K.Sink C.Core shelf.old out.old core.old) (world H.Shelf K.Sink C.Core shelf.new out.new core.new) result }
{
    for name in names {
        let id = match shelf.begin(alloc, name) {
            Ok(id) => id,
            Err(DeviceFault::Failed) => return Outcome::ReadFault,
            Err(DeviceFault::Memory(error)) => return Outcome::Memory(error),
        };
        match run_next(alloc, inputs, shelf, id, out, core) {
            Outcome::Done => {}
            outcome => return outcome,
        }
    }
    Outcome::Done
}
