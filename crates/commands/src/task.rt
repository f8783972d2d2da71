// What a command does with one frame.
ghost use Rattle.std.specs.Prelude.{◌≡◌, ◌≢◌, ◌-◌, ◌^◌, ◌≤◌, ◌++◌, ℕ, Bool, List, [], ◌∷◌, Option, false, Err, OnOk, length};
ghost use Rattle.latm.specs.MuxConfig.{IsWellFormed};
ghost use Rattle.core_iface.specs.Decoding.{Definitions};
ghost use Rattle.core_iface.specs.Answering.{Running};
ghost use Rattle.au_stream.specs.Frames.{Frame};
ghost use Rattle.au_stream.specs.Script.{most_bytes};
ghost use Rattle.au_stream.specs.Events.{IsEvent};
ghost use Rattle.commands.specs.Commands.{Command, IsCommand, Takes};
ghost use Rattle.commands.specs.OneFrame.{Handles, CausedBy, HandlesEnd};

use crate::frame_end::FrameEnd;
use au_stream::EventView;
use core_iface::Core;
use latm::MuxConfig;
use outside::Sink;
use std::alloc::Global;
use tool_text::Within;

/// A command on the frames of one file or of several, frame by frame. `docs/COMMANDS.md` says how to write one.
pub trait Task {
    /// The type of what is known where a file begins: the further words of the command, the frames of the files before.
    ghost At: { Type 0 };

    /// What it does with a file that begins there, over a core of which this is known.
    ghost command: { At → Definitions → Command };

    /// What is known where its first file begins.
    ghost first: { Self → At };

    /// What is known behind a file with these frames, where it goes on to another one.
    ghost then: { At → List Frame → At };

    /// Whether it uses the core.
    ghost plays: { Bool };

    /// How it stands, and the core is ready, behind these frames of a file that began there.
    ghost Stands: { Definitions → At → List Frame → Self → Option Running → Type 0 };

    /// Handles a frame, of the StreamMuxConfig in force: writes what opens it, judges it, feeds its units and writes what it gives.
    ///
    /// Errors: `Refused` behind what opens the frame; `WriteFault` behind a front of what is written for it; `CoreFault` before its
    /// last unit was fed; `Memory` behind a front of what is written for it.
    fn handle<K: Sink, C: Core>(
        &mut self,
        alloc: Global,
        event: &EventView,
        mux: &MuxConfig,
        out: &mut K,
        core: &mut C,
    ) -> Result<(), FrameEnd>
        requires size { length event.now.au ≤ 8191 }
        requires well_formed { IsWellFormed mux.now }
        requires fed { (C.meaning core.old).fed ≤ 2 ^ 64 - 20 }
        requires few { event.now.frame ≤ most_bytes }
        requires stands { (at : At) × (before : List Frame) × (length before ≡ event.now.frame) × Stands C.does at before self.old (C.meaning core.old).ready }
        ensures handles { (at : At) (before : List Frame) (f : Frame) → IsEvent before f event.now → mux.now ≡ f.mux → Stands C.does at before self.old (C.meaning core.old).ready →
            Handles (command at C.does) before f (C.meaning core.old) (C.meaning core.new) (K.written out.old) (K.written out.new) result }
        ensures stands { (at : At) (before : List Frame) (f : Frame) → IsEvent before f event.now → mux.now ≡ f.mux → Stands C.does at before self.old (C.meaning core.old).ready →
            OnOk result (Stands C.does at (before ++ f ∷ []) self.new (C.meaning core.new).ready) }
        ensures caused { CausedBy (K.faults out.old) (K.faults out.new) (C.meaning core.old).faults (C.meaning core.new).faults result }
        ensures calm_out { K.calm out.old → K.calm out.new }
        ensures calm_core { C.IsCalm core.old → C.IsCalm core.new }
        ensures calm_writes { K.calm out.old → result ≢ Err FrameEnd.WriteFault }
        ensures calm_decodes { (at : At) (before : List Frame) (f : Frame) → IsEvent before f event.now → mux.now ≡ f.mux → Stands C.does at before self.old (C.meaning core.old).ready →
            C.IsCalm core.old → (Takes (command at C.does) before f → (command at C.does).Serves before f) → result ≢ Err FrameEnd.CoreFault }
        ensures untouched { plays ≡ false → core.new ≡ core.old }
        ensures no_core { plays ≡ false → result ≢ Err FrameEnd.CoreFault };

    /// Refuses the file at its end, or writes what the command writes there.
    ///
    /// Errors: `Refused`; `WriteFault` and `Memory`, behind a front of that.
    fn close<K: Sink, C: Core>(&self, alloc: Global, out: &mut K) -> Result<(), FrameEnd>
        requires stands { (at : At) × (frames : List Frame) × (ready : Option Running) × Stands C.does at frames self.now ready }
        ensures closes { (at : At) (frames : List Frame) (ready : Option Running) → Stands C.does at frames self.now ready →
            HandlesEnd ((command at C.does).RefusesEnd frames) ((command at C.does).Closes frames) (K.written out.old) (K.written out.new) result }
        ensures caused { (core : ℕ) → CausedBy (K.faults out.old) (K.faults out.new) core core result }
        ensures calm_out { K.calm out.old → K.calm out.new }
        ensures calm_writes { K.calm out.old → result ≢ Err FrameEnd.WriteFault };

    /// Goes on to another file.
    fn turn<C: Core>(&mut self)
        requires { (at : At) × (frames : List Frame) × (ready : Option Running) × Stands C.does at frames self.old ready }
        ensures { (at : At) (frames : List Frame) (ready : Option Running) → Stands C.does at frames self.old ready → Stands C.does (then at frames) [] self.new ready };

    /// The piece or the file that its refusals name, where it has several inputs.
    fn within<C: Core>(&self) -> Option<Within>
        ensures { (at : At) (frames : List Frame) (ready : Option Running) → Stands C.does at frames self.now ready → result ≡ (command at C.does).within };

    /// What holds of its commands.
    fn is_command<C: Core>()
        ensures command { (at : At) → IsCommand (command at C.does) }
        ensures plays { (at : At) → (command at C.does).plays ≡ plays };
}
