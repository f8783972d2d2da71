// The frames of several files.
use crate::frames::run_source;
use crate::inputs::Inputs;
use crate::outcome::Outcome;
use crate::task::Task;
use core_iface::Core;
use outside::{Sink, Source};
use std::alloc::Global;

/// The frames of several inputs, each given to a task.
#[derive(Drop)]
pub struct PieceFrames<T>(pub T);

impl<T: Task> Inputs for PieceFrames<T> {
    ghost use Rattle.std.specs.Prelude.{[]};
    ghost use Rattle.commands.specs.OnInputs.{several};

    ghost At = { T.At };

    ghost first = { λ pieces. T.first pieces.0 };

    ghost does = { λ d. several (λ at. T.command at d) T.then T.plays };

    ghost IsReady = { λ d at pieces ready. T.Stands d at [] pieces.0 ready };

    /// Handles the frames of the next source, and goes on to the one behind it.
    fn run<S: Source, K: Sink, C: Core>(
        &mut self,
        alloc: Global,
        source: &mut S,
        out: &mut K,
        core: &mut C,
    ) -> Outcome {
        let outcome = run_source(alloc, &mut self.0, source, out, core);
        if let Outcome::Done = outcome {
            self.0.turn::<C>();
        }
        outcome
    }
}
