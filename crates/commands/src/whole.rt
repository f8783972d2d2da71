// A command on a whole stream.
ghost use Rattle.std.specs.Prelude.{◌≡◌, ◌≢◌, ℕ, Err};
ghost use Rattle.latm.specs.Stream.{IsWellFormed};
ghost use Rattle.commands.specs.OneFrame.{CausedBy, HandlesEnd};
ghost use Rattle.commands.specs.Wholes.{WholeCommand};

use crate::frame_end::FrameEnd;
use crate::frames::{closed_by, ended_by};
use crate::input::Input;
use crate::outcome::Outcome;
use au_stream::read_stream;
use core_iface::Core;
use latm::Stream;
use outside::{Sink, Source};
use std::alloc::Global;

/// A command that reads all of its input, and then refuses it or writes.
pub trait Whole {
    /// What it does.
    ghost command: { Self → WholeCommand };

    /// Refuses a stream, or writes what is to be written for it.
    fn give<K: Sink>(&self, alloc: Global, stream: &Stream, out: &mut K) -> Result<(), FrameEnd>
        requires { IsWellFormed stream.now }
        ensures gives { HandlesEnd ((command self.now).Refuses stream.now) ((command self.now).Writes stream.now) (K.written out.old) (K.written out.new) result }
        ensures caused { (core : ℕ) → CausedBy (K.faults out.old) (K.faults out.new) core core result }
        ensures calm_out { K.calm out.old → K.calm out.new }
        ensures calm_writes { K.calm out.old → result ≢ Err FrameEnd.WriteFault };
}

/// An input that is read whole.
#[derive(Drop)]
pub struct WholeInput<W>(pub W);

impl<W: Whole> Input for WholeInput<W> {
    ghost use Rattle.commands.specs.Wholes.{of_whole};

    ghost does = { λ input d. of_whole (W.command input.0) };

    ghost IsReady = { λ d input ready. Unit {0} };

    /// Reads all elements of a source, and gives what is to be given for them. The core is left as it was.
    fn run<S: Source, K: Sink, C: Core>(
        &mut self,
        alloc: Global,
        source: &mut S,
        out: &mut K,
        core: &mut C,
    ) -> Outcome {
        let _ = core;
        match read_stream(alloc, source) {
            Ok(stream) => closed_by(alloc, None, self.0.give(alloc, &stream, out)),
            Err(fault) => ended_by(alloc, None, fault),
        }
    }
}
