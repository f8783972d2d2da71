// The frames of a source.
ghost use Rattle.std.specs.Prelude.{◌≡◌, ◌≢◌, ◌+◌, ◌≤◌, ◌^◌, ℕ, List, [], false, Some};
ghost use Rattle.commands.specs.Causes.{Caused};
ghost use Rattle.commands.specs.Ending.{OfFile};
ghost use Rattle.commands.specs.Doing.{DoesFrames, IsRefusedBy, Becomes, BecomesOf, BecomesOfEnd};

use crate::frame_end::FrameEnd;
use crate::input::Input;
use crate::outcome::Outcome;
use crate::task::Task;
use au_stream::{AuReader, StreamFault};
use core_iface::Core;
use outside::{Sink, Source};
use std::alloc::{AllocError, Global};
use tool_text::{Refusal, Within, loas_refusal, mux_refusal, refusal_line};

/// The outcome of a refusal, or of none, which is out of memory.
pub fn refused(alloc: Global, within: Option<Within>, refusal: Option<Refusal>) -> Outcome
    ensures { IsRefusedBy within refusal result }
{
    let Some(refusal) = refusal else {
        return Outcome::Memory(AllocError);
    };
    match refusal_line(alloc, within, &refusal) {
        Ok(text) => Outcome::Refused(text),
        Err(error) => Outcome::Memory(error),
    }
}

/// How the command ends where the stream has no next frame.
pub fn ended_by(alloc: Global, within: Option<Within>, fault: StreamFault) -> Outcome
    ensures { Becomes within fault result }
{
    match fault {
        StreamFault::ReadFault => Outcome::ReadFault,
        StreamFault::TooLarge => Outcome::TooLarge,
        StreamFault::Loas(fault) => refused(alloc, within, loas_refusal(&fault)),
        StreamFault::Mux { frame, fault } => refused(alloc, within, mux_refusal(frame, &fault)),
        StreamFault::Memory(error) => Outcome::Memory(error),
    }
}

/// How the command ends at a frame that was not handled.
fn stopped_by(alloc: Global, within: Option<Within>, end: FrameEnd) -> Outcome
    ensures { BecomesOf within end result }
{
    match end {
        FrameEnd::Refused(refusal) => refused(alloc, within, Some(refusal)),
        FrameEnd::WriteFault => Outcome::WriteFault,
        FrameEnd::CoreFault => Outcome::CoreFault,
        FrameEnd::Memory(error) => Outcome::Memory(error),
    }
}

/// How the command ends at the end of the stream.
pub fn closed_by(alloc: Global, within: Option<Within>, answer: Result<(), FrameEnd>) -> Outcome
    ensures { BecomesOfEnd within answer result }
{
    match answer {
        Ok(()) => Outcome::Done,
        Err(end) => stopped_by(alloc, within, end),
    }
}

/// Handles the frames of a source, one after another.
pub fn run_source<T: Task, S: Source, K: Sink, C: Core>(
    alloc: Global,
    task: &mut T,
    source: &mut S,
    out: &mut K,
    core: &mut C,
) -> Outcome
    requires fed { (C.meaning core.old).fed ≤ 2 ^ 63 + 2 ^ 40 }
    requires stands { (at : T.At) × T.Stands C.does at [] task.old (C.meaning core.old).ready }
    ensures does { (at : T.At) → T.Stands C.does at [] task.old (C.meaning core.old).ready →
        DoesFrames (T.command at C.does) (λ frames. T.Stands C.does at frames task.new (C.meaning core.new).ready) (S.left source.old) (S.left source.new)
        (record {
          written_before = K.written out.old;
          written_after = K.written out.new;
          fed_before = (C.meaning core.old).fed;
          fed_after = (C.meaning core.new).fed;
        }) result }
    ensures caused { Caused
        (record { shelf = S.faults source.old; out = K.faults out.old; core = (C.meaning core.old).faults })
        (record { shelf = S.faults source.new; out = K.faults out.new; core = (C.meaning core.new).faults }) result }
    ensures other { S.other source.new ≡ S.other source.old }
    ensures calm_source { S.calm source.old → S.calm source.new }
    ensures calm_out { K.calm out.old → K.calm out.new }
    ensures calm_core { C.IsCalm core.old → C.IsCalm core.new }
    ensures calm_reads { S.calm source.old → result ≢ Outcome.ReadFault }
    ensures calm_writes { K.calm out.old → result ≢ Outcome.WriteFault }
    ensures calm_decodes { (at : T.At) → T.Stands C.does at [] task.old (C.meaning core.old).ready →
        (text : List ℕ) → S.left source.old ≡ Some text → OfFile (T.command at C.does) (T.command at C.does).Serves text → C.IsCalm core.old → result ≢ Outcome.CoreFault }
    ensures few { (C.meaning core.new).fed ≤ (C.meaning core.old).fed + 2 ^ 33 }
    ensures untouched { T.plays ≡ false → core.new ≡ core.old }
    ensures no_core { T.plays ≡ false → result ≢ Outcome.CoreFault }
{
    T::is_command::<C>();
    let mut reader = AuReader::new(alloc);
    'frames: loop {
        let head = match reader.find(alloc, source) {
            Ok(Some(head)) => head,
            Ok(None) => {
                let within = task.within::<C>();
                return closed_by(alloc, within, task.close::<K, C>(alloc, out));
            }
            Err(fault) => return ended_by(alloc, task.within::<C>(), fault),
        };
        let Some(mux) = reader.mux() else {
            unreachable!()
        };
        let within = task.within::<C>();
        match task.handle(alloc, &reader.view(head), mux, out, core) {
            Ok(()) => {}
            Err(end) => return stopped_by(alloc, within, end),
        }
        reader.pass();
    }
}

/// The frames of an input, each given to a task, in order and before the next one is read.
#[derive(Drop)]
pub struct Frames<T>(pub T);

impl<T: Task> Input for Frames<T> {
    ghost use Rattle.std.specs.Prelude.{[]};
    ghost use Rattle.commands.specs.OnInput.{of_frames};

    ghost does = { λ input d. of_frames (T.command (T.first input.0) d) };

    ghost IsReady = { λ d input ready. T.Stands d (T.first input.0) [] input.0 ready };

    /// Handles the frames of a source, one after another.
    fn run<S: Source, K: Sink, C: Core>(
        &mut self,
        alloc: Global,
        source: &mut S,
        out: &mut K,
        core: &mut C,
    ) -> Outcome {
        T::is_command::<C>();
        run_source(alloc, &mut self.0, source, out, core)
    }
}
