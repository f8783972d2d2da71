// Elements that are written, a LOAS frame each.
ghost use Rattle.std.specs.Prelude.{◌≡◌, ◌≢◌, ℕ, ◌<◌, All, Ok, Err, IfOk};
ghost use Rattle.commands.specs.OneFrame.{CausedBy};
ghost use Rattle.latm.specs.Written.{element_text, Frames};
ghost use Rattle.stream_edit.specs.Giving.{given, IsWritable};
ghost use Rattle.editing.specs.Runs.{frame_of, run_of, WritesBytes};

use bit_core::Octets;
use commands::{FrameEnd, give_all};
use latm::{MuxElement, WriteFault, framed};
use outside::Sink;
use std::alloc::{AllocError, Global};
use stream_edit::{Change, Editor, Given};

/// Bytes as they are, for what their type says of them.
fn in_range(bytes: &[u8]) -> &[u8]
    ensures same { result.now ≡ bytes.now }
    ensures range { All (λ byte. byte < 256) result.now }
{
    bytes
}

/// Makes the LOAS frame of an element.
///
/// Errors: out of memory.
fn frame_of(alloc: Global, element: &MuxElement) -> Result<Octets, AllocError>
    requires { IsWritable element.now }
    ensures { IfOk result (λ frame. Frames (element_text element.now) (Ok frame)) }
{
    match framed(alloc, element) {
        Ok(frame) => Ok(frame),
        Err(WriteFault::TooLong) => unreachable!(),
        Err(WriteFault::Memory(error)) => Err(error),
    }
}

fn give_element<K: Sink>(alloc: Global, element: &MuxElement, out: &mut K) -> Result<(), FrameEnd>
    requires { IsWritable element.now }
    ensures writes { WritesBytes (frame_of element.now) (K.written out.old) (K.written out.new) result }
    ensures caused { (core : ℕ) → CausedBy (K.faults out.old) (K.faults out.new) core core result }
    ensures calm_out { K.calm out.old → K.calm out.new }
    ensures calm_writes { K.calm out.old → result ≢ Err FrameEnd.WriteFault }
{
    let frame = frame_of(alloc, element)?;
    give_all(out, in_range(frame.as_slice()))?;
    Ok(())
}

fn give_one<K: Sink>(alloc: Global, one: Given, out: &mut K) -> Result<(), FrameEnd>
    requires { IsWritable (given one) }
    ensures writes { WritesBytes (frame_of (given one.entry)) (K.written out.old) (K.written out.new) result }
    ensures caused { (core : ℕ) → CausedBy (K.faults out.old) (K.faults out.new) core core result }
    ensures calm_out { K.calm out.old → K.calm out.new }
    ensures calm_writes { K.calm out.old → result ≢ Err FrameEnd.WriteFault }
{
    match one {
        Given::Kept(element) => give_element(alloc, element, out),
        Given::Changed(element) => give_element(alloc, &element, out),
    }
}

/// Writes the elements of a changed stream, one after another.
///
/// Errors: `WriteFault`, or `Memory`, before the last byte.
pub fn give_elements<C: Change + Drop, K: Sink>(
    alloc: Global,
    editor: Editor<'_, C>,
    out: &mut K,
) -> Result<(), FrameEnd>
    ensures writes { WritesBytes (run_of editor.entry) (K.written out.old) (K.written out.new) result }
    ensures caused { (core : ℕ) → CausedBy (K.faults out.old) (K.faults out.new) core core result }
    ensures calm_out { K.calm out.old → K.calm out.new }
    ensures calm_writes { K.calm out.old → result ≢ Err FrameEnd.WriteFault }
{
    let mut editor = editor;
    while let Some(one) = editor.next(alloc)? {
        give_one(alloc, one, out)?;
    }
    Ok(())
}
