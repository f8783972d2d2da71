// All elements of a source.
ghost use Rattle.std.specs.Prelude.{◌≡◌, IfOk};
ghost use Rattle.latm.specs.Stream.{IsWellFormed};
ghost use Rattle.au_stream.specs.Taking.{seen, IsReadFault, Caused};
ghost use Rattle.au_stream.specs.Whole.{ReadsWhole};

use crate::fault::StreamFault;
use crate::frame_reader::FrameReader;
use crate::gathered::Gathered;
use latm::Stream;
use outside::Source;
use std::alloc::Global;

/// Reads all elements of a source of LOAS frames, to its end (ISO/IEC 14496-3, AudioSyncStream and AudioMuxElement).
///
/// What a call that was refused has read stays taken from the source.
///
/// # Errors
/// - `ReadFault`: the source failed.
/// - `Loas`: no syncword stands where a LOAS frame is due, or the source ends within one.
/// - `Mux`: an element is not read, by its first fault.
/// - `TooLarge`: 268,435,456 bytes were taken, all whole elements in them were read, and there is a byte more.
/// - `Memory`: out of memory.
pub fn read_stream<S: Source>(alloc: Global, source: &mut S) -> Result<Stream, StreamFault>
    ensures reads { ReadsWhole (seen S.left S.faults source.old) (seen S.left S.faults source.new) result }
    ensures well_formed { IfOk result (λ stream. IsWellFormed stream) }
    ensures caused { Caused (S.faults source.old) (S.faults source.new) result }
    ensures other { S.other source.new ≡ S.other source.old }
    ensures calm { S.calm source.old → S.calm source.new }
    ensures calm_answers { S.calm source.old → IsReadFault result → ⊥ }
{
    let mut frames = FrameReader::new(alloc);
    let mut gathered = Gathered::new(alloc);
    'frames: while let Some(length) = frames.next(source)? {
        gathered.read(alloc, frames.body(length))?;
        frames.pass(length);
    }
    Ok(Stream {
        elements: gathered.into_elements(),
    })
}
