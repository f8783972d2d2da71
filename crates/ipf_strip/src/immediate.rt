ghost use Rattle.std.specs.Prelude.{◌≡◌, ◌≤◌, ◌++◌, [], ◌∷◌, length, OnOk};
ghost use Rattle.latm.specs.Stream.{IsWellFormed, frames_of};
ghost use Rattle.stream_edit.specs.Frames.{pair_of, pairs_of};
ghost use Rattle.ipf_strip.specs.Rules.{frame_rule, frames_rule, immediate};
ghost use Rattle.ipf_strip.specs.Steps.{Judges, AreShort};
ghost use Rattle.ipf_strip.specs.Stripping.{immediate_from, immediate_list};

use crate::fault::StripFault;
use crate::rules::head_of;
use latm::Stream;
use std::alloc::{AllocError, Global};
use stream_edit::{FrameRef, frames_of};

/// Whether a frame is an immediate play-out frame.
fn is_immediate(alloc: Global, frame: u64, at: &FrameRef<'_>) -> Result<bool, StripFault>
    requires { length at.now.au.now ≤ 8191 }
    ensures { Judges result (frame_rule frame (pair_of at.now)) (λ is. is ≡ immediate (pair_of at.now)) }
{
    let head = head_of(alloc, frame, at)?;
    Ok(head.is_immediate(at.config))
}

fn add(list: &mut Vec<u64>, number: u64) -> Result<(), AllocError>
    ensures { OnOk result (list.new.items ≡ list.old.items ++ number ∷ []) }
{
    list.push(number)?;
    Ok(())
}

/// The numbers of those frames that are immediate play-out frames.
fn immediate_among(alloc: Global, frames: &[FrameRef<'_>]) -> Result<Vec<u64>, StripFault>
    requires { AreShort (pairs_of frames.now) }
    ensures { Judges result (frames_rule 0 (pairs_of frames.now)) (λ list. list.items ≡ immediate_from 0 (pairs_of frames.now)) }
{
    let mut list = Vec::new(alloc);
    for number in 0..frames.len() {
        let frame = number as u64;
        if is_immediate(alloc, frame, &frames[number])? {
            add(&mut list, frame)?;
        }
    }
    Ok(list)
}

/// The numbers of the immediate play-out frames of a stream, counted from 0: their preroll is declared, has at least one byte, and
/// begins and ends in the frame (ISO/IEC 23003-3, usacExtElementStart, usacExtElementStop).
///
/// Errors: `Frame` at the first access unit that is no frame, or out of memory.
pub fn immediate_frames(alloc: Global, stream: &Stream) -> Result<Vec<u64>, StripFault>
    requires { IsWellFormed stream.now }
    ensures { Judges result (frames_rule 0 (frames_of stream.now)) (λ list. list.items ≡ immediate_list stream.now) }
{
    let frames = frames_of(alloc, stream)?;
    immediate_among(alloc, &frames)
}
