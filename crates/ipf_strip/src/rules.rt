// The rules of a stream whose prerolls are to be taken out.
ghost use Rattle.std.specs.Prelude.{◌≡◌, ◌<◌, ◌≤◌, length};
ghost use Rattle.std.specs.List.{AllByRecursion};
ghost use Rattle.latm.specs.Stream.{au_in};
ghost use Rattle.stream_edit.specs.Frames.{pair_of, pairs_of};
ghost use Rattle.stream_edit.specs.Steps.{AreBelow};
ghost use Rattle.ipf_strip.specs.Rules.{frame_rule, frames_rule, list_rule, target_rule, targets_rule};
ghost use Rattle.ipf_strip.specs.Steps.{Passes, HasHead, AreShort};

use crate::fault::StripFault;
use ipf_frame::{Tail, without_preroll};
use std::alloc::Global;
use stream_edit::{FrameRef, first_misplaced};
use usac_frame::{FrameHead, read_head};

/// Reads the head of a frame, or refuses it.
pub fn head_of(alloc: Global, frame: u64, at: &FrameRef<'_>) -> Result<FrameHead, StripFault>
    requires { length at.now.au.now ≤ 8191 }
    ensures { HasHead result frame (pair_of at.now) }
{
    match read_head(alloc, at.config, at.au) {
        Ok(head) => Ok(head),
        Err(fault) => Err(StripFault::of_frame(frame, fault)),
    }
}

/// Refuses the first access unit that is no frame.
pub fn check_frames(alloc: Global, frames: &[FrameRef<'_>]) -> Result<(), StripFault>
    requires { AreShort (pairs_of frames.now) }
    ensures { Passes result (frames_rule 0 (pairs_of frames.now)) }
{
    for number in 0..frames.len() {
        head_of(alloc, number as u64, &frames[number])?;
    }
    Ok(())
}

/// Refuses a list of targets that do not rise, or are no frames.
pub fn check_list(frames: u64, targets: &[u64]) -> Result<(), StripFault>
    ensures { Passes result (list_rule frames targets.now) }
{
    match first_misplaced(frames, targets) {
        Some(place) => Err(StripFault::BadTarget { place }),
        None => Ok(()),
    }
}

/// Refuses a target that has no preroll, or whose end cannot become what the tail says.
fn check_target(alloc: Global, tail: Tail, target: u64, at: &FrameRef<'_>) -> Result<(), StripFault>
    requires short { length at.now.au.now ≤ 8191 }
    requires frame { frame_rule target (pair_of at.now) ≡ None }
    ensures { Passes result (target_rule tail target (pair_of at.now)) }
{
    let head = head_of(alloc, target, at)?;
    if !head.is_immediate(at.config) {
        return Err(StripFault::NotImmediate { frame: target });
    }
    match without_preroll(alloc, tail, at.config, at.au)? {
        Some(_) => Ok(()),
        None => Err(StripFault::NotInserted { frame: target }),
    }
}

/// Refuses the first target that breaks a rule.
pub fn check_targets(
    alloc: Global,
    tail: Tail,
    frames: &[FrameRef<'_>],
    targets: &[u64],
) -> Result<(), StripFault>
    requires short { AreShort (pairs_of frames.now) }
    requires frames { frames_rule 0 (pairs_of frames.now) ≡ None }
    requires below { AreBelow (length frames.now) targets.now }
    ensures { Passes result (targets_rule tail (pairs_of frames.now) targets.now) }
{
    for target in targets {
        check_target(alloc, tail, *target, &frames[*target as usize])?;
    }
    Ok(())
}
