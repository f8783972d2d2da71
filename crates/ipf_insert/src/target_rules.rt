// The rules of the targets, one after another.
ghost use Rattle.std.specs.Prelude.{◌<◌, ◌≤◌, ◌+◌, Some, [], length, IfOk};
ghost use Rattle.stream_edit.specs.Steps.{IsRising, AreBelow};
ghost use Rattle.ipf_insert.specs.Rules.{fault_if, au_at, is_long, frame_of_target, units_of_target, targets_rule};
ghost use Rattle.ipf_insert.specs.Steps.{Passes, settled, IsReady, AreKept, IsHere, IsFrom, slot_count, IsFramable, AreFramable, IsHeadOf, SeeksTo};
ghost use Rattle.ipf_insert.specs.declared.fault.InsertFault.TheVariants as faults;

use crate::changing::payload_at;
use crate::fault::InsertFault;
use crate::sources::Sources;
use ipf_frame::is_open;
use latm::{MuxElement, WriteFault, write_element};
use std::alloc::{AllocError, Global};
use stream_edit::changed;
use usac_frame::{FrameFault, FrameHead, read_head};

/// The head of a frame.
fn head_at(alloc: Global, sources: &Sources<'_>, frame: u64) -> Result<FrameHead, AllocError>
    requires ready { IsReady sources.now }
    requires below { frame < length (settled sources.now).aus }
    ensures { IfOk result (λ head. IsHeadOf (settled sources.now).config (au_at (settled sources.now).aus frame) head) }
{
    match read_head(alloc, sources.config, sources.aus[frame as usize]) {
        Ok(head) => Ok(head),
        Err(FrameFault::Short { .. }) => unreachable!(),
        Err(FrameFault::Memory(error)) => Err(error),
    }
}

/// Refuses a target that is not independent, or has a part 0 already.
fn check_frame(alloc: Global, sources: &Sources<'_>, target: u64) -> Result<(), InsertFault>
    requires ready { IsReady sources.now }
    requires below { target < length (settled sources.now).aus }
    ensures { Passes result (frame_of_target (settled sources.now) target) }
{
    let head = head_at(alloc, sources, target)?;
    if !head.independent {
        return Err(InsertFault::NotIndependent { frame: target });
    }
    if !is_open(&head.leading) {
        return Err(InsertFault::AlreadyPresent { frame: target });
    }
    Ok(())
}

/// Refuses a target for the frames that it is to carry.
fn check_units(alloc: Global, sources: &Sources<'_>, target: u64) -> Result<(), InsertFault>
    requires ready { IsReady sources.now }
    requires below { target < length (settled sources.now).aus }
    ensures { Passes result (units_of_target (settled sources.now) target) }
{
    if target < sources.count {
        return Err(InsertFault::TooEarly { frame: target });
    }
    let head = head_at(alloc, sources, target - sources.count)?;
    if !head.independent {
        return Err(InsertFault::FirstDependent { frame: target });
    }
    if payload_at(alloc, sources, target)?.len() > 65788 {
        return Err(InsertFault::PayloadTooLong { frame: target });
    }
    Ok(())
}

/// Refuses a target whose element becomes too long, with it and the targets before it.
fn check_length(
    alloc: Global,
    sources: &Sources<'_>,
    targets: &[u64],
    first: u64,
    element: &MuxElement,
    target: u64,
) -> Result<(), InsertFault>
    requires ready { IsReady sources.now }
    requires rising { IsRising targets.now }
    requires kept { AreKept (settled sources.now) targets.now }
    requires here { IsHere (settled sources.now).aus first element.now.slots }
    requires below { first ≤ length (settled sources.now).aus }
    requires framable { IsFramable element.now }
    ensures { Passes result (fault_if (is_long (settled sources.now) targets.now (Some (first, element.now))) (faults.TooLong target)) }
{
    let changed = changed(alloc, sources, targets, first, sources.config, element)?;
    match write_element(alloc, &changed) {
        Ok(_) => Ok(()),
        Err(WriteFault::TooLong) => Err(InsertFault::TooLong { frame: target }),
        Err(WriteFault::Memory(error)) => Err(InsertFault::Memory(error)),
    }
}

/// The elements from the one on that has that frame, and the number of its own first frame.
fn seek(elements: &[MuxElement], first: u64, target: u64) -> (&[MuxElement], u64)
    requires from { first ≤ target }
    requires few { first + slot_count elements.now ≤ 4294967296 }
    requires there { target < first + slot_count elements.now }
    ensures { SeeksTo elements.now first target result.0.now result.1 }
{
    let mut first = first;
    for place in 0..elements.len() {
        let next = first + elements[place].slots.len();
        if target < next {
            return (&elements[place..], first);
        }
        first = next;
    }
    (&[], first)
}

/// Refuses the first target that breaks a rule.
pub fn check_targets(
    alloc: Global,
    sources: &Sources<'_>,
    elements: &[MuxElement],
    targets: &[u64],
) -> Result<(), InsertFault>
    requires ready { IsReady sources.now }
    requires rising { IsRising targets.now }
    requires below { AreBelow (length (settled sources.now).aus) targets.now }
    requires from { IsFrom (settled sources.now).aus 0 elements.now }
    requires framable { AreFramable elements.now }
    ensures { Passes result (targets_rule (settled sources.now) elements.now [] targets.now) }
{
    let mut rest = elements;
    let mut first = 0;
    for place in 0..targets.len() {
        let target = targets[place];
        check_frame(alloc, sources, target)?;
        check_units(alloc, sources, target)?;
        (rest, first) = seek(rest, first, target);
        check_length(
            alloc,
            sources,
            &targets[..place + 1],
            first,
            &rest[0],
            target,
        )?;
    }
    Ok(())
}
