// How `insert` and `strip` end at a rule.
ghost use Rattle.std.specs.Prelude.{◌≡◌};
ghost use Rattle.tool_text.specs.Faults.{at_bit};
ghost use Rattle.editing.specs.InsertRefusals.{of_stream, refusal_of_insert, IsEndOf};
ghost use Rattle.editing.specs.StripRefusals.{refusal_of_strip};

use commands::FrameEnd;
use ipf_insert::InsertFault;
use ipf_strip::StripFault;
use std::alloc::AllocError;
use tool_text::{Place, Reason, Refusal, at_frame};

/// The refusal of the stream as a whole, for that reason.
fn whole(reason: Reason) -> Refusal
    ensures { result ≡ of_stream reason }
{
    Refusal {
        place: Place::Whole,
        reason,
    }
}

/// How a command ends at a rule; `None` is out of memory.
fn end_of(why: Option<Refusal>) -> FrameEnd
    ensures { IsEndOf why result }
{
    match why {
        Some(refusal) => FrameEnd::Refused(refusal),
        None => FrameEnd::Memory(AllocError),
    }
}

/// The refusal of an access unit that is no frame.
fn too_short(frame: u64, bit: u64) -> Refusal
    ensures { result ≡ at_bit frame bit Reason.FrameTooShort }
{
    Refusal {
        place: Place::FrameBit { frame, bit },
        reason: Reason::FrameTooShort,
    }
}

/// The refusal of a stream by that rule of `insert`; `None` exactly where the fault is out of memory.
fn insert_refusal(fault: &InsertFault) -> Option<Refusal>
    ensures { result ≡ refusal_of_insert fault.now }
{
    match fault {
        InsertFault::ConfigChanges { frame } => Some(at_frame(*frame, Reason::ConfigChanges)),
        InsertFault::Frame { frame, at } => Some(too_short(*frame, *at)),
        InsertFault::NotDeclared => Some(whole(Reason::NotDeclared)),
        InsertFault::ConfigTooLong => Some(whole(Reason::ConfigTooLong)),
        InsertFault::BadCount => Some(whole(Reason::BadCount)),
        InsertFault::BadTarget { place } => Some(whole(Reason::BadTarget { place: *place })),
        InsertFault::NotIndependent { frame } => { Some(at_frame(*frame, Reason::NotIndependent)) }
        InsertFault::AlreadyPresent { frame } => { Some(at_frame(*frame, Reason::AlreadyPresent)) }
        InsertFault::TooEarly { frame } => Some(at_frame(*frame, Reason::TooEarly)),
        InsertFault::FirstDependent { frame } => { Some(at_frame(*frame, Reason::FirstDependent)) }
        InsertFault::PayloadTooLong { frame } => { Some(at_frame(*frame, Reason::PayloadTooLong)) }
        InsertFault::TooLong { frame } => Some(at_frame(*frame, Reason::TooLong)),
        InsertFault::Memory(_) => None,
    }
}

/// The refusal of a stream by that rule of `strip`; `None` exactly where the fault is out of memory.
fn strip_refusal(fault: &StripFault) -> Option<Refusal>
    ensures { result ≡ refusal_of_strip fault.now }
{
    match fault {
        StripFault::Frame { frame, at } => Some(too_short(*frame, *at)),
        StripFault::BadTarget { place } => Some(whole(Reason::BadTarget { place: *place })),
        StripFault::NotImmediate { frame } => Some(at_frame(*frame, Reason::NotImmediate)),
        StripFault::NotInserted { frame } => Some(at_frame(*frame, Reason::NotInserted)),
        StripFault::Memory(_) => None,
    }
}

/// How the command ends where nothing can be inserted.
pub fn insert_end(fault: &InsertFault) -> FrameEnd
    ensures { IsEndOf (refusal_of_insert fault.now) result }
{
    end_of(insert_refusal(fault))
}

/// How the command ends where no preroll can be taken out.
pub fn strip_end(fault: &StripFault) -> FrameEnd
    ensures { IsEndOf (refusal_of_strip fault.now) result }
{
    end_of(strip_refusal(fault))
}
