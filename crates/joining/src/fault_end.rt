// How a command ends at a rule of pieces.
ghost use Rattle.std.specs.Prelude.{◌≡◌};
ghost use Rattle.joining.specs.Refusals.{refusal_of_plan, refusal_of_splice, IsEndOf};

use commands::FrameEnd;
use splicer::SpliceFault;
use std::alloc::AllocError;
use timeline::PlanFault;
use tool_text::{Place, Reason, Refusal, at_frame, carry_refusal};

/// The refusal of a piece as a whole, for that reason.
fn whole(reason: Reason) -> Option<Refusal>
    ensures { result ≡ Some (record { place = Place.Whole; reason = reason }) }
{
    Some(Refusal {
        place: Place::Whole,
        reason,
    })
}

/// The refusal of a piece whose positions or whose stream have this fault; `None` exactly where the fault is out of memory.
pub fn plan_refusal(fault: &PlanFault) -> Option<Refusal>
    ensures { result ≡ refusal_of_plan fault.now }
{
    match fault {
        PlanFault::BadOrder { .. } => whole(Reason::PositionsFall),
        PlanFault::NoFrameAt { position, .. } => whole(Reason::NoFrameAt {
            position: *position,
        }),
        PlanFault::RateDiffers { .. } => whole(Reason::RateDiffers),
        PlanFault::ChannelsDiffer { .. } => whole(Reason::ChannelsDiffer),
        PlanFault::PastEnd { .. } => whole(Reason::PastEnd),
        PlanFault::Memory(_) => None,
    }
}

/// The refusal of a piece whose rendition has this fault; `None` exactly where the fault is no rule.
fn splice_refusal(fault: &SpliceFault) -> Option<Refusal>
    ensures { result ≡ refusal_of_splice fault.now }
{
    match fault {
        SpliceFault::Plan(fault) => plan_refusal(fault),
        SpliceFault::ConfigChanges { frame } => Some(at_frame(*frame, Reason::ConfigChanges)),
        SpliceFault::Frame { frame, at } => Some(Refusal {
            place: Place::FrameBit {
                frame: *frame,
                bit: *at,
            },
            reason: Reason::FrameTooShort,
        }),
        SpliceFault::NotIndependent { frame } => { Some(at_frame(*frame, Reason::NotIndependent)) }
        SpliceFault::Carry { frame, fault } => carry_refusal(*frame, fault),
        SpliceFault::SameConfig { frame } => Some(at_frame(*frame, Reason::SameConfig)),
        SpliceFault::TooFew { frame, have, need } => Some(at_frame(
            *frame,
            Reason::TooFew {
                have: *have,
                need: *need,
            },
        )),
        SpliceFault::PrerollForeign { frame, k } => {
            Some(at_frame(*frame, Reason::PrerollForeign { unit: *k }))
        }
        SpliceFault::Ended => None,
        SpliceFault::Memory(_) => None,
    }
}

/// How the command ends where the check of a rendition answers that fault.
pub fn end_of(fault: &SpliceFault) -> FrameEnd
    ensures { IsEndOf (refusal_of_splice fault.now) result }
{
    match splice_refusal(fault) {
        Some(refusal) => FrameEnd::Refused(refusal),
        None => FrameEnd::Memory(AllocError),
    }
}
