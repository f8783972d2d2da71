// How a command ends at a frame that its player does not play.
ghost use Rattle.std.specs.Prelude.{◌≡◌};
ghost use Rattle.tool_text.specs.Faults.{at_frame as refusal_at};
ghost use Rattle.playing.specs.PlayFaults.{IsEndOf};

use commands::{FrameEnd, too_short};
use std::alloc::AllocError;
use switch_player::PlayFault;
use tool_text::{Reason, at_frame, carry_refusal};

/// How the command ends at the frame with that number, which is refused for that reason.
fn refused_at(frame: u64, reason: Reason) -> FrameEnd
    ensures { result ≡ FrameEnd.Refused (refusal_at frame reason) }
{
    FrameEnd::Refused(at_frame(frame, reason))
}

/// How the command ends at the frame with that number, at which its player answers that fault.
pub fn end_of(frame: u64, fault: PlayFault) -> FrameEnd
    ensures { IsEndOf frame fault result }
{
    match fault {
        PlayFault::FrameFault { at } => too_short(frame, at),
        PlayFault::NotIndependent => refused_at(frame, Reason::NotIndependent),
        PlayFault::RateChanged => refused_at(frame, Reason::RateChanged),
        PlayFault::ChannelsChanged => refused_at(frame, Reason::ChannelsChanged),
        PlayFault::Carry(fault) => match carry_refusal(frame, &fault) {
            Some(refusal) => FrameEnd::Refused(refusal),
            None => FrameEnd::Memory(AllocError),
        },
        PlayFault::TooFew { have, need } => refused_at(frame, Reason::TooFew { have, need }),
        PlayFault::CoreFault => FrameEnd::CoreFault,
        PlayFault::Memory(error) => FrameEnd::Memory(error),
        PlayFault::Stopped => FrameEnd::Memory(AllocError),
    }
}
