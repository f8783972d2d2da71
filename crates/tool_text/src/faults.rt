// Which refusal a fault is. Out of memory is none.
ghost use Rattle.std.specs.Prelude.{◌≡◌};
ghost use Rattle.tool_text.specs.Faults.{at_bit, refusal_of_loas, refusal_of_cfg, refusal_of_asc, refusal_of_mux, at_frame, refusal_of_carry};

use crate::refusal::{Place, Reason, Refusal};
use asc::AscFault;
use latm::MuxFault;
use loas::LoasFault;
use preroll::CarryFault;
use usac_cfg::CfgFault;

fn at_bit(frame: u64, bit: u64, reason: Reason) -> Refusal
    ensures { result ≡ at_bit frame bit reason }
{
    Refusal {
        place: Place::FrameBit { frame, bit },
        reason,
    }
}

/// The refusal of a stream whose framing has this fault; `None` exactly where the fault is out of memory.
pub fn loas_refusal(fault: &LoasFault) -> Option<Refusal>
    ensures { result ≡ refusal_of_loas fault.now }
{
    match fault {
        LoasFault::SyncLost { byte } => Some(Refusal {
            place: Place::Byte(*byte),
            reason: Reason::SyncLost,
        }),
        LoasFault::Truncated { byte } => Some(Refusal {
            place: Place::Byte(*byte),
            reason: Reason::Truncated,
        }),
        LoasFault::Memory(_) => None,
    }
}

fn cfg_refusal(frame: u64, fault: &CfgFault) -> Option<Refusal>
    ensures { result ≡ refusal_of_cfg frame fault.now }
{
    match fault {
        CfgFault::Short { at } => Some(at_bit(frame, *at, Reason::ConfigTooShort)),
        CfgFault::RateReserved { at } => Some(at_bit(frame, *at, Reason::RateReserved)),
        CfgFault::RateZero { at } => Some(at_bit(frame, *at, Reason::RateZero)),
        CfgFault::FrameReserved { at } => Some(at_bit(frame, *at, Reason::FrameReserved)),
        CfgFault::ChannelReserved { at } => Some(at_bit(frame, *at, Reason::ChannelReserved)),
        CfgFault::NoChannels { at } => Some(at_bit(frame, *at, Reason::NoChannels)),
        CfgFault::TooManyChannels { at } => Some(at_bit(frame, *at, Reason::TooManyChannels)),
        CfgFault::TooManyElements { at } => Some(at_bit(frame, *at, Reason::TooManyElements)),
        CfgFault::Memory(_) => None,
    }
}

fn asc_refusal(frame: u64, fault: &AscFault) -> Option<Refusal>
    ensures { result ≡ refusal_of_asc frame fault.now }
{
    match fault {
        AscFault::Short { at } => Some(at_bit(frame, *at, Reason::ConfigTooShort)),
        AscFault::NotUsac { at, kind } => {
            Some(at_bit(frame, *at, Reason::NotUsac { kind: *kind }))
        }
        AscFault::Cfg(fault) => cfg_refusal(frame, fault),
        AscFault::TailTooLong { at } => Some(at_bit(frame, *at, Reason::TailTooLong)),
        AscFault::Memory(_) => None,
    }
}

/// The refusal of an element that has this fault, and whose first access unit is the frame of this number; `None` exactly
/// where the fault, or the one inside it, is out of memory. `NoConfig` is that of the element's first bit.
pub fn mux_refusal(frame: u64, fault: &MuxFault) -> Option<Refusal>
    ensures { result ≡ refusal_of_mux frame fault.now }
{
    match fault {
        MuxFault::NoConfig => Some(at_bit(frame, 0, Reason::NoConfig)),
        MuxFault::OutOfProfile { at, field } => {
            Some(at_bit(frame, *at, Reason::OutOfProfile(*field)))
        }
        MuxFault::Short { at } => Some(at_bit(frame, *at, Reason::MuxTooShort)),
        MuxFault::Asc(fault) => asc_refusal(frame, fault),
        MuxFault::Memory(_) => None,
    }
}

/// The refusal of the frame of this number, for that reason.
pub fn at_frame(frame: u64, reason: Reason) -> Refusal
    ensures { result ≡ at_frame frame reason }
{
    Refusal {
        place: Place::Frame(frame),
        reason,
    }
}

/// The refusal of the frame of this number, whose preroll has this fault; `None` exactly where the fault is out of memory.
pub fn carry_refusal(frame: u64, fault: &CarryFault) -> Option<Refusal>
    ensures { result ≡ refusal_of_carry frame fault.now }
{
    match fault {
        CarryFault::NotImmediate => Some(at_frame(frame, Reason::NotImmediate)),
        CarryFault::Split => Some(at_frame(frame, Reason::Split)),
        CarryFault::BadPreroll { at } => Some(at_frame(frame, Reason::BadPreroll { bit: *at })),
        CarryFault::BadConfig => Some(at_frame(frame, Reason::BadConfig)),
        CarryFault::ConfigDiffers => Some(at_frame(frame, Reason::ConfigDiffers)),
        CarryFault::BadUnit { k, at } => {
            Some(at_frame(frame, Reason::BadUnit { unit: *k, bit: *at }))
        }
        CarryFault::Nested { k } => Some(at_frame(frame, Reason::Nested { unit: *k })),
        CarryFault::FirstDependent => Some(at_frame(frame, Reason::FirstDependent)),
        CarryFault::Memory(_) => None,
    }
}
