use std::alloc::AllocError;
use thiserror::Error;
use usac_frame::FrameFault;

/// Why no preroll is taken out of a stream. `frame` is the number of the frame, counted from 0.
///
/// All but `Memory` are rules; the answer is the first one that applies, in the order that `strip` tells.
#[derive(Debug, Drop, Error)]
pub enum StripFault {
    /// The access unit is no frame of its configuration. `at` is the first bit of the leftmost field that lacks bits.
    #[error("frame too short")]
    Frame { frame: u64, at: u64 },
    /// The target at this place of the list, counted from 0, is no frame of the stream, or not larger than the one before it.
    #[error("bad target {place}")]
    BadTarget { place: u64 },
    /// The target is no immediate play-out frame: its preroll is not declared, has no bytes, or does not begin and end in it
    /// (usacExtElementStart, usacExtElementStop).
    #[error("no preroll")]
    NotImmediate { frame: u64 },
    /// The bits to drop behind the target's core payload are not there, or not all 0: no insertion wrote them.
    #[error("not inserted")]
    NotInserted { frame: u64 },
    /// There was no memory.
    #[error("out of memory")]
    Memory(AllocError),
}

impl From<AllocError> for StripFault {
    ghost use Rattle.std.specs.Prelude.{◌≡◌};
    ghost use Rattle.ipf_strip.specs.declared.fault.StripFault.TheVariants as faults;

    ghost from_gives = { λ s e. e ≡ faults.Memory s };

    fn from(fault: AllocError) -> StripFault {
        StripFault::Memory(fault)
    }
}

impl StripFault {
    ghost use Rattle.std.specs.Prelude.{◌≡◌};
    ghost use Rattle.ipf_strip.specs.Faults.{of_frame};

    /// The refusal of that frame's access unit.
    pub fn of_frame(frame: u64, fault: FrameFault) -> StripFault
        ensures { result ≡ of_frame frame fault }
    {
        match fault {
            FrameFault::Short { at } => StripFault::Frame { frame, at },
            FrameFault::Memory(fault) => StripFault::Memory(fault),
        }
    }
}
