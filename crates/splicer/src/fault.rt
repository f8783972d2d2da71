ghost use Rattle.std.specs.Prelude.{◌≡◌};

use preroll::CarryFault;
use std::alloc::AllocError;
use thiserror::Error;
use timeline::PlanFault;
use usac_frame::FrameFault;

/// Why a rendition gives no piece. `frame` is the number of the frame, counted from 0.
///
/// The variants up to `PrerollForeign` are rules; the answer is the first one that the frame breaks, in the order that `feed` tells.
#[derive(Debug, Drop, Error)]
pub enum SpliceFault {
    /// The rate or the number of channels is not that of the rendition before, no frame stands at a position, or the rendition ends
    /// before the piece does.
    #[error("no piece there")]
    Plan(PlanFault),
    /// The frame has another configuration than frame 0.
    #[error("configuration changes")]
    ConfigChanges { frame: u64 },
    /// The access unit is no frame of its configuration. `at` is the first bit of the leftmost field that lacks bits.
    #[error("frame too short")]
    Frame { frame: u64, at: u64 },
    /// Frame 0 has no preroll, or one of no bytes, and is not independent (usacIndependencyFlag).
    #[error("not independent")]
    NotIndependent { frame: u64 },
    /// The preroll breaks this rule first.
    #[error("the preroll breaks a rule")]
    Carry { frame: u64, fault: CarryFault },
    /// The piece would be joined to a rendition of the same configuration.
    #[error("same configuration")]
    SameConfig { frame: u64 },
    /// The preroll carries `have` units, which are fewer than are needed.
    #[error("too few units: {have} of {need}")]
    TooFew { frame: u64, have: u32, need: u32 },
    /// Carried unit k, counted from 0, is not the one that the stream has in its place before the frame.
    #[error("foreign preroll unit {k}")]
    PrerollForeign { frame: u64, k: u32 },
    /// An earlier frame was refused, or memory was wanted for it.
    #[error("ended")]
    Ended,
    /// There was no memory.
    #[error("out of memory")]
    Memory(AllocError),
}

impl From<AllocError> for SpliceFault {
    ghost use Rattle.splicer.specs.declared.fault.SpliceFault.TheVariants as faults;

    ghost from_gives = { λ s e. e ≡ faults.Memory s };

    fn from(fault: AllocError) -> SpliceFault {
        SpliceFault::Memory(fault)
    }
}

impl SpliceFault {
    ghost use Rattle.splicer.specs.Faults.{of_frame, of_carry};

    /// The refusal of that frame's access unit.
    pub fn of_frame(frame: u64, fault: FrameFault) -> SpliceFault
        ensures { result ≡ of_frame frame fault }
    {
        match fault {
            FrameFault::Short { at } => SpliceFault::Frame { frame, at },
            FrameFault::Memory(fault) => SpliceFault::Memory(fault),
        }
    }

    /// The refusal of that frame's preroll.
    pub fn of_carry(frame: u64, fault: CarryFault) -> SpliceFault
        ensures { result ≡ of_carry frame fault }
    {
        match fault {
            CarryFault::Memory(fault) => SpliceFault::Memory(fault),
            _ => SpliceFault::Carry { frame, fault },
        }
    }
}
