ghost use Rattle.std.specs.Prelude.{◌≡◌};

use std::alloc::AllocError;
use thiserror::Error;

/// Why positions make no plan. `piece` is the number of a piece, counted from 0.
#[derive(Debug, Drop, Error)]
pub enum PlanFault {
    /// The position of the piece is not larger than that of the piece before.
    #[error("positions do not rise")]
    BadOrder { piece: u32 },
    /// No frame of the stream begins at the position: it is no multiple of the frame length.
    #[error("no frame at {position}")]
    NoFrameAt { piece: u32, position: u64 },
    /// The stream has another rate than that of the piece before.
    #[error("rate differs")]
    RateDiffers { piece: u32 },
    /// The stream has another number of channels than that of the piece before.
    #[error("channels differ")]
    ChannelsDiffer { piece: u32 },
    /// The stream ends before the piece has begun, or before the piece ends.
    #[error("past end")]
    PastEnd { piece: u32 },
    /// There was no memory.
    #[error("out of memory")]
    Memory(AllocError),
}

impl From<AllocError> for PlanFault {
    ghost use Rattle.timeline.specs.declared.fault.PlanFault.TheVariants as faults;

    ghost from_gives = { λ s e. e ≡ faults.Memory s };

    fn from(fault: AllocError) -> PlanFault {
        PlanFault::Memory(fault)
    }
}
