use std::alloc::AllocError;
use thiserror::Error;
use usac_frame::FrameFault;

/// Why nothing is inserted into a stream. `frame` is the number of the frame, counted from 0.
///
/// All but `Memory` are rules; the answer is the first one that applies, in the order that `insert` tells.
#[derive(Debug, Drop, Error)]
pub enum InsertFault {
    /// The frame has another configuration than frame 0.
    #[error("configuration changes")]
    ConfigChanges { frame: u64 },
    /// The access unit is no frame of its configuration. `at` is the first bit of the leftmost field that lacks bits.
    #[error("frame too short")]
    Frame { frame: u64, at: u64 },
    /// There are no frames, or element 0 of the configuration is no preroll element (`ID_EXT_ELE_AUDIOPREROLL`).
    #[error("preroll not declared")]
    NotDeclared,
    /// The UsacConfig has more than 285 bytes, the most that a preroll can hold.
    #[error("configuration too long")]
    ConfigTooLong,
    /// The number of access units to carry is 0, or over 18.
    #[error("bad count")]
    BadCount,
    /// The target at this place of the list, counted from 0, is no frame of the stream, or not larger than the one before it.
    #[error("bad target {place}")]
    BadTarget { place: u64 },
    /// The target is not independent (usacIndependencyFlag).
    #[error("not independent")]
    NotIndependent { frame: u64 },
    /// Part 0 of the target is present, of any length.
    #[error("already present")]
    AlreadyPresent { frame: u64 },
    /// There are fewer frames before the target than access units to carry.
    #[error("too early")]
    TooEarly { frame: u64 },
    /// The first frame to carry is not independent.
    #[error("first unit not independent")]
    FirstDependent { frame: u64 },
    /// The preroll has more than 65,788 bytes, the most that an extension element can hold.
    #[error("payload too long")]
    PayloadTooLong { frame: u64 },
    /// The AudioMuxElement, with this target and those before it inserted, has more than 8191 bytes, the most that a LOAS frame
    /// can hold.
    #[error("too long")]
    TooLong { frame: u64 },
    /// There was no memory.
    #[error("out of memory")]
    Memory(AllocError),
}

impl From<AllocError> for InsertFault {
    ghost use Rattle.std.specs.Prelude.{◌≡◌};
    ghost use Rattle.ipf_insert.specs.declared.fault.InsertFault.TheVariants as faults;

    ghost from_gives = { λ s e. e ≡ faults.Memory s };

    fn from(fault: AllocError) -> InsertFault {
        InsertFault::Memory(fault)
    }
}

impl InsertFault {
    ghost use Rattle.std.specs.Prelude.{◌≡◌};
    ghost use Rattle.ipf_insert.specs.Faults.{of_frame};

    /// The refusal of that frame's access unit.
    pub fn of_frame(frame: u64, fault: FrameFault) -> InsertFault
        ensures { result ≡ of_frame frame fault }
    {
        match fault {
            FrameFault::Short { at } => InsertFault::Frame { frame, at },
            FrameFault::Memory(fault) => InsertFault::Memory(fault),
        }
    }
}
