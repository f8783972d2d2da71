ghost use Rattle.std.specs.Prelude.{◌≡◌};

use asc::AscFault;
use bit_core::{ReadFault, Short};
use std::alloc::AllocError;
use thiserror::Error;

/// A field of StreamMuxConfig of which this profile takes some values alone.
#[derive(Clone, Copy, Debug, PartialEq, Eq)]
pub enum MuxField {
    /// `audioMuxVersionA`, which is 0.
    AudioMuxVersionA,
    /// `allStreamsSameTimeFraming`, which is 1.
    AllStreamsSameTimeFraming,
    /// `numProgram`, which is 0: one program.
    NumProgram,
    /// `numLayer`, which is 0: one layer.
    NumLayer,
    /// `frameLengthType`, which is 0.
    FrameLengthType,
    /// `otherDataLenBits`, which is at most 65,535.
    OtherDataLenBits,
}

/// Why an element or a configuration was not read. `at` is the first bit of the field at fault, counted from the first bit
/// of the slice that the reader was made over; the fault is that of the leftmost field.
#[derive(Debug, Drop, Error)]
pub enum MuxFault {
    /// `useSameStreamMux` is 1, and no configuration is in force.
    #[error("no configuration")]
    NoConfig,
    /// The field has a value that this profile does not take.
    #[error("out of profile")]
    OutOfProfile { at: u64, field: MuxField },
    /// The field has fewer bits than it needs.
    #[error("mux too short")]
    Short { at: u64 },
    /// The AudioSpecificConfig was not read, for this reason, which is never out of memory.
    #[error("bad configuration")]
    Asc(AscFault),
    /// There was no memory.
    #[error("out of memory")]
    Memory(AllocError),
}

impl From<Short> for MuxFault {
    ghost use Rattle.latm.specs.Faults.{from_short};

    ghost from_gives = { λ s e. e ≡ from_short s };

    fn from(fault: Short) -> MuxFault {
        MuxFault::Short { at: fault.at }
    }
}

impl From<ReadFault> for MuxFault {
    ghost use Rattle.latm.specs.Faults.{from_read};

    ghost from_gives = { λ s e. e ≡ from_read s };

    fn from(fault: ReadFault) -> MuxFault {
        match fault {
            ReadFault::Short(short) => MuxFault::from(short),
            ReadFault::Memory(fault) => MuxFault::Memory(fault),
        }
    }
}

impl From<AscFault> for MuxFault {
    ghost use Rattle.latm.specs.Faults.{from_asc};

    ghost from_gives = { λ s e. e ≡ from_asc s };

    fn from(fault: AscFault) -> MuxFault {
        match fault {
            AscFault::Memory(fault) => MuxFault::Memory(fault),
            fault => MuxFault::Asc(fault),
        }
    }
}

impl From<AllocError> for MuxFault {
    ghost use Rattle.latm.specs.declared.fault.MuxFault.TheVariants as faults;

    ghost from_gives = { λ a e. e ≡ faults.Memory a };

    fn from(fault: AllocError) -> MuxFault {
        MuxFault::Memory(fault)
    }
}

/// Why an element was not written.
#[derive(Debug, Drop, Error)]
pub enum WriteFault {
    /// The element would have more than 8191 bytes.
    #[error("too long")]
    TooLong,
    /// There was no memory.
    #[error("out of memory")]
    Memory(AllocError),
}

impl From<AllocError> for WriteFault {
    ghost use Rattle.latm.specs.declared.fault.WriteFault.TheVariants as faults;

    ghost from_gives = { λ a e. e ≡ faults.Memory a };

    fn from(fault: AllocError) -> WriteFault {
        WriteFault::Memory(fault)
    }
}
