ghost use Rattle.std.specs.Prelude.{◌≡◌};

use bit_core::{ReadFault, Short};
use std::alloc::AllocError;
use thiserror::Error;

/// Why a configuration was not read. `at` is the first bit of the field at fault, counted from the first bit of the slice
/// that the reader was made over; the fault is that of the leftmost field.
#[derive(Debug, Drop, Error)]
pub enum CfgFault {
    /// The field has fewer bits than it needs.
    #[error("configuration too short")]
    Short { at: u64 },
    /// usacSamplingFrequencyIndex is 13, 14 or from 28 to 30.
    #[error("reserved rate index")]
    RateReserved { at: u64 },
    /// usacSamplingFrequency is 0.
    #[error("rate zero")]
    RateZero { at: u64 },
    /// coreSbrFrameLengthIndex is above 4.
    #[error("reserved frame length index")]
    FrameReserved { at: u64 },
    /// channelConfigurationIndex is above 13.
    #[error("reserved channel index")]
    ChannelReserved { at: u64 },
    /// numOutChannels is 0.
    #[error("no channels")]
    NoChannels { at: u64 },
    /// numOutChannels is above 64.
    #[error("too many channels")]
    TooManyChannels { at: u64 },
    /// There are more than 64 elements. The field is numElements, less one.
    #[error("too many elements")]
    TooManyElements { at: u64 },
    /// There was no memory.
    #[error("out of memory")]
    Memory(AllocError),
}

impl From<Short> for CfgFault {
    ghost use Rattle.usac_cfg.specs.Faults.{from_short};

    ghost from_gives = { λ s e. e ≡ from_short s };

    fn from(fault: Short) -> CfgFault {
        CfgFault::Short { at: fault.at }
    }
}

impl From<ReadFault> for CfgFault {
    ghost use Rattle.usac_cfg.specs.Faults.{from_read};

    ghost from_gives = { λ s e. e ≡ from_read s };

    fn from(fault: ReadFault) -> CfgFault {
        match fault {
            ReadFault::Short(short) => CfgFault::from(short),
            ReadFault::Memory(fault) => CfgFault::Memory(fault),
        }
    }
}

impl From<AllocError> for CfgFault {
    ghost use Rattle.usac_cfg.specs.declared.faults.CfgFault.TheVariants as faults;

    ghost from_gives = { λ a e. e ≡ faults.Memory a };

    fn from(fault: AllocError) -> CfgFault {
        CfgFault::Memory(fault)
    }
}
