ghost use Rattle.std.specs.Prelude.{◌≡◌};

use bit_core::{ReadFault, Short};
use std::alloc::AllocError;
use thiserror::Error;
use usac_cfg::CfgFault;

/// Why an AudioSpecificConfig was not read. `at` is the first bit of the field at fault, counted from the first bit of the
/// slice that the reader was made over; the fault is that of the leftmost field.
#[derive(Debug, Drop, Error)]
pub enum AscFault {
    /// The field has fewer bits than it needs.
    #[error("configuration too short")]
    Short { at: u64 },
    /// The object type is another one than 42.
    #[error("not USAC")]
    NotUsac { at: u64, kind: u32 },
    /// UsacConfig was not read, for this reason, which is never out of memory.
    #[error("bad configuration")]
    Cfg(CfgFault),
    /// More than 7 bits stand behind UsacConfig in a counted text. The field begins there.
    #[error("configuration tail too long")]
    TailTooLong { at: u64 },
    /// There was no memory.
    #[error("out of memory")]
    Memory(AllocError),
}

impl From<Short> for AscFault {
    ghost use Rattle.asc.specs.Faults.{from_short};

    ghost from_gives = { λ s e. e ≡ from_short s };

    fn from(fault: Short) -> AscFault {
        AscFault::Short { at: fault.at }
    }
}

impl From<ReadFault> for AscFault {
    ghost use Rattle.asc.specs.Faults.{from_read};

    ghost from_gives = { λ s e. e ≡ from_read s };

    fn from(fault: ReadFault) -> AscFault {
        match fault {
            ReadFault::Short(short) => AscFault::from(short),
            ReadFault::Memory(fault) => AscFault::Memory(fault),
        }
    }
}

impl From<CfgFault> for AscFault {
    ghost use Rattle.asc.specs.Faults.{from_cfg};

    ghost from_gives = { λ s e. e ≡ from_cfg s };

    fn from(fault: CfgFault) -> AscFault {
        match fault {
            CfgFault::Memory(fault) => AscFault::Memory(fault),
            fault => AscFault::Cfg(fault),
        }
    }
}

impl From<AllocError> for AscFault {
    ghost use Rattle.asc.specs.declared.fault.AscFault.TheVariants as faults;

    ghost from_gives = { λ a e. e ≡ faults.Memory a };

    fn from(fault: AllocError) -> AscFault {
        AscFault::Memory(fault)
    }
}
