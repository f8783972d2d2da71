ghost use Rattle.std.specs.Prelude.{◌≡◌};

use bit_core::{ReadFault, Short};
use std::alloc::AllocError;
use thiserror::Error;

/// Why an access unit was not read. `at` is the first bit of the field at fault, counted from the first bit of the access
/// unit; the fault is that of the leftmost field.
#[derive(Debug, Drop, Error)]
pub enum FrameFault {
    /// The field has fewer bits than it needs.
    #[error("frame too short")]
    Short { at: u64 },
    /// There was no memory.
    #[error("out of memory")]
    Memory(AllocError),
}

impl From<Short> for FrameFault {
    ghost use Rattle.usac_frame.specs.Faults.{from_short};

    ghost from_gives = { λ s e. e ≡ from_short s };

    fn from(fault: Short) -> FrameFault {
        FrameFault::Short { at: fault.at }
    }
}

impl From<ReadFault> for FrameFault {
    ghost use Rattle.usac_frame.specs.Faults.{from_read};

    ghost from_gives = { λ s e. e ≡ from_read s };

    fn from(fault: ReadFault) -> FrameFault {
        match fault {
            ReadFault::Short(short) => FrameFault::from(short),
            ReadFault::Memory(fault) => FrameFault::Memory(fault),
        }
    }
}

impl From<AllocError> for FrameFault {
    ghost use Rattle.usac_frame.specs.declared.fault.FrameFault.TheVariants as faults;

    ghost from_gives = { λ a e. e ≡ faults.Memory a };

    fn from(fault: AllocError) -> FrameFault {
        FrameFault::Memory(fault)
    }
}
