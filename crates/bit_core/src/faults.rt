ghost use Rattle.std.specs.Prelude.{◌≡◌};

use std::alloc::AllocError;
use thiserror::Error;

/// A field has fewer bits than it needs. `at` is the field's first bit, counted from the first bit of the slice that the
/// reader was made over.
#[derive(Clone, Copy, Debug, PartialEq, Eq, Error)]
#[error("too few bits")]
pub struct Short {
    pub at: u64,
}

/// Why bytes or bits were not taken.
#[derive(Debug, Drop, Error)]
pub enum ReadFault {
    /// Fewer bits are left than asked for.
    #[error("too few bits")]
    Short(Short),
    /// There was no memory for them.
    #[error("out of memory")]
    Memory(AllocError),
}

impl From<Short> for ReadFault {
    ghost use Rattle.bit_core.specs.declared.faults.ReadFault.TheVariants as faults;

    ghost from_gives = { λ s e. e ≡ faults.Short s };

    fn from(fault: Short) -> ReadFault {
        ReadFault::Short(fault)
    }
}

impl From<AllocError> for ReadFault {
    ghost use Rattle.bit_core.specs.declared.faults.ReadFault.TheVariants as faults;

    ghost from_gives = { λ a e. e ≡ faults.Memory a };

    fn from(fault: AllocError) -> ReadFault {
        ReadFault::Memory(fault)
    }
}
