ghost use Rattle.std.specs.Prelude.{◌≡◌};

use std::alloc::AllocError;
use thiserror::Error;

/// Why a number that escapes was not written.
#[derive(Debug, Drop, Error)]
pub enum EscFault {
    /// The fields can't hold a number as large as this.
    #[error("the number is too large")]
    TooLarge,
    /// There was no memory for its bits.
    #[error("out of memory")]
    Memory(AllocError),
}

impl From<AllocError> for EscFault {
    ghost use Rattle.esc_value.specs.declared.fault.EscFault.TheVariants as faults;

    ghost from_gives = { λ a e. e ≡ faults.Memory a };

    fn from(fault: AllocError) -> EscFault {
        EscFault::Memory(fault)
    }
}
