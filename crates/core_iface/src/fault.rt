ghost use Rattle.std.specs.Prelude.{◌≡◌};

use std::alloc::AllocError;
use thiserror::Error;

/// Why a core did not do what it was asked.
#[derive(Debug, Drop, Error)]
pub enum CoreFault {
    /// The core failed; its count of faults rose.
    #[error("core fault")]
    Failed,
    #[error("out of memory")]
    Memory(AllocError),
}

impl From<AllocError> for CoreFault {
    ghost use Rattle.core_iface.specs.declared.fault.CoreFault.TheVariants.{Memory};

    ghost from_gives = { λ fault result. result ≡ Memory fault };

    fn from(fault: AllocError) -> CoreFault {
        CoreFault::Memory(fault)
    }
}
