use std::alloc::AllocError;
use thiserror::Error;

/// Why a call of a device did not do what was asked.
#[derive(Debug, Drop, Error)]
pub enum DeviceFault {
    /// The device refused. Its count of faults rose in this call.
    #[error("the device failed")]
    Failed,
    /// Out of memory. The count of faults is as before.
    #[error("out of memory")]
    Memory(AllocError),
}

impl From<AllocError> for DeviceFault {
    ghost use Rattle.std.specs.Prelude.{◌≡◌};
    ghost use Rattle.outside.specs.declared.fault.DeviceFault.TheVariants.{Memory};

    ghost from_gives = { λ want fault. fault ≡ Memory want };

    fn from(want: AllocError) -> DeviceFault {
        DeviceFault::Memory(want)
    }
}
