// Why a frame was not handled.
ghost use Rattle.std.specs.Prelude.{◌≡◌};

use core_iface::CoreFault;
use outside::DeviceFault;
use std::alloc::AllocError;
use thiserror::Error;
use tool_text::{Place, Reason, Refusal};

/// Why a frame was not handled.
#[derive(Debug, Drop, Error)]
pub enum FrameEnd {
    #[error("refused")]
    Refused(Refusal),
    #[error("write fault")]
    WriteFault,
    #[error("core fault")]
    CoreFault,
    #[error("out of memory")]
    Memory(AllocError),
}

impl From<CoreFault> for FrameEnd {
    ghost use Rattle.commands.specs.OneFrame.{from_core};

    ghost from_gives = { λ s e. e ≡ from_core s };

    fn from(fault: CoreFault) -> FrameEnd {
        match fault {
            CoreFault::Failed => FrameEnd::CoreFault,
            CoreFault::Memory(error) => FrameEnd::Memory(error),
        }
    }
}

impl From<DeviceFault> for FrameEnd {
    ghost use Rattle.commands.specs.OneFrame.{from_device};

    ghost from_gives = { λ s e. e ≡ from_device s };

    fn from(fault: DeviceFault) -> FrameEnd {
        match fault {
            DeviceFault::Failed => FrameEnd::WriteFault,
            DeviceFault::Memory(error) => FrameEnd::Memory(error),
        }
    }
}

impl From<AllocError> for FrameEnd {
    ghost use Rattle.commands.specs.declared.frame_end.FrameEnd.TheVariants as ends;

    ghost from_gives = { λ s e. e ≡ ends.Memory s };

    fn from(error: AllocError) -> FrameEnd {
        FrameEnd::Memory(error)
    }
}

/// How a command ends at the frame with that number, which lacks bits from that bit on.
pub fn too_short(number: u64, at: u64) -> FrameEnd
    ensures { result ≡ FrameEnd.Refused (record { place = Place.FrameBit number at; reason = Reason.FrameTooShort }) }
{
    FrameEnd::Refused(Refusal {
        place: Place::FrameBit {
            frame: number,
            bit: at,
        },
        reason: Reason::FrameTooShort,
    })
}
