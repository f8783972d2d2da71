ghost use Rattle.std.specs.Prelude.{◌≡◌};

use core_iface::CoreFault;
use preroll::CarryFault;
use std::alloc::AllocError;
use thiserror::Error;
use usac_frame::FrameFault;

/// Why a frame was not played.
///
/// The variants up to `TooFew` are rules, in the order in which they are tried; the answer is the first one that the frame
/// breaks. Behind it player, core and samples are as before, so another frame may be fed in its place. Behind `CoreFault` and
/// `Memory` the samples are as before, and the player has stopped: each further call answers `Stopped`.
#[derive(Debug, Drop, Error)]
pub enum PlayFault {
    /// The access unit is no frame of its configuration. `at` is the first bit of the leftmost field that lacks bits.
    #[error("frame too short")]
    FrameFault { at: u64 },
    /// The first frame has no preroll, or one of no bytes, and is not independent (usacIndependencyFlag).
    #[error("not independent")]
    NotIndependent,
    /// The configuration is another one, and has another rate.
    #[error("rate changed")]
    RateChanged,
    /// The configuration is another one, with the same rate, and has another number of channels.
    #[error("channels changed")]
    ChannelsChanged,
    /// The configuration is another one, or the first frame has a preroll with bytes; and the preroll breaks this rule first.
    #[error("the preroll breaks a rule")]
    Carry(CarryFault),
    /// The configuration is another one, and the preroll carries `have` units, which are fewer than the core's warm-up, `need`.
    #[error("too few units: {have} of {need}")]
    TooFew { have: u32, need: u32 },
    /// The core failed: its count of faults rose.
    #[error("core fault")]
    CoreFault,
    /// There was no memory.
    #[error("out of memory")]
    Memory(AllocError),
    /// An earlier call answered `CoreFault` or `Memory`.
    #[error("stopped")]
    Stopped,
}

impl From<FrameFault> for PlayFault {
    ghost use Rattle.switch_player.specs.Faults.{from_frame};

    ghost from_gives = { λ s e. e ≡ from_frame s };

    fn from(fault: FrameFault) -> PlayFault {
        match fault {
            FrameFault::Short { at } => PlayFault::FrameFault { at },
            FrameFault::Memory(error) => PlayFault::Memory(error),
        }
    }
}

impl From<CarryFault> for PlayFault {
    ghost use Rattle.switch_player.specs.Faults.{from_carry};

    ghost from_gives = { λ s e. e ≡ from_carry s };

    fn from(fault: CarryFault) -> PlayFault {
        match fault {
            CarryFault::Memory(error) => PlayFault::Memory(error),
            _ => PlayFault::Carry(fault),
        }
    }
}

impl From<CoreFault> for PlayFault {
    ghost use Rattle.switch_player.specs.Faults.{from_core};

    ghost from_gives = { λ s e. e ≡ from_core s };

    fn from(fault: CoreFault) -> PlayFault {
        match fault {
            CoreFault::Failed => PlayFault::CoreFault,
            CoreFault::Memory(error) => PlayFault::Memory(error),
        }
    }
}

impl From<AllocError> for PlayFault {
    ghost use Rattle.switch_player.specs.declared.fault.PlayFault.TheVariants as faults;

    ghost from_gives = { λ s e. e ≡ faults.Memory s };

    fn from(error: AllocError) -> PlayFault {
        PlayFault::Memory(error)
    }
}
