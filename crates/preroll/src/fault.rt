ghost use Rattle.std.specs.Prelude.{◌≡◌};

use bit_core::{ReadFault, Short};
use std::alloc::AllocError;
use thiserror::Error;
use usac_cfg::CfgFault;
use usac_frame::FrameFault;

/// Why a preroll was not read. `at` is the first bit of the leftmost field that lacks bits, counted from the first bit of the
/// payload.
#[derive(Debug, Drop, Error)]
pub enum PreFault {
    /// The field has fewer bits than it needs.
    #[error("preroll too short")]
    Short { at: u64 },
    /// There was no memory.
    #[error("out of memory")]
    Memory(AllocError),
}

impl From<Short> for PreFault {
    ghost use Rattle.preroll.specs.Faults.{from_short};

    ghost from_gives = { λ s e. e ≡ from_short s };

    fn from(fault: Short) -> PreFault {
        PreFault::Short { at: fault.at }
    }
}

impl From<ReadFault> for PreFault {
    ghost use Rattle.preroll.specs.Faults.{from_read};

    ghost from_gives = { λ s e. e ≡ from_read s };

    fn from(fault: ReadFault) -> PreFault {
        match fault {
            ReadFault::Short(short) => PreFault::from(short),
            ReadFault::Memory(fault) => PreFault::Memory(fault),
        }
    }
}

impl From<AllocError> for PreFault {
    ghost use Rattle.preroll.specs.declared.fault.PreFault.TheVariants as faults;

    ghost from_gives = { λ a e. e ≡ faults.Memory a };

    fn from(fault: AllocError) -> PreFault {
        PreFault::Memory(fault)
    }
}

/// Why a frame carries no units: the first of eight rules that it breaks, in the order of the variants. `k` is the number of a
/// carried access unit, counted from 0.
#[derive(Debug, Drop, Error)]
pub enum CarryFault {
    /// No preroll is declared, or it has no bytes.
    #[error("no preroll")]
    NotImmediate,
    /// The preroll does not begin or does not end in the frame.
    #[error("preroll split")]
    Split,
    /// The payload is no AudioPreRoll: bits are missing at this bit of it.
    #[error("bad preroll")]
    BadPreroll { at: u64 },
    /// The configuration is not empty, and is no UsacConfig with at most 7 further bits.
    #[error("bad preroll configuration")]
    BadConfig,
    /// The configuration is not empty, and another one than the frame's.
    #[error("preroll configuration differs")]
    ConfigDiffers,
    /// The access unit is no frame: bits are missing at this bit of it.
    #[error("bad carried unit")]
    BadUnit { k: u32, at: u64 },
    /// The access unit has a preroll itself.
    #[error("nested preroll")]
    Nested { k: u32 },
    /// The first access unit is not independent; or there is none, and the frame is not independent.
    #[error("first unit not independent")]
    FirstDependent,
    /// There was no memory.
    #[error("out of memory")]
    Memory(AllocError),
}

impl From<PreFault> for CarryFault {
    ghost use Rattle.preroll.specs.Faults.{from_preroll};

    ghost from_gives = { λ s e. e ≡ from_preroll s };

    fn from(fault: PreFault) -> CarryFault {
        match fault {
            PreFault::Short { at } => CarryFault::BadPreroll { at },
            PreFault::Memory(fault) => CarryFault::Memory(fault),
        }
    }
}

impl From<CfgFault> for CarryFault {
    ghost use Rattle.preroll.specs.Faults.{from_config};

    ghost from_gives = { λ s e. e ≡ from_config s };

    fn from(fault: CfgFault) -> CarryFault {
        match fault {
            CfgFault::Memory(fault) => CarryFault::Memory(fault),
            _ => CarryFault::BadConfig,
        }
    }
}

impl From<AllocError> for CarryFault {
    ghost use Rattle.preroll.specs.declared.fault.CarryFault.TheVariants as faults;

    ghost from_gives = { λ a e. e ≡ faults.Memory a };

    fn from(fault: AllocError) -> CarryFault {
        CarryFault::Memory(fault)
    }
}

impl CarryFault {
    ghost use Rattle.preroll.specs.Faults.{of_unit};

    /// The fault of carried access unit k.
    pub fn of_unit(k: u32, fault: FrameFault) -> CarryFault
        ensures { result ≡ of_unit k fault }
    {
        match fault {
            FrameFault::Short { at } => CarryFault::BadUnit { k, at },
            FrameFault::Memory(fault) => CarryFault::Memory(fault),
        }
    }
}
