// Why a stream gives no next frame.
ghost use Rattle.loas.specs.declared.fault.LoasFault.TheVariants.{Memory};
ghost use Rattle.std.specs.Prelude.{◌≡◌};

use std::alloc::AllocError;
use thiserror::Error;

/// Why a stream gives no next frame. Places are offsets in bytes from the beginning of the stream.
#[derive(Debug, Drop, Error)]
pub enum LoasFault {
    /// What stands at `byte`, where a frame is due, does not begin with the syncword.
    #[error("sync lost")]
    SyncLost { byte: u64 },
    /// The stream ends within the frame that begins at `byte`.
    #[error("truncated")]
    Truncated { byte: u64 },
    /// There was no memory for the bytes of a frame.
    #[error("out of memory")]
    Memory(AllocError),
}

impl From<AllocError> for LoasFault {
    ghost from_gives = { λ error fault. fault ≡ Memory error };

    fn from(error: AllocError) -> LoasFault {
        LoasFault::Memory(error)
    }
}
