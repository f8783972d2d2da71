// Why a source gives no next frame.
ghost use Rattle.std.specs.Prelude.{◌≡◌};
ghost use Rattle.au_stream.specs.declared.fault.StreamFault.TheVariants.{Memory};
ghost use Rattle.au_stream.specs.Giving.{refused_element};

use latm::MuxFault;
use loas::LoasFault;
use std::alloc::AllocError;
use thiserror::Error;

/// Why a source gives no next frame, other than that it ends behind its last one.
#[derive(Debug, Drop, Error)]
pub enum StreamFault {
    /// The source failed. Its count of faults rose.
    #[error("read fault")]
    ReadFault,
    /// The source has more than 268,435,456 bytes.
    #[error("too large")]
    TooLarge,
    /// No LOAS frame stands where one is due, or the source ends within it. It is never out of memory.
    #[error("bad framing")]
    Loas(LoasFault),
    /// The element whose first access unit has the number `frame`, counted from 0 over the source, is not read, for a
    /// reason that is never out of memory. Its places count from the first bit of the element.
    #[error("bad element")]
    Mux { frame: u64, fault: MuxFault },
    /// There was no memory.
    #[error("out of memory")]
    Memory(AllocError),
}

impl From<AllocError> for StreamFault {
    ghost from_gives = { λ error fault. fault ≡ Memory error };

    fn from(error: AllocError) -> StreamFault {
        StreamFault::Memory(error)
    }
}

/// Why the element of the frame with that number is not read.
pub fn refused(frame: u64, fault: MuxFault) -> StreamFault
    ensures { result ≡ refused_element frame fault }
{
    match fault {
        MuxFault::Memory(error) => StreamFault::Memory(error),
        fault => StreamFault::Mux { frame, fault },
    }
}
