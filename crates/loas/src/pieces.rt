// A whole stream in pieces.
ghost use Rattle.loas.specs.Pieces.{joined, IsRead, TakesAll};
ghost use Rattle.std.specs.Prelude.{◌<◌, ◌^◌, length, IfOk, OnOk};

use crate::fault::LoasFault;
use crate::framed::Framed;
use crate::framer::Loas;
use bit_core::Octets;
use std::alloc::{AllocError, Global};

/// The frames of a stream, and why no more follow.
#[derive(Debug, Drop)]
pub struct StreamFrames {
    pub frames: Vec<Framed>,
    /// None where the stream ends behind its last frame.
    pub fault: Option<LoasFault>,
}

/// The frames of the stream that comes in these pieces: each piece is pushed, and all frames are taken that are whole
/// then. The answer is told by the joined bytes alone, however they are cut. The one error is out of memory.
pub fn frames_of(alloc: Global, pieces: &[Octets]) -> Result<StreamFrames, AllocError>
    requires { length (joined pieces.now) < 2 ^ 63 }
    ensures { IfOk result (λ found. IsRead (joined pieces.now) found) }
{
    let mut framer = Loas::new(alloc);
    let mut frames = Vec::new(alloc);
    for piece in pieces {
        framer.push(piece.as_slice())?;
        take_all(alloc, &mut framer, &mut frames)?;
    }
    let fault = match framer.end() {
        Ok(()) => None,
        Err(fault) => Some(fault),
    };
    Ok(StreamFrames { frames, fault })
}

// Takes all frames that are held, behind those that were had.
fn take_all(alloc: Global, framer: &mut Loas, frames: &mut Vec<Framed>) -> Result<(), AllocError>
    ensures { OnOk result (TakesAll framer.old.framer framer.new.framer frames.old.items frames.new.items) }
{
    'frames: loop {
        match framer.next(alloc) {
            Ok(Some(frame)) => frames.push(frame)?,
            Ok(None) => return Ok(()),
            Err(LoasFault::Memory(error)) => return Err(error),
            Err(LoasFault::SyncLost { .. } | LoasFault::Truncated { .. }) => return Ok(()),
        }
    }
}
