// The three header bytes of a frame, and the frame at the front of some bytes.
ghost use Rattle.std.specs.Prelude.{◌≡◌, ◌≤◌, length, IfOk};
ghost use Rattle.loas.specs.Framing.{framed};
ghost use Rattle.loas.specs.Front.{Shows};

use bit_core::Octets;
use std::alloc::{AllocError, Global};

const SYNC: u8 = 0x56;

const SYNC_TAIL: u8 = 0xE0;

/// The LOAS frame of at most 8191 bytes. The one error is out of memory.
///
/// | ISO/IEC 14496-3, AudioSyncStream | bits | |
/// |---|---|---|
/// | syncword | 11 | 0x2B7 |
/// | audioMuxLengthBytes | 13 | how many bytes of AudioMuxElement follow |
///
/// So the three header bytes are 0x56, 0xE0 + length / 256 and length % 256.
pub fn with_header(alloc: Global, body: &[u8]) -> Result<Octets, AllocError>
    requires { length body.now ≤ 8191 }
    ensures { IfOk result (λ bytes. bytes ≡ framed body.now) }
{
    let length = body.len();
    let mut bytes = Vec::with_capacity(alloc, 3 + length)?;
    bytes.push(SYNC)?;
    bytes.push(SYNC_TAIL + (length / 256) as u8)?;
    bytes.push((length % 256) as u8)?;
    bytes.extend_from_slice(body)?;
    Ok(Octets::from_vec(bytes))
}

/// What stands at the front of some bytes.
#[derive(Clone, Copy, Debug, PartialEq, Eq)]
pub enum Front {
    /// A whole frame, with that many bytes behind its header.
    Frame(usize),
    /// Less than a frame, or nothing.
    Part,
    /// No frame, however the bytes go on.
    Lost,
}

/// What stands at the front of the bytes.
pub fn front_of(bytes: &[u8]) -> Front
    ensures { Shows bytes.now result }
{
    match bytes {
        [] => Front::Part,
        [first, ..] if *first != SYNC => Front::Lost,
        [_] => Front::Part,
        [_, second, ..] if *second < SYNC_TAIL => Front::Lost,
        [_, _] => Front::Part,
        [_, second, third, body @ ..] => {
            let length = usize::from(*second - SYNC_TAIL) * 256 + usize::from(*third);
            if body.len() < length {
                Front::Part
            } else {
                Front::Frame(length)
            }
        }
    }
}
