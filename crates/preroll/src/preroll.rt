ghost use Rattle.std.specs.Prelude.{◌≡◌, ◌≤◌, length, IfOk};
ghost use Rattle.layout.specs.Reading.{ReadsText};
ghost use Rattle.layout.specs.Text.{bits_of, pad};
ghost use Rattle.preroll.specs.Faults.{is_memory};
ghost use Rattle.preroll.specs.PreRoll.{IsWellFormed, preroll, preroll_text};

use crate::fault::PreFault;
use crate::reading::read_fields;
use crate::writing::write_fields;
use bit_core::{BitReader, BitWriter, Bits, Items, Octets};
use std::alloc::{AllocError, Global};

/// The access units of a preroll, as they are spelled.
pub type UnitBytes = Items<Octets>;

/// The payload of a preroll element (ISO/IEC 23003-3, AudioPreRoll).
///
/// Well formed where it has at most 285 bytes of configuration, at most 18 access units, and at most 131,070 bytes in each.
///
/// ```text
/// // no configuration, no crossfade, one access unit of one byte
/// let preroll = read_preroll(alloc, &[0x01, 0x00, 0x01, 0x80])?;
/// preroll.units     // one access unit, 80
/// preroll.tail      // no bits
/// ```
///
/// ```text
/// configLen          escapedValue(4, 4, 8)
/// Config             8 for each byte of the length
/// applyCrossfade     1
/// reserved           1
/// numPreRollFrames   escapedValue(2, 4, 0)
/// for each of them:
///   auLen            escapedValue(16, 16, 0)
///   AccessUnit       8 for each byte of the length
/// the tail           all bits to the end
/// ```
#[derive(Debug, Drop)]
pub struct PreRoll {
    /// The configuration: a UsacConfig and up to 7 bits behind it, or empty, where it is the frame's.
    pub config: Octets,
    /// applyCrossfade: what was decoded before the frame is blended into it.
    pub fade: bool,
    /// The reserved bit.
    pub reserved: bool,
    /// The access units before the frame.
    pub units: UnitBytes,
    /// All bits behind them, up to the payload's end.
    pub tail: Bits,
}

/// Reads a payload of at most 16,777,216 bytes. All bits of it are the preroll, which is well formed.
///
/// Errors: `Short` at the first bit of the leftmost field that lacks bits, exactly where the payload is no preroll; or want of
/// memory.
pub fn read_preroll(alloc: Global, payload: &[u8]) -> Result<PreRoll, PreFault>
    requires { length payload.now ≤ 16777216 }
    ensures { ReadsText is_memory preroll (bits_of payload.now) result }
{
    let mut reader = BitReader::new(payload);
    read_fields(alloc, &mut reader)
}

/// Writes a well formed preroll: the bytes of its spelling, with the fewest zero bits that fill the last byte.
///
/// Errors: out of memory.
pub fn write_preroll(alloc: Global, preroll: &PreRoll) -> Result<Octets, AllocError>
    requires { IsWellFormed preroll.now }
    ensures { IfOk result (λ bytes. bits_of bytes ≡ pad (preroll_text preroll.now)) }
{
    let mut writer = BitWriter::new(alloc);
    write_fields(preroll, &mut writer)?;
    writer.finish()
}
