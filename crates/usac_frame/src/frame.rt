ghost use Rattle.std.specs.Prelude.{◌≡◌, ◌≤◌, length, IfOk};
ghost use Rattle.layout.specs.Reading.{ReadsText};
ghost use Rattle.layout.specs.Text.{bits_of, pad};
ghost use Rattle.usac_frame.specs.Faults.{is_memory};
ghost use Rattle.usac_frame.specs.Frame.{FitsConfig, frame, frame_text};

use crate::fault::FrameFault;
use crate::part::Parts;
use crate::reading::read_fields;
use crate::writing::write_fields;
use bit_core::{BitReader, BitWriter, Bits, Octets};
use std::alloc::{AllocError, Global};
use usac_cfg::UsacConfig;

/// An access unit, as far as it is looked at (ISO/IEC 23003-3, UsacFrame).
///
/// It fits a configuration where it has one part for each leading extension element, each of which fits its element.
///
/// ```text
/// // a configuration whose element 0 is a preroll, and the access unit 1010 0000
/// let frame = read_frame(alloc, &config, &[0xA0])?;
/// frame.independent     // true
/// frame.leading         // one part, which is Absent
/// frame.rest            // 100000
/// ```
///
/// ```text
/// usacIndependencyFlag               1
/// for each leading extension element:
///   usacExtElementPresent            1    where this is 0, the part ends
///   usacExtElementUseDefaultLength   1
///   usacExtElementPayloadLength      8    where that is 0; 255: the 16 bits behind it say the length
///                                    16   where these are 255: the length, less 253
///   usacExtElementStart              1    where the length is over 0 and usacExtElementPayloadFrag is 1
///   usacExtElementStop               1    there too
///   usacExtElementSegmentData        8    for each byte of the length
/// the rest                                all bits to the end
/// ```
#[derive(Debug, Drop)]
pub struct Frame {
    /// usacIndependencyFlag: the frame can be decoded without the frames before it.
    pub independent: bool,
    /// The leading extension elements: those before the first other element.
    pub leading: Parts,
    /// All bits behind them.
    pub rest: Bits,
}

/// Reads an access unit of at most 16,777,216 bytes as a frame that fits the configuration. All bits of it are the frame.
///
/// Errors: `Short` at the first bit of the leftmost field that lacks bits, exactly where the access unit is no such frame;
/// or out of memory.
pub fn read_frame(alloc: Global, config: &UsacConfig, au: &[u8]) -> Result<Frame, FrameFault>
    requires { length au.now ≤ 16777216 }
    ensures { ReadsText is_memory (frame config.now) (bits_of au.now) result }
{
    let mut reader = BitReader::new(au);
    read_fields(alloc, config, &mut reader)
}

/// Writes a frame that fits the configuration: the bytes of its spelling, with the fewest zero bits that fill the last byte.
///
/// Errors: out of memory.
pub fn write_frame(alloc: Global, config: &UsacConfig, frame: &Frame) -> Result<Octets, AllocError>
    requires { FitsConfig config.now frame.now }
    ensures { IfOk result (λ bytes. bits_of bytes ≡ pad (frame_text config.now frame.now)) }
{
    let mut writer = BitWriter::new(alloc);
    write_fields(config, frame, &mut writer)?;
    writer.finish()
}
