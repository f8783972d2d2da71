ghost use Rattle.std.specs.Prelude.{◌≡◌, ◌++◌, IfOk, OnOk, OnErr};
ghost use Rattle.layout.specs.Reading.{GivesUnless, ReadsUnless};

use crate::fault::MuxFault;
use crate::other_length::OtherLength;
use crate::reading::read_fields;
use crate::writing::write_fields;
use asc::Asc;
use bit_core::{BitReader, BitWriter};
use esc_value::LatmValue;
use std::alloc::{AllocError, Global};

/// A StreamMuxConfig of one program of one layer (ISO/IEC 14496-3).
///
/// Well formed where each number fits in its bits; `tara` and `asc_length` are there exactly for version 1, and then
/// `asc_length` counts the bits of the AudioSpecificConfig with its tail; in version 0 it has no tail; `other` is of the
/// kind of its version.
///
/// ```text
/// audioMuxVersion             1   0 or 1
/// audioMuxVersionA            1   for version 1: 0
/// taraBufferFullness              for version 1: LatmGetValue()
/// allStreamsSameTimeFraming   1   1
/// numSubFrames                6
/// numProgram                  4   0
/// numLayer                    3   0
/// ascLen                          for version 1: LatmGetValue(), a number of bits
/// AudioSpecificConfig             for version 1 in so many bits, up to 7 of them its tail
/// frameLengthType             3   0
/// latmBufferFullness          8
/// otherDataPresent            1
/// otherDataLenBits                where that is 1: LatmGetValue() for version 1, pairs for version 0
/// crcCheckPresent             1
/// crcCheckSum                 8   where that is 1
/// ```
#[derive(Debug, Drop)]
pub struct MuxConfig {
    /// `audioMuxVersion`, 0 or 1.
    pub version: u8,
    /// `taraBufferFullness`
    pub tara: Option<LatmValue>,
    /// `numSubFrames`, from 0 to 63: an element has one slot more.
    pub sub_frames: u8,
    /// `ascLen`, in bits.
    pub asc_length: Option<LatmValue>,
    pub asc: Asc,
    /// `latmBufferFullness`, from 0 to 255.
    pub fullness: u8,
    /// The number of bits of other data behind the slots, where `otherDataPresent` is 1.
    pub other: Option<OtherLength>,
    /// `crcCheckSum`, where `crcCheckPresent` is 1. It is kept, and compared with nothing.
    pub crc: Option<u8>,
}

impl MuxConfig {
    ghost use Rattle.latm.specs.MuxConfig.{IsWellFormed, mux_config};
    ghost use Rattle.latm.specs.Faults.{is_memory};

    /// Reads a configuration, which is well formed.
    ///
    /// Errors: the fault of the leftmost field at fault, at its first bit, or out of memory; the reader stays where it was.
    /// The whole length of other data is one field, refused as soon as its number exceeds 65,535. Where `ascLen` exceeds the
    /// bits that are left, they are too few at the first bit behind it; else so many bits are judged by themselves.
    pub fn read(alloc: Global, reader: &mut BitReader) -> Result<MuxConfig, MuxFault>
        ensures reads { ReadsUnless is_memory mux_config reader.old reader.new result }

        // For the proofs of the readers above.
        ensures exact { GivesUnless is_memory mux_config reader.old reader.new result }
    {
        let start = reader.at();
        match read_fields(alloc, reader) {
            Ok(config) => Ok(config),
            Err(fault) => {
                reader.back_to(start);
                Err(fault)
            }
        }
    }

    /// Writes a well formed configuration.
    ///
    /// Errors: out of memory; nothing is written.
    #[tactic(auto, using(bit_core::proofs::Writing::extends_cut, bit_core::proofs::Writing::extends_long))]
    pub fn write(&self, writer: &mut BitWriter) -> Result<(), AllocError>
        requires { IsWellFormed self.now }
        ensures ok { OnOk result (writer.new ≡ writer.old ++ mux_config.spelling self.now) }
        ensures err { OnErr result (writer.new ≡ writer.old) }
    {
        let start = writer.len();
        match write_fields(self, writer) {
            Ok(()) => Ok(()),
            Err(fault) => {
                writer.truncate(start);
                Err(fault)
            }
        }
    }

    /// A copy. The one error is out of memory.
    pub fn copy(&self, alloc: Global) -> Result<MuxConfig, AllocError>
        ensures { IfOk result (λ copied. copied ≡ self.now) }
    {
        let asc = self.asc.copy(alloc)?;
        Ok(MuxConfig {
            version: self.version,
            tara: self.tara,
            sub_frames: self.sub_frames,
            asc_length: self.asc_length,
            asc,
            fullness: self.fullness,
            other: self.other,
            crc: self.crc,
        })
    }
}
