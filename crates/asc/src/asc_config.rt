ghost use Rattle.std.specs.Prelude.{◌≡◌, ◌++◌, OnOk, OnErr, IfOk};
ghost use Rattle.layout.specs.Reading.{GivesUnless, ReadsUnless, ReadsAllUnless};

use crate::fault::AscFault;
use crate::reading::{read_counted_fields, read_plain_fields};
use crate::writing::write_fields;
use bit_core::{BitReader, BitWriter, Bits};
use std::alloc::{AllocError, Global};
use usac_cfg::UsacConfig;

/// An AudioSpecificConfig of object type 42 (ISO/IEC 14496-3). Its own rate and channels are kept and compared with
/// nothing: the rate of a stream is that of its UsacConfig.
///
/// Well formed where each number fits in its bits, `explicit_rate` is 0 where `index` is not 15, `usac` is well formed and
/// `tail` has at most 7 bits.
///
/// ```text
/// audioObjectType          5   31: the escape
/// audioObjectTypeExt       6   10: the type is 32 + 10, USAC
/// samplingFrequencyIndex   4
/// samplingFrequency        24  where the index is 15
/// channelConfiguration     4
/// UsacConfig
/// the tail                     in a counted text: up to 7 bits, to its end
/// ```
#[derive(Debug, Drop)]
pub struct Asc {
    /// `samplingFrequencyIndex`, from 0 to 15.
    pub index: u8,
    /// `samplingFrequency` in Hz, up to 16,777,215, where the index is 15; else 0.
    pub explicit_rate: u32,
    /// `channelConfiguration`, from 0 to 15.
    pub channels: u8,
    pub usac: UsacConfig,
    /// The bits behind UsacConfig in a counted text, at most 7; none elsewhere.
    pub tail: Bits,
}

impl Asc {
    ghost use Rattle.asc.specs.Asc.{IsWellFormed, asc, asc_counted, asc_text};
    ghost use Rattle.asc.specs.Faults.{is_memory};

    /// Reads a configuration up to the end of its UsacConfig. It is well formed, and has no tail.
    ///
    /// Errors: the fault of the leftmost field at fault, at its first bit, or out of memory; the reader stays where it was.
    pub fn read(alloc: Global, reader: &mut BitReader) -> Result<Asc, AscFault>
        ensures reads { ReadsUnless is_memory asc reader.old reader.new result }

        // For the proofs of the readers above.
        ensures exact { GivesUnless is_memory asc reader.old reader.new result }
    {
        let start = reader.at();
        match read_plain_fields(alloc, reader) {
            Ok(asc) => Ok(asc),
            Err(fault) => {
                reader.back_to(start);
                Err(fault)
            }
        }
    }

    /// Reads a configuration that takes all bits up to the reader's end, the last of them as its tail. It is well formed.
    ///
    /// Errors: the fault of the leftmost field at fault, at its first bit, or out of memory; the reader stays where it was.
    pub fn read_counted(alloc: Global, reader: &mut BitReader) -> Result<Asc, AscFault>
        ensures reads { ReadsAllUnless is_memory asc_counted reader.old reader.new result }

        // For the proofs of the readers above.
        ensures exact { GivesUnless is_memory asc_counted reader.old reader.new result }
    {
        let start = reader.at();
        match read_counted_fields(alloc, reader) {
            Ok(asc) => Ok(asc),
            Err(fault) => {
                reader.back_to(start);
                Err(fault)
            }
        }
    }

    /// Writes a well formed configuration, its tail behind it.
    ///
    /// Errors: out of memory; nothing is written.
    #[tactic(auto, using(bit_core::proofs::Writing::extends_cut, bit_core::proofs::Writing::extends_long))]
    pub fn write(&self, writer: &mut BitWriter) -> Result<(), AllocError>
        requires { IsWellFormed self.now }
        ensures ok { OnOk result (writer.new ≡ writer.old ++ asc_text self.now) }
        ensures err { OnErr result (writer.new ≡ writer.old) }
    {
        let start = writer.len();
        match write_fields(self, writer) {
            Ok(()) => Ok(()),
            Err(fault) => {
                writer.truncate(start);
                Err(fault)
            }
        }
    }

    /// A copy. The one error is out of memory.
    pub fn copy(&self, alloc: Global) -> Result<Asc, AllocError>
        ensures { IfOk result (λ copied. copied ≡ self.now) }
    {
        let usac = self.usac.copy(alloc)?;
        let tail = self.tail.copy(alloc)?;
        Ok(Asc {
            index: self.index,
            explicit_rate: self.explicit_rate,
            channels: self.channels,
            usac,
            tail,
        })
    }
}
