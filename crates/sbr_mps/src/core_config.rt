ghost use Rattle.std.specs.Prelude.{◌≡◌, ◌++◌, OnOk, OnErr};
ghost use Rattle.layout.specs.Reading.{Gives, Reads};
ghost use Rattle.bit_core.specs.Writer.{Extends};
ghost use Rattle.sbr_mps.specs.CoreConfig.{core_config};

use crate::fields::{read_fields, write_fields};
use bit_core::{BitReader, BitWriter, Short, flag};
use std::alloc::AllocError;

/// The settings of a core element's core (ISO/IEC 23003-3, UsacCoreConfig).
///
/// ```text
/// tw_mdct        1
/// noiseFilling   1
/// ```
#[derive(Clone, Copy, Debug, PartialEq, Eq)]
pub struct CoreConfig {
    /// `tw_mdct`: the time-warped transform is used.
    pub tw_mdct: bool,
    /// `noiseFilling`: noise filling is used.
    pub noise_filling: bool,
}

impl CoreConfig {
    /// Reads the settings, 2 bits.
    ///
    /// Errors: `Short` at the first bit that is missing; the reader stays where it was.
    pub fn read(reader: &mut BitReader) -> Result<CoreConfig, Short>
        ensures reads { Reads core_config reader.old reader.new result }

        // For the proofs of the readers above.
        ensures exact { Gives core_config reader.old reader.new result }
    {
        let start = reader.at();
        match read_core(reader) {
            Ok(value) => Ok(value),
            Err(fault) => {
                reader.back_to(start);
                Err(fault)
            }
        }
    }

    /// Writes the settings.
    ///
    /// Errors: out of memory; nothing is written.
    #[tactic(auto, using(bit_core::proofs::Writing::extends_cut, bit_core::proofs::Writing::extends_long))]
    pub fn write(&self, writer: &mut BitWriter) -> Result<(), AllocError>
        ensures ok { OnOk result (writer.new ≡ writer.old ++ core_config.spelling self.now) }
        ensures err { OnErr result (writer.new ≡ writer.old) }
    {
        let start = writer.len();
        match write_core(self, writer) {
            Ok(()) => Ok(()),
            Err(fault) => {
                writer.truncate(start);
                Err(fault)
            }
        }
    }
}

fn read_core(reader: &mut BitReader) -> Result<CoreConfig, Short>
    ensures { Gives core_config reader.old reader.new result }
{
    read_fields!(reader: tw_mdct bit, noise_filling bit);
    Ok(CoreConfig {
        tw_mdct,
        noise_filling,
    })
}

fn write_core(value: &CoreConfig, writer: &mut BitWriter) -> Result<(), AllocError>
    ensures ok { OnOk result (writer.new ≡ writer.old ++ core_config.spelling value.now) }
    ensures kept { Extends writer.old writer.new }
{
    write_fields!(writer: value.tw_mdct => bit, value.noise_filling => bit);
    Ok(())
}
