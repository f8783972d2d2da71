ghost use Rattle.std.specs.Prelude.{◌≡◌, ◌++◌, IfOk, OnOk, OnErr};
ghost use Rattle.layout.specs.Reading.{GivesUnless};
ghost use Rattle.bit_core.specs.Writer.{Extends};
ghost use Rattle.usac_cfg.specs.Faults.{is_memory};
ghost use Rattle.usac_cfg.specs.ConfigExtension.{IsWellFormed, config_extension};

use crate::faults::CfgFault;
use bit_core::{BitReader, BitWriter, Octets};
use esc_value::Escaped;
use std::alloc::{AllocError, Global};

/// An extension of a configuration (ISO/IEC 23003-3, UsacConfigExtension). What its bytes say is left to others.
///
/// Well formed where each number is at most the largest that its field can have.
///
/// ```text
/// usacConfigExtType     escapedValue(4, 8, 16)
/// usacConfigExtLength   escapedValue(4, 8, 16)
/// the bytes             8 for each
/// ```
#[derive(Debug, Drop)]
pub struct ConfigExt {
    /// `usacConfigExtType`, at most 65805: 0 is a filler, 2 loudness, 7 the identifier of the stream.
    pub kind: u32,
    /// `usacConfigExtLength` bytes, at most 65805.
    pub bytes: Octets,
}

impl ConfigExt {
    /// A copy. The one error is out of memory.
    pub fn copy(&self, alloc: Global) -> Result<ConfigExt, AllocError>
        ensures { IfOk result (λ copied. copied ≡ self.now) }
    {
        let bytes = Octets::copy_of(alloc, self.bytes.as_slice())?;
        Ok(ConfigExt {
            kind: self.kind,
            bytes,
        })
    }
}

/// Reads an extension. On error some fields may already be consumed.
pub fn read_config_extension(alloc: Global, reader: &mut BitReader) -> Result<ConfigExt, CfgFault>
    ensures { GivesUnless is_memory config_extension reader.old reader.new result }
{
    let kind = Escaped::<4, 8, 16>::read(reader)?;
    let length = Escaped::<4, 8, 16>::read(reader)?;
    let bytes = reader.take_bytes(alloc, u64::from(length))?;
    Ok(ConfigExt { kind, bytes })
}

/// Writes an extension. On error some fields may already be written.
pub fn write_config_extension(value: &ConfigExt, writer: &mut BitWriter) -> Result<(), AllocError>
    requires { IsWellFormed value.now }
    ensures ok { OnOk result (writer.new ≡ writer.old ++ config_extension.spelling value.now) }
    ensures kept { Extends writer.old writer.new }
{
    Escaped::<4, 8, 16>::put(value.kind, writer)?;
    Escaped::<4, 8, 16>::put(value.bytes.len() as u32, writer)?;
    writer.put_bytes(value.bytes.as_slice())?;
    Ok(())
}
