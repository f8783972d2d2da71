ghost use Rattle.std.specs.Prelude.{◌≡◌, ◌++◌, ◌≤◌, OnOk, OnErr, IfOk};
ghost use Rattle.layout.specs.Reading.{GivesUnless};
ghost use Rattle.bit_core.specs.Writer.{Extends};
ghost use Rattle.usac_cfg.specs.Faults.{is_memory};
ghost use Rattle.usac_cfg.specs.ExtensionElement.{IsWellFormed, default_length, extension_element};

use crate::faults::CfgFault;
use bit_core::{BitReader, BitWriter, Octets, flag};
use esc_value::Escaped;
use std::alloc::{AllocError, Global};

/// The configuration of an extension element (ISO/IEC 23003-3, UsacExtElementConfig). What its bytes say is left to others.
///
/// Well formed where each number is at most the largest that its field can have.
///
/// ```text
/// usacExtElementType                   escapedValue(4, 8, 16)
/// usacExtElementConfigLength           escapedValue(4, 8, 16)
/// usacExtElementDefaultLengthPresent   1
/// usacExtElementDefaultLength - 1      escapedValue(8, 16, 0)   where that is 1
/// usacExtElementPayloadFrag            1
/// the configuration's bytes            8 for each
/// ```
#[derive(Debug, Drop)]
pub struct ExtConfig {
    /// `usacExtElementType`, at most 65805: 0 is a filler, 1 MPEG Surround, 2 SAOC, 3 a preroll, 4 dynamic range control.
    pub kind: u32,
    /// `usacExtElementDefaultLength` in bytes, at most 65791, or 0 where none is coded.
    pub default_length: u32,
    /// `usacExtElementPayloadFrag`: a payload may be spread over frames.
    pub frag: bool,
    /// The configuration's bytes, at most 65805.
    pub bytes: Octets,
}

impl ExtConfig {
    /// A copy. The one error is out of memory.
    pub fn copy(&self, alloc: Global) -> Result<ExtConfig, AllocError>
        ensures { IfOk result (λ copied. copied ≡ self.now) }
    {
        let bytes = Octets::copy_of(alloc, self.bytes.as_slice())?;
        Ok(ExtConfig {
            kind: self.kind,
            default_length: self.default_length,
            frag: self.frag,
            bytes,
        })
    }
}

fn read_default_length(reader: &mut BitReader) -> Result<u32, CfgFault>
    ensures { GivesUnless is_memory default_length reader.old reader.new result }
{
    if flag(reader)? {
        let less = Escaped::<8, 16, 0>::read(reader)?;
        return Ok(less + 1);
    }
    Ok(0)
}

/// Reads the configuration of an extension element. On error some fields may already be consumed.
pub fn read_extension_element(alloc: Global, reader: &mut BitReader) -> Result<ExtConfig, CfgFault>
    ensures { GivesUnless is_memory extension_element reader.old reader.new result }
{
    let kind = Escaped::<4, 8, 16>::read(reader)?;
    let length = Escaped::<4, 8, 16>::read(reader)?;
    let default_length = read_default_length(reader)?;
    let frag = flag(reader)?;
    let bytes = reader.take_bytes(alloc, u64::from(length))?;
    Ok(ExtConfig {
        kind,
        default_length,
        frag,
        bytes,
    })
}

fn write_default_length(length: u32, writer: &mut BitWriter) -> Result<(), AllocError>
    requires { length ≤ 65791 }
    ensures ok { OnOk result (writer.new ≡ writer.old ++ default_length.spelling length) }
    ensures kept { Extends writer.old writer.new }
{
    if length > 0 {
        writer.put_flag(true)?;
        return Escaped::<8, 16, 0>::put(length - 1, writer);
    }
    writer.put_flag(false)
}

/// Writes the configuration of an extension element. On error some fields may already be written.
pub fn write_extension_element(value: &ExtConfig, writer: &mut BitWriter) -> Result<(), AllocError>
    requires { IsWellFormed value.now }
    ensures ok { OnOk result (writer.new ≡ writer.old ++ extension_element.spelling value.now) }
    ensures kept { Extends writer.old writer.new }
{
    Escaped::<4, 8, 16>::put(value.kind, writer)?;
    Escaped::<4, 8, 16>::put(value.bytes.len() as u32, writer)?;
    write_default_length(value.default_length, writer)?;
    writer.put_flag(value.frag)?;
    writer.put_bytes(value.bytes.as_slice())?;
    Ok(())
}
