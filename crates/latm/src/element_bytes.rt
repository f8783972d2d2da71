ghost use Rattle.std.specs.Prelude.{◌≡◌, ◌%◌, ◌<◌, ◌≤◌, ◌++◌, false, length, All, IfOk, IfErr};
ghost use Rattle.std.specs.Option.{option_copied};
ghost use Rattle.layout.specs.Layout.{FitsOption};
ghost use Rattle.layout.specs.Text.{bits_of, pad};
ghost use Rattle.asc.specs.Asc.{IsWellFormed as IsAscWellFormed};
ghost use Rattle.latm.specs.MuxConfig.{IsWellFormed};
ghost use Rattle.latm.specs.Written.{element_text, canonical_config, config_of, canonical_text, Writes, Frames, WritesCanonical};

use crate::element_writing::{write_fields, write_single};
use crate::fault::WriteFault;
use crate::mux_config::MuxConfig;
use crate::mux_element::MuxElement;
use asc::Asc;
use bit_core::{BitWriter, Bits, Octets};
use loas::with_header;
use std::alloc::{AllocError, Global};

/// The bytes of an element, with zero bits that fill the last of them, where there are at most 8191.
fn finished(writer: BitWriter) -> Result<Octets, WriteFault>
    ensures { Writes (pad writer) result }
{
    if writer.len() > 65528 {
        return Err(WriteFault::TooLong);
    }
    let bytes = writer.finish()?;
    Ok(bytes)
}

/// Writes an element whose configuration, where it has one, is well formed, and whose spelling makes whole bytes. It is an
/// element under each configuration in force that says so many slots and so many bits of other data.
///
/// Errors: `TooLong` exactly where it has more than 8191 bytes, or out of memory.
pub fn write_element(alloc: Global, element: &MuxElement) -> Result<Octets, WriteFault>
    requires config { FitsOption IsWellFormed element.now.config }
    requires whole { length (element_text element.now) % 8 ≡ 0 }
    ensures { Writes (element_text element.now) result }
{
    let mut writer = BitWriter::new(alloc);
    write_fields(element, &mut writer)?;
    finished(writer)
}

/// Writes the LOAS frame of an element: three bytes of header, and what `write_element` writes, under the same conditions.
///
/// Errors: `TooLong` exactly where the element has more than 8191 bytes, or out of memory.
pub fn framed(alloc: Global, element: &MuxElement) -> Result<Octets, WriteFault>
    requires config { FitsOption IsWellFormed element.now.config }
    requires whole { length (element_text element.now) % 8 ≡ 0 }
    ensures { Frames (element_text element.now) result }
{
    let body = write_element(alloc, element)?;
    let frame = with_header(alloc, body.as_slice())?;
    Ok(frame)
}

/// The configuration of the canonical mux for an AudioSpecificConfig, of which the tail is left out.
fn canonical_mux(alloc: Global, asc: &Asc) -> Result<MuxConfig, AllocError>
    ensures { IfOk result (λ config. config ≡ canonical_config asc.now) }
{
    let usac = asc.usac.copy(alloc)?;
    let asc = Asc {
        index: asc.index,
        explicit_rate: asc.explicit_rate,
        channels: asc.channels,
        usac,
        tail: Bits::new(alloc),
    };
    Ok(MuxConfig {
        version: 0,
        tara: None,
        sub_frames: 0,
        asc_length: None,
        asc,
        fullness: 255,
        other: None,
        crc: None,
    })
}

fn canonical_opening(alloc: Global, asc: Option<&Asc>) -> Result<Option<MuxConfig>, AllocError>
    ensures { IfOk result (λ config. config ≡ config_of (option_copied asc.entry)) }
{
    match asc {
        None => Ok(None),
        Some(asc) => {
            let config = canonical_mux(alloc, asc)?;
            Ok(Some(config))
        }
    }
}

/// The bytes of the canonical element of an access unit.
fn canonical_body(alloc: Global, asc: Option<&Asc>, au: &[u8]) -> Result<Octets, WriteFault>
    requires { FitsOption IsAscWellFormed (option_copied asc) }
    ensures { Writes (canonical_text (option_copied asc.entry) au.now) result }
{
    let config = canonical_opening(alloc, asc)?;
    let mut writer = BitWriter::new(alloc);
    write_single(&config, au, &mut writer)?;
    finished(writer)
}

/// Bytes as they are, for what their type says of them.
fn in_range(bytes: &[u8]) -> &[u8]
    ensures same { result.now ≡ bytes.now }
    ensures range { All (λ byte. byte < 256) result.now }
{
    bytes
}

/// Writes the LOAS frame of one access unit in the canonical mux: one slot, and the configuration where there is one. It is
/// well formed, and its tail is left out.
///
/// Errors: `TooLong` exactly where the element has more than 8191 bytes, or out of memory.
pub fn canonical(alloc: Global, asc: Option<&Asc>, au: &[u8]) -> Result<Octets, WriteFault>
    requires { FitsOption IsAscWellFormed (option_copied asc) }
    ensures frames { Frames (canonical_text (option_copied asc.entry) au.now) result }
    ensures bytes { WritesCanonical (option_copied asc.entry) au.now result }
{
    let body = canonical_body(alloc, asc, au)?;
    let frame = with_header(alloc, in_range(body.as_slice()))?;
    Ok(frame)
}
