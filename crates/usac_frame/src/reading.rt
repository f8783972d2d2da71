// The fields of a frame, read in their order.
ghost use Rattle.std.specs.Prelude.{◌≡◌};
ghost use Rattle.layout.specs.Reading.{GivesUnless};
ghost use Rattle.usac_frame.specs.Faults.{is_memory};
ghost use Rattle.usac_frame.specs.Part.{part_length, marks, part};
ghost use Rattle.usac_frame.specs.Frame.{leading, parts, frame};

use crate::fault::FrameFault;
use crate::frame::Frame;
use crate::part::{ExtPart, LengthForm, Parts, has_marks};
use bit_core::{BitReader, flag};
use std::alloc::Global;
use usac_cfg::{ElementConfig, ExtConfig, UsacConfig};

/// Reads the form of a part's length, and the length in bytes.
fn read_length(reader: &mut BitReader, default_length: u32) -> Result<(LengthForm, u32), FrameFault>
    ensures { GivesUnless is_memory (part_length default_length) reader.old reader.new result }
{
    if flag(reader)? {
        return Ok((LengthForm::Default, default_length));
    }
    let byte = reader.take(8)?;
    if byte != 255 {
        return Ok((LengthForm::Byte, byte));
    }
    let more = reader.take(16)?;
    Ok((LengthForm::Long, 255 + more - 2))
}

/// Reads whether a payload begins in the frame, and whether it ends there.
fn read_marks(reader: &mut BitReader, there: bool) -> Result<(bool, bool), FrameFault>
    ensures { GivesUnless is_memory (marks there) reader.old reader.new result }
{
    if there {
        let start = flag(reader)?;
        let stop = flag(reader)?;
        return Ok((start, stop));
    }
    Ok((true, true))
}

/// Reads a part of an element. On error some fields may already be consumed.
fn read_part(alloc: Global, reader: &mut BitReader, ext: &ExtConfig) -> Result<ExtPart, FrameFault>
    ensures { GivesUnless is_memory (part ext.now) reader.old reader.new result }
{
    if !flag(reader)? {
        return Ok(ExtPart::Absent);
    }
    let (form, length) = read_length(reader, ext.default_length)?;
    let (start, stop) = read_marks(reader, has_marks(ext, u64::from(length)))?;
    let payload = reader.take_bytes(alloc, u64::from(length))?;
    Ok(ExtPart::Present {
        form,
        start,
        stop,
        payload,
    })
}

/// Reads a part for each leading extension element.
pub fn read_parts(
    alloc: Global,
    reader: &mut BitReader,
    elements: &[ElementConfig],
) -> Result<Parts, FrameFault>
    ensures { GivesUnless is_memory (parts (leading elements.now)) reader.old reader.new result }
{
    let mut parts = Parts::new(alloc);
    for element in elements {
        let ElementConfig::Ext(ext) = element else {
            return Ok(parts);
        };
        let part = read_part(alloc, reader, ext)?;
        parts.push(part)?;
    }
    Ok(parts)
}

/// Reads a frame up to the reader's end. On error some fields may already be consumed.
pub fn read_fields(
    alloc: Global,
    config: &UsacConfig,
    reader: &mut BitReader,
) -> Result<Frame, FrameFault>
    ensures { GivesUnless is_memory (frame config.now) reader.old reader.new result }
{
    let independent = flag(reader)?;
    let leading = read_parts(alloc, reader, config.elements.as_slice())?;
    let left = reader.left();
    let rest = reader.take_bits(alloc, left)?;
    Ok(Frame {
        independent,
        leading,
        rest,
    })
}
