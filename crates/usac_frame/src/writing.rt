// The fields of a frame, written in their order. On error some fields may already be written.
ghost use Rattle.std.specs.Prelude.{◌≡◌, ◌++◌, OnOk};
ghost use Rattle.usac_frame.specs.Part.{HasLength, AreMarks, IsPart, part_length, marks, part_text};
ghost use Rattle.usac_frame.specs.Frame.{leading, FitParts, parts_text, FitsConfig, frame_text};

use crate::frame::Frame;
use crate::part::{ExtPart, LengthForm, has_marks};
use bit_core::BitWriter;
use std::alloc::AllocError;
use usac_cfg::{ElementConfig, ExtConfig, UsacConfig};

/// Writes a length that its form can say.
fn write_length(form: LengthForm, length: u64, writer: &mut BitWriter) -> Result<(), AllocError>
    requires { HasLength length form length }
    ensures { OnOk result (writer.new ≡ writer.old ++ (part_length length).spelling (form, length)) }
{
    match form {
        LengthForm::Default => writer.put_flag(true),
        LengthForm::Byte => {
            writer.put_flag(false)?;
            writer.put(length as u32, 8)
        }
        LengthForm::Long => {
            writer.put_flag(false)?;
            writer.put(255, 8)?;
            writer.put(length as u32 - 253, 16)
        }
    }
}

fn write_marks(
    there: bool,
    start: bool,
    stop: bool,
    writer: &mut BitWriter,
) -> Result<(), AllocError>
    requires { AreMarks there start stop }
    ensures { OnOk result (writer.new ≡ writer.old ++ (marks there).spelling (start, stop)) }
{
    if there {
        writer.put_flag(start)?;
        writer.put_flag(stop)?;
    }
    Ok(())
}

/// Writes a part that fits the configuration of its element.
fn write_part(ext: &ExtConfig, part: &ExtPart, writer: &mut BitWriter) -> Result<(), AllocError>
    requires { IsPart ext.now part.now }
    ensures { OnOk result (writer.new ≡ writer.old ++ part_text ext.now part.now) }
{
    match part {
        ExtPart::Absent => writer.put_flag(false),
        ExtPart::Present {
            form,
            start,
            stop,
            payload,
        } => {
            let length = payload.len();
            writer.put_flag(true)?;
            write_length(*form, length, writer)?;
            write_marks(has_marks(ext, length), *start, *stop, writer)?;
            writer.put_bytes(payload.as_slice())?;
            Ok(())
        }
    }
}

/// Writes the parts of the leading extension elements, one for each.
pub fn write_parts(
    elements: &[ElementConfig],
    parts: &[ExtPart],
    writer: &mut BitWriter,
) -> Result<(), AllocError>
    requires { FitParts (leading elements.now) parts.now }
    ensures { OnOk result (writer.new ≡ writer.old ++ parts_text (leading elements.now) parts.now) }
{
    for i in 0..parts.len() {
        let ElementConfig::Ext(ext) = &elements[i] else {
            unreachable!()
        };
        write_part(ext, &parts[i], writer)?;
    }
    Ok(())
}

/// Writes a frame that fits the configuration.
pub fn write_fields(
    config: &UsacConfig,
    frame: &Frame,
    writer: &mut BitWriter,
) -> Result<(), AllocError>
    requires { FitsConfig config.now frame.now }
    ensures { OnOk result (writer.new ≡ writer.old ++ frame_text config.now frame.now) }
{
    writer.put_flag(frame.independent)?;
    write_parts(config.elements.as_slice(), frame.leading.as_slice(), writer)?;
    writer.put_bits(&frame.rest)
}
