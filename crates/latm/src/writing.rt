// The fields of a configuration, written in their order. On error some fields may already be written.
ghost use Rattle.std.specs.Prelude.{◌≡◌, ◌++◌, ◌<◌, OnOk};
ghost use Rattle.layout.specs.Layout.{FitsOption, spelling_of, behind};
ghost use Rattle.bit_core.specs.Plain.{number};
ghost use Rattle.bit_core.specs.Writer.{Extends};
ghost use Rattle.latm.specs.Faults.{from_short};
ghost use Rattle.esc_value.specs.LatmValue.{IsWellFormed as IsLatmWellFormed};
ghost use Rattle.asc.specs.Asc.{IsWellFormed as IsAscWellFormed};
ghost use Rattle.latm.specs.MuxConfig.{IsWellFormed, IsOther, IsCounted, latm, tara_fields, asc_of, other_length, head, last, fields};

use crate::mux_config::MuxConfig;
use crate::other_length::OtherLength;
use crate::pairs::write_pairs;
use asc::Asc;
use bit_core::{BitWriter, put_small};
use esc_value::LatmValue;
use std::alloc::AllocError;

fn write_tara(tara: Option<LatmValue>, writer: &mut BitWriter) -> Result<(), AllocError>
    requires { FitsOption IsLatmWellFormed tara }
    ensures ok { OnOk result (writer.new ≡ writer.old ++ spelling_of tara_fields.spelling tara) }
    ensures kept { Extends writer.old writer.new }
{
    if let Some(value) = tara {
        put_small(writer, 0, 1)?;
        value.write(writer)?;
    }
    Ok(())
}

fn write_head(value: &MuxConfig, writer: &mut BitWriter) -> Result<(), AllocError>
    requires { IsWellFormed value.now }
    ensures ok { OnOk result (writer.new ≡ writer.old ++ head.spelling (value.now.version, (value.now.tara, value.now.sub_frames))) }
    ensures kept { Extends writer.old writer.new }
{
    put_small(writer, value.version, 1)?;
    write_tara(value.tara, writer)?;
    put_small(writer, 1, 1)?;
    put_small(writer, value.sub_frames, 6)?;
    put_small(writer, 0, 4)?;
    put_small(writer, 0, 3)
}

fn write_length(length: Option<LatmValue>, writer: &mut BitWriter) -> Result<(), AllocError>
    requires { FitsOption IsLatmWellFormed length }
    ensures ok { OnOk result (writer.new ≡ writer.old ++ spelling_of latm.spelling length) }
    ensures kept { Extends writer.old writer.new }
{
    if let Some(value) = length {
        value.write(writer)?;
    }
    Ok(())
}

/// Writes the AudioSpecificConfig that goes with a length.
fn write_asc(asc: &Asc, length: Option<LatmValue>, writer: &mut BitWriter) -> Result<(), AllocError>
    requires counted { IsCounted length asc.now }
    requires well { IsAscWellFormed asc.now }
    ensures ok { OnOk result (writer.new ≡ writer.old ++ (asc_of length).spelling asc.now) }
    ensures kept { Extends writer.old writer.new }
{
    asc.write(writer)
}

fn write_other_length(
    other: OtherLength,
    one: bool,
    writer: &mut BitWriter,
) -> Result<(), AllocError>
    requires { IsOther one other }
    ensures ok { OnOk result (writer.new ≡ writer.old ++ (other_length one).spelling other) }
    ensures kept { Extends writer.old writer.new }
{
    match other {
        OtherLength::Pairs { count, bits } => write_pairs(count, bits, writer),
        OtherLength::Value(value) => value.write(writer),
    }
}

fn write_other(
    other: Option<OtherLength>,
    one: bool,
    writer: &mut BitWriter,
) -> Result<(), AllocError>
    requires { FitsOption (IsOther one) other }
    ensures ok { OnOk result (writer.new ≡ writer.old ++ spelling_of (other_length one).spelling other) }
    ensures kept { Extends writer.old writer.new }
{
    if let Some(length) = other {
        write_other_length(length, one, writer)?;
    }
    Ok(())
}

fn write_crc(crc: Option<u8>, writer: &mut BitWriter) -> Result<(), AllocError>
    ensures ok { OnOk result (writer.new ≡ writer.old ++ spelling_of (number from_short 8).spelling crc) }
    ensures kept { Extends writer.old writer.new }
{
    if let Some(value) = crc {
        put_small(writer, value, 8)?;
    }
    Ok(())
}

fn write_last(value: &MuxConfig, one: bool, writer: &mut BitWriter) -> Result<(), AllocError>
    requires { FitsOption (IsOther one) value.now.other }
    ensures ok { OnOk result (writer.new ≡ writer.old ++ (last one).spelling (value.now.other, value.now.crc)) }
    ensures kept { Extends writer.old writer.new }
{
    writer.put_flag(value.other.is_some())?;
    write_other(value.other, one, writer)?;
    writer.put_flag(value.crc.is_some())?;
    write_crc(value.crc, writer)
}

pub fn write_fields(value: &MuxConfig, writer: &mut BitWriter) -> Result<(), AllocError>
    requires { IsWellFormed value.now }
    ensures ok { OnOk result (writer.new ≡ writer.old ++ fields.spelling value.now) }
    ensures kept { Extends writer.old writer.new }
{
    write_head(value, writer)?;
    write_length(value.asc_length, writer)?;
    write_asc(&value.asc, value.asc_length, writer)?;
    put_small(writer, 0, 3)?;
    put_small(writer, value.fullness, 8)?;
    write_last(value, value.version == 1, writer)
}
