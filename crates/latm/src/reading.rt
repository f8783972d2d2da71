// The fields of a configuration, read in their order. On error some fields may already be consumed.
ghost use Rattle.std.specs.Prelude.{◌≡◌, ◌≤◌, ◌<◌};
ghost use Rattle.layout.specs.Layout.{wrapped, where_set};
ghost use Rattle.layout.specs.ToEnd.{inside};
ghost use Rattle.layout.specs.Reading.{Gives, GivesUnless};
ghost use Rattle.bit_core.specs.Plain.{number};
ghost use Rattle.asc.specs.Asc.{asc_counted};
ghost use Rattle.latm.specs.Faults.{is_memory, from_short, from_asc};
ghost use Rattle.latm.specs.MuxConfig.{latm, fixed, short_at, of_version, asc_of, other_length, head, last, fields};

use crate::fault::{MuxFault, MuxField};
use crate::mux_config::MuxConfig;
use crate::other_length::OtherLength;
use crate::pairs::read_run;
use asc::Asc;
use bit_core::{BitReader, flag, small};
use esc_value::LatmValue;
use std::alloc::Global;

/// Reads a number of n bits of which the profile takes one value alone.
fn read_fixed(reader: &mut BitReader, field: MuxField, n: u32, value: u8) -> Result<(), MuxFault>
    requires { n ≤ 8 }
    ensures { GivesUnless is_memory (fixed field n value) reader.old reader.new result }
{
    let at = reader.at();
    if small(reader, n)? != value {
        return Err(MuxFault::OutOfProfile { at, field });
    }
    Ok(())
}

fn read_of_version(reader: &mut BitReader, one: bool) -> Result<Option<LatmValue>, MuxFault>
    ensures { GivesUnless is_memory (of_version one) reader.old reader.new result }
{
    if one {
        read_fixed(reader, MuxField::AudioMuxVersionA, 1, 0)?;
        let tara = LatmValue::read(reader)?;
        return Ok(Some(tara));
    }
    Ok(None)
}

fn read_head(reader: &mut BitReader) -> Result<(u8, (Option<LatmValue>, u8)), MuxFault>
    ensures { GivesUnless is_memory head reader.old reader.new result }
{
    let version = small(reader, 1)?;
    let tara = read_of_version(reader, version == 1)?;
    read_fixed(reader, MuxField::AllStreamsSameTimeFraming, 1, 1)?;
    let sub_frames = small(reader, 6)?;
    read_fixed(reader, MuxField::NumProgram, 4, 0)?;
    read_fixed(reader, MuxField::NumLayer, 3, 0)?;
    Ok((version, (tara, sub_frames)))
}

fn read_length(reader: &mut BitReader, there: bool) -> Result<Option<LatmValue>, MuxFault>
    ensures { GivesUnless is_memory (where_set there latm) reader.old reader.new result }
{
    if there {
        let length = LatmValue::read(reader)?;
        return Ok(Some(length));
    }
    Ok(None)
}

/// Reads a configuration that takes so many bits, which are judged by themselves.
fn read_counted(alloc: Global, reader: &mut BitReader, bits: u32) -> Result<Asc, MuxFault>
    ensures { GivesUnless is_memory (inside short_at bits (wrapped from_asc asc_counted)) reader.old reader.new result }
{
    let bits = u64::from(bits);
    if reader.left() < bits {
        return Err(MuxFault::Short { at: reader.at() });
    }
    let mut counted = reader.ahead(bits);
    let asc = Asc::read_counted(alloc, &mut counted)?;
    reader.skip(bits)?;
    Ok(asc)
}

fn read_asc(
    alloc: Global,
    reader: &mut BitReader,
    length: Option<LatmValue>,
) -> Result<Asc, MuxFault>
    ensures { GivesUnless is_memory (asc_of length) reader.old reader.new result }
{
    match length {
        None => {
            let asc = Asc::read(alloc, reader)?;
            Ok(asc)
        }
        Some(length) => read_counted(alloc, reader, length.value),
    }
}

fn read_other_length(reader: &mut BitReader, one: bool) -> Result<OtherLength, MuxFault>
    ensures { GivesUnless is_memory (other_length one) reader.old reader.new result }
{
    let at = reader.at();
    let field = MuxField::OtherDataLenBits;
    if one {
        let value = LatmValue::read(reader)?;
        if value.value > 65535 {
            return Err(MuxFault::OutOfProfile { at, field });
        }
        return Ok(OtherLength::Value(value));
    }
    let run = read_run(reader)?;
    if run.bits > 65535 {
        return Err(MuxFault::OutOfProfile { at, field });
    }
    Ok(OtherLength::Pairs {
        count: run.count,
        bits: run.bits,
    })
}

fn read_other(
    reader: &mut BitReader,
    there: bool,
    one: bool,
) -> Result<Option<OtherLength>, MuxFault>
    ensures { GivesUnless is_memory (where_set there (other_length one)) reader.old reader.new result }
{
    if there {
        let length = read_other_length(reader, one)?;
        return Ok(Some(length));
    }
    Ok(None)
}

fn read_crc(reader: &mut BitReader, there: bool) -> Result<Option<u8>, MuxFault>
    ensures { GivesUnless is_memory (where_set there (number from_short 8)) reader.old reader.new result }
{
    if there {
        let crc = small(reader, 8)?;
        return Ok(Some(crc));
    }
    Ok(None)
}

fn read_last(
    reader: &mut BitReader,
    one: bool,
) -> Result<(Option<OtherLength>, Option<u8>), MuxFault>
    ensures { GivesUnless is_memory (last one) reader.old reader.new result }
{
    let has_other = flag(reader)?;
    let other = read_other(reader, has_other, one)?;
    let has_crc = flag(reader)?;
    let crc = read_crc(reader, has_crc)?;
    Ok((other, crc))
}

/// Reads a configuration. On error some fields may already be consumed.
pub fn read_fields(alloc: Global, reader: &mut BitReader) -> Result<MuxConfig, MuxFault>
    ensures { GivesUnless is_memory fields reader.old reader.new result }
{
    let (version, (tara, sub_frames)) = read_head(reader)?;
    let one = version == 1;
    let asc_length = read_length(reader, one)?;
    let asc = read_asc(alloc, reader, asc_length)?;
    read_fixed(reader, MuxField::FrameLengthType, 3, 0)?;
    let fullness = small(reader, 8)?;
    let (other, crc) = read_last(reader, one)?;
    Ok(MuxConfig {
        version,
        tara,
        sub_frames,
        asc_length,
        asc,
        fullness,
        other,
        crc,
    })
}
