// The fields of a configuration, read in their order.
ghost use Rattle.std.specs.Prelude.{◌≡◌, ◌+◌, ◌≤◌, IfOk};
ghost use Rattle.layout.specs.Layout.{checked};
ghost use Rattle.layout.specs.Times.{times};
ghost use Rattle.layout.specs.Reading.{GivesUnless};
ghost use Rattle.bit_core.specs.Plain.{number};
ghost use Rattle.esc_value.specs.Escaped.{escaped_value};
ghost use Rattle.usac_cfg.specs.Faults.{is_memory, from_short};
ghost use Rattle.usac_cfg.specs.ElementConfig.{element};
ghost use Rattle.usac_cfg.specs.UsacConfig.{has_sbr};
ghost use Rattle.usac_cfg.specs.Spelling.{rate, explicit, frame, channel, count_refused, positions, elements_refused, elements, fields};
ghost use Rattle.usac_cfg.specs.ConfigExtension.{config_extension, some_extensions, extensions};

use crate::config_extension::read_config_extension;
use crate::element_config::read_element;
use crate::faults::CfgFault;
use crate::lists::{Elements, Extensions, Positions};
use crate::usac_config::UsacConfig;
use bit_core::{BitReader, flag, small};
use esc_value::Escaped;
use std::alloc::Global;
use tables::{channels_of, frame_of, rate_of};

fn read_rate(reader: &mut BitReader) -> Result<u8, CfgFault>
    ensures { GivesUnless is_memory rate reader.old reader.new result }
{
    let at = reader.at();
    let index = small(reader, 5)?;
    if rate_of(index).is_some() || index == 31 {
        return Ok(index);
    }
    Err(CfgFault::RateReserved { at })
}

fn read_explicit(reader: &mut BitReader, there: bool) -> Result<u32, CfgFault>
    ensures { GivesUnless is_memory (explicit there) reader.old reader.new result }
{
    if !there {
        return Ok(0);
    }
    let at = reader.at();
    let rate = reader.take(24)?;
    if rate == 0 {
        return Err(CfgFault::RateZero { at });
    }
    Ok(rate)
}

fn read_frame_index(reader: &mut BitReader) -> Result<u8, CfgFault>
    ensures { GivesUnless is_memory frame reader.old reader.new result }
{
    let at = reader.at();
    let index = small(reader, 3)?;
    if frame_of(index).is_some() {
        return Ok(index);
    }
    Err(CfgFault::FrameReserved { at })
}

fn read_channel_index(reader: &mut BitReader) -> Result<u8, CfgFault>
    ensures { GivesUnless is_memory channel reader.old reader.new result }
{
    let at = reader.at();
    let index = small(reader, 5)?;
    if channels_of(index).is_some() || index == 0 {
        return Ok(index);
    }
    Err(CfgFault::ChannelReserved { at })
}

fn read_count(reader: &mut BitReader) -> Result<u32, CfgFault>
    ensures { GivesUnless is_memory (checked count_refused (escaped_value from_short 5 8 16)) reader.old reader.new result }
{
    let at = reader.at();
    let count = Escaped::<5, 8, 16>::read(reader)?;
    if count == 0 {
        return Err(CfgFault::NoChannels { at });
    }
    if count > 64 {
        return Err(CfgFault::TooManyChannels { at });
    }
    Ok(count)
}

fn read_each_position(
    alloc: Global,
    reader: &mut BitReader,
    count: u32,
) -> Result<Positions, CfgFault>
    ensures { GivesUnless is_memory (times count (number from_short 5)) reader.old reader.new result }
{
    let mut positions = Positions::new(alloc);
    for _ in 0..count {
        let position = small(reader, 5)?;
        positions.push(position)?;
    }
    Ok(positions)
}

fn read_positions(alloc: Global, reader: &mut BitReader, there: bool) -> Result<Positions, CfgFault>
    ensures { GivesUnless is_memory (positions there) reader.old reader.new result }
{
    if !there {
        return Ok(Positions::new(alloc));
    }
    let count = read_count(reader)?;
    read_each_position(alloc, reader, count)
}

/// Reads one less than the number of elements.
fn read_element_count(reader: &mut BitReader) -> Result<u32, CfgFault>
    ensures gives { GivesUnless is_memory (checked elements_refused (escaped_value from_short 4 8 16)) reader.old reader.new result }
    ensures few { IfOk result (λ n. n ≤ 63) }
{
    let at = reader.at();
    let less = Escaped::<4, 8, 16>::read(reader)?;
    if less > 63 {
        return Err(CfgFault::TooManyElements { at });
    }
    Ok(less)
}

fn read_each_element(
    alloc: Global,
    reader: &mut BitReader,
    count: u32,
    sbr: bool,
) -> Result<Elements, CfgFault>
    ensures { GivesUnless is_memory (times count (element sbr)) reader.old reader.new result }
{
    let mut elements = Elements::new(alloc);
    for _ in 0..count {
        let item = read_element(alloc, reader, sbr)?;
        elements.push(item)?;
    }
    Ok(elements)
}

fn read_elements(alloc: Global, reader: &mut BitReader, sbr: bool) -> Result<Elements, CfgFault>
    ensures { GivesUnless is_memory (elements sbr) reader.old reader.new result }
{
    let less = read_element_count(reader)?;
    read_each_element(alloc, reader, less + 1, sbr)
}

fn read_each_extension(
    alloc: Global,
    reader: &mut BitReader,
    count: u32,
) -> Result<Extensions, CfgFault>
    ensures { GivesUnless is_memory (times count config_extension) reader.old reader.new result }
{
    let mut extensions = Extensions::new(alloc);
    for _ in 0..count {
        let item = read_config_extension(alloc, reader)?;
        extensions.push(item)?;
    }
    Ok(extensions)
}

fn read_some_extensions(alloc: Global, reader: &mut BitReader) -> Result<Extensions, CfgFault>
    ensures { GivesUnless is_memory some_extensions reader.old reader.new result }
{
    let less = Escaped::<2, 4, 8>::read(reader)?;
    read_each_extension(alloc, reader, less + 1)
}

fn read_extensions(alloc: Global, reader: &mut BitReader) -> Result<Extensions, CfgFault>
    ensures { GivesUnless is_memory extensions reader.old reader.new result }
{
    if flag(reader)? {
        read_some_extensions(alloc, reader)
    } else {
        Ok(Extensions::new(alloc))
    }
}

/// Whether frames of this length are made with SBR.
pub fn goes_with_sbr(frame_index: u8) -> bool
    ensures { result ≡ has_sbr frame_index }
{
    match frame_of(frame_index) {
        Some(shape) => shape.ratio > 0,
        None => false,
    }
}

/// Reads a configuration. On error some fields may already be consumed.
pub fn read_fields(alloc: Global, reader: &mut BitReader) -> Result<UsacConfig, CfgFault>
    ensures { GivesUnless is_memory fields reader.old reader.new result }
{
    let rate_index = read_rate(reader)?;
    let rate_explicit = read_explicit(reader, rate_index == 31)?;
    let frame_index = read_frame_index(reader)?;
    let channel_index = read_channel_index(reader)?;
    let positions = read_positions(alloc, reader, channel_index == 0)?;
    let elements = read_elements(alloc, reader, goes_with_sbr(frame_index))?;
    let extensions = read_extensions(alloc, reader)?;
    Ok(UsacConfig {
        rate_index,
        rate_explicit,
        frame_index,
        channel_index,
        positions,
        elements,
        extensions,
    })
}
