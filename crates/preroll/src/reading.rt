// The fields of a preroll, read in their order.
ghost use Rattle.layout.specs.Reading.{GivesUnless};
ghost use Rattle.layout.specs.Times.{times};
ghost use Rattle.preroll.specs.Faults.{is_memory};
ghost use Rattle.preroll.specs.PreRoll.{counted_bytes, units, preroll};

use crate::fault::PreFault;
use crate::preroll::{PreRoll, UnitBytes};
use bit_core::{BitReader, Octets, flag};
use esc_value::Escaped;
use std::alloc::Global;

fn read_config_bytes(alloc: Global, reader: &mut BitReader) -> Result<Octets, PreFault>
    ensures { GivesUnless is_memory (counted_bytes 4 4 8) reader.old reader.new result }
{
    let length = Escaped::<4, 4, 8>::read(reader)?;
    let bytes = reader.take_bytes(alloc, u64::from(length))?;
    Ok(bytes)
}

fn read_unit_bytes(alloc: Global, reader: &mut BitReader) -> Result<Octets, PreFault>
    ensures { GivesUnless is_memory (counted_bytes 16 16 0) reader.old reader.new result }
{
    let length = Escaped::<16, 16, 0>::read(reader)?;
    let bytes = reader.take_bytes(alloc, u64::from(length))?;
    Ok(bytes)
}

fn read_each_unit_bytes(
    alloc: Global,
    reader: &mut BitReader,
    count: u32,
) -> Result<UnitBytes, PreFault>
    ensures { GivesUnless is_memory (times count (counted_bytes 16 16 0)) reader.old reader.new result }
{
    let mut units = UnitBytes::new(alloc);
    for _ in 0..count {
        let unit = read_unit_bytes(alloc, reader)?;
        units.push(unit)?;
    }
    Ok(units)
}

fn read_all_unit_bytes(alloc: Global, reader: &mut BitReader) -> Result<UnitBytes, PreFault>
    ensures { GivesUnless is_memory units reader.old reader.new result }
{
    let count = Escaped::<2, 4, 0>::read(reader)?;
    read_each_unit_bytes(alloc, reader, count)
}

/// Reads a preroll up to the reader's end. On error some fields may already be consumed.
pub fn read_fields(alloc: Global, reader: &mut BitReader) -> Result<PreRoll, PreFault>
    ensures { GivesUnless is_memory preroll reader.old reader.new result }
{
    let config = read_config_bytes(alloc, reader)?;
    let fade = flag(reader)?;
    let reserved = flag(reader)?;
    let units = read_all_unit_bytes(alloc, reader)?;
    let left = reader.left();
    let tail = reader.take_bits(alloc, left)?;
    Ok(PreRoll {
        config,
        fade,
        reserved,
        units,
        tail,
    })
}
