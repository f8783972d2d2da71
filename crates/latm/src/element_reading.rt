// The fields of an element, read in their order.
ghost use Rattle.std.specs.Prelude.{◌≡◌, ◌+◌};
ghost use Rattle.std.specs.Option.{option_copied};
ghost use Rattle.layout.specs.Layout.{where_set};
ghost use Rattle.layout.specs.Times.{times};
ghost use Rattle.layout.specs.Reading.{GivesUnless};
ghost use Rattle.latm.specs.Faults.{is_memory};
ghost use Rattle.latm.specs.MuxConfig.{mux_config};
ghost use Rattle.latm.specs.MuxElement.{then_in_force, slot_count, bits_of_length, other_bits, same, opening, slot_of_bytes, body, element};

use crate::fault::MuxFault;
use crate::mux_config::MuxConfig;
use crate::mux_element::{MuxElement, Slots};
use crate::other_length::OtherLength;
use bit_core::{BitReader, Bits, Octets, flag};
use esc_value::SlotLength;
use std::alloc::Global;

fn read_same(reader: &mut BitReader, in_force: bool) -> Result<bool, MuxFault>
    ensures { GivesUnless is_memory (same in_force) reader.old reader.new result }
{
    let same = flag(reader)?;
    if in_force || !same {
        return Ok(same);
    }
    Err(MuxFault::NoConfig)
}

fn read_config(
    alloc: Global,
    reader: &mut BitReader,
    there: bool,
) -> Result<Option<MuxConfig>, MuxFault>
    ensures { GivesUnless is_memory (where_set there mux_config) reader.old reader.new result }
{
    if there {
        let config = MuxConfig::read(alloc, reader)?;
        return Ok(Some(config));
    }
    Ok(None)
}

/// Reads `useSameStreamMux`, and the configuration where it is 0. On error some fields may already be consumed.
pub fn read_opening(
    alloc: Global,
    reader: &mut BitReader,
    in_force: bool,
) -> Result<Option<MuxConfig>, MuxFault>
    ensures { GivesUnless is_memory (opening in_force) reader.old reader.new result }
{
    let same = read_same(reader, in_force)?;
    read_config(alloc, reader, !same)
}

fn read_slot(alloc: Global, reader: &mut BitReader) -> Result<Octets, MuxFault>
    ensures { GivesUnless is_memory slot_of_bytes reader.old reader.new result }
{
    let length = SlotLength::read(reader)?;
    let slot = reader.take_bytes(alloc, u64::from(length))?;
    Ok(slot)
}

fn read_slots(alloc: Global, reader: &mut BitReader, count: u32) -> Result<Slots, MuxFault>
    ensures { GivesUnless is_memory (times count slot_of_bytes) reader.old reader.new result }
{
    let mut slots = Slots::new(alloc);
    for _ in 0..count {
        let slot = read_slot(alloc, reader)?;
        slots.push(slot)?;
    }
    Ok(slots)
}

/// How many bits of other data there are.
fn bits_of_other(other: Option<OtherLength>) -> u32
    ensures { result ≡ bits_of_length other }
{
    match other {
        None => 0,
        Some(OtherLength::Pairs { count: _, bits }) => bits,
        Some(OtherLength::Value(value)) => value.value,
    }
}

/// How many slots an element has, and how many bits of other data.
pub fn counts(config: Option<&MuxConfig>) -> (u32, u32)
    ensures slots { result.0 ≡ slot_count (option_copied config.entry) }
    ensures bits { result.1 ≡ other_bits (option_copied config.entry) }
{
    match config {
        None => (0, 0),
        Some(config) => (
            u32::from(config.sub_frames) + 1,
            bits_of_other(config.other),
        ),
    }
}

/// The slots, the other data and the tail.
type Body = (Slots, (Bits, Bits));

fn read_body(
    alloc: Global,
    reader: &mut BitReader,
    config: Option<&MuxConfig>,
) -> Result<Body, MuxFault>
    ensures { GivesUnless is_memory (body (option_copied config.entry)) reader.old reader.new result }
{
    let (count, bits) = counts(config);
    let slots = read_slots(alloc, reader, count)?;
    let other = reader.take_bits(alloc, u64::from(bits))?;
    let left = reader.left();
    let tail = reader.take_bits(alloc, left)?;
    Ok((slots, (other, tail)))
}

fn read_own_body(
    alloc: Global,
    reader: &mut BitReader,
    in_force: Option<&MuxConfig>,
    own: &Option<MuxConfig>,
) -> Result<Body, MuxFault>
    ensures { GivesUnless is_memory (body (then_in_force (option_copied in_force.entry) own.now)) reader.old reader.new result }
{
    match own {
        None => read_body(alloc, reader, in_force),
        Some(config) => read_body(alloc, reader, Some(config)),
    }
}

/// Reads an element. On error some fields may already be consumed.
pub fn read_fields(
    alloc: Global,
    reader: &mut BitReader,
    in_force: Option<&MuxConfig>,
) -> Result<MuxElement, MuxFault>
    ensures { GivesUnless is_memory (element (option_copied in_force.entry)) reader.old reader.new result }
{
    let config = read_opening(alloc, reader, in_force.is_some())?;
    let (slots, (other, tail)) = read_own_body(alloc, reader, in_force, &config)?;
    Ok(MuxElement {
        config,
        slots,
        other,
        tail,
    })
}
