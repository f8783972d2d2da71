// The slots of an element where they stand. Its fields are those of element_reading.
ghost use Rattle.std.specs.Prelude.{◌≡◌, ◌≤◌, ◌*◌, length, false, IfOk, OnOk, IsErrAnd};
ghost use Rattle.std.specs.Option.{option_copied};
ghost use Rattle.layout.specs.Text.{bits_of};
ghost use Rattle.layout.specs.Reader.{left};
ghost use Rattle.layout.specs.Times.{times};
ghost use Rattle.layout.specs.Reading.{Gives, GivesUnless};
ghost use Rattle.bit_core.specs.Plain.{octets};
ghost use Rattle.latm.specs.declared.fault.MuxFault.{MuxFault as Fault};
ghost use Rattle.latm.specs.Faults.{is_memory};
ghost use Rattle.latm.specs.MuxElement.{then_in_force, slot_of_bytes, other_data, element};
ghost use Rattle.latm.specs.Places.{IsWithin, AreWithin, ReadsPlaces, as_slot, as_slots, passed_bytes, passed_bits, FindsBody, FindsElement};

use crate::element_reading::{counts, read_opening};
use crate::fault::MuxFault;
use crate::mux_config::MuxConfig;
use crate::slot_place::{SlotPlace, SlotPlaces};
use bit_core::{BitReader, Short};
use esc_value::SlotLength;
use std::alloc::Global;

/// What is read of an element whose slots stay where they are.
#[derive(Debug, Drop)]
pub struct Places {
    /// The StreamMuxConfig, where `useSameStreamMux` is 0.
    pub config: Option<MuxConfig>,
    /// Where the slots stand.
    pub slots: SlotPlaces,
}

fn pass_bytes(reader: &mut BitReader, n: u32) -> Result<(), Short>
    ensures gives { Gives (octets n) reader.old reader.new (passed_bytes n reader.old result) }
    ensures within { OnOk result (8 * n ≤ length (left reader.old)) }
{
    reader.skip(8 * u64::from(n))
}

fn pass_bits(reader: &mut BitReader, n: u32) -> Result<(), MuxFault>
    ensures { GivesUnless is_memory (other_data n) reader.old reader.new (passed_bits n reader.old result) }
{
    reader.skip(u64::from(n))?;
    Ok(())
}

fn find_slot(reader: &mut BitReader) -> Result<SlotPlace, MuxFault>
    ensures gives { GivesUnless is_memory slot_of_bytes reader.old reader.new (as_slot reader.old.text result) }
    ensures within { IfOk result (λ place. IsWithin (length reader.old.text) place) }
{
    let length = SlotLength::read(reader)?;
    let from = reader.at();
    pass_bytes(reader, length)?;
    Ok(SlotPlace { from, length })
}

fn find_slots(alloc: Global, reader: &mut BitReader, count: u32) -> Result<SlotPlaces, MuxFault>
    ensures gives { GivesUnless is_memory (times count slot_of_bytes) reader.old reader.new (as_slots reader.old.text result) }
    ensures within { IfOk result (λ places. AreWithin (length reader.old.text) places) }
{
    let mut places = SlotPlaces::new(alloc);
    for _ in 0..count {
        let place = find_slot(reader)?;
        places.push(place)?;
    }
    Ok(places)
}

fn find_body(
    alloc: Global,
    reader: &mut BitReader,
    config: Option<&MuxConfig>,
) -> Result<SlotPlaces, MuxFault>
    ensures { FindsBody (option_copied config.entry) reader.old reader.new result }
{
    let (count, bits) = counts(config);
    let slots = find_slots(alloc, reader, count)?;
    pass_bits(reader, bits)?;
    Ok(slots)
}

fn find_own_body(
    alloc: Global,
    reader: &mut BitReader,
    in_force: Option<&MuxConfig>,
    own: &Option<MuxConfig>,
) -> Result<SlotPlaces, MuxFault>
    ensures { FindsBody (then_in_force (option_copied in_force.entry) own.now) reader.old reader.new result }
{
    match own {
        None => find_body(alloc, reader, in_force),
        Some(config) => find_body(alloc, reader, Some(config)),
    }
}

fn find_fields(
    alloc: Global,
    reader: &mut BitReader,
    in_force: Option<&MuxConfig>,
) -> Result<Places, MuxFault>
    ensures { FindsElement (option_copied in_force.entry) reader.old reader.new result }
{
    let config = read_opening(alloc, reader, in_force.is_some())?;
    let slots = find_own_body(alloc, reader, in_force, &config)?;
    Ok(Places { config, slots })
}

/// Finds the slots of an element, which [`crate::read_element`] copies: the configuration, and where each slot stands. Each
/// length is judged, and nothing else of a slot is looked at.
///
/// Errors: those of `read_element`, exactly where it has them, or out of memory.
pub fn read_places(
    alloc: Global,
    in_force: Option<&MuxConfig>,
    bytes: &[u8],
) -> Result<Places, MuxFault>
    requires { length bytes.now ≤ 16777216 }
    ensures reads { ReadsPlaces (option_copied in_force.entry) bytes.now result }
    ensures first { (f : Fault) → (let L = element (option_copied in_force.entry) in L.Faults 0 f (bits_of bytes.now)) → IsErrAnd result (λ g. is_memory g ≡ false → g ≡ f) }
{
    let mut reader = BitReader::new(bytes);
    find_fields(alloc, &mut reader, in_force)
}
