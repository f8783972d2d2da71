// The fields of an element, written in their order. On error some fields may already be written.
ghost use Rattle.std.specs.Prelude.{◌≡◌, ◌++◌, ◌<◌, ◌≤◌, false, length, OnOk, IfOk, IfErr};
ghost use Rattle.std.specs.List.{flat_map};
ghost use Rattle.layout.specs.Layout.{FitsOption};
ghost use Rattle.latm.specs.MuxConfig.{IsWellFormed};
ghost use Rattle.latm.specs.MuxElement.{opening, slot_of_bytes};
ghost use Rattle.latm.specs.Written.{is_memory, element_text};

use crate::fault::WriteFault;
use crate::mux_config::MuxConfig;
use crate::mux_element::MuxElement;
use bit_core::{BitWriter, Octets};
use esc_value::SlotLength;
use std::alloc::AllocError;

fn write_opening(config: &Option<MuxConfig>, writer: &mut BitWriter) -> Result<(), AllocError>
    requires { FitsOption IsWellFormed config.now }
    ensures { OnOk result (writer.new ≡ writer.old ++ (opening false).spelling config.now) }
{
    writer.put_flag(config.is_none())?;
    if let Some(config) = config {
        config.write(writer)?;
    }
    Ok(())
}

/// Writes a slot, of at most 8191 bytes.
fn write_slot(slot: &[u8], writer: &mut BitWriter) -> Result<(), WriteFault>
    ensures ok { OnOk result (writer.new ≡ writer.old ++ slot_of_bytes.spelling slot.now) }
    ensures err { IfErr result (λ f. is_memory f ≡ false → 65528 < length (slot_of_bytes.spelling slot.now)) }
{
    if slot.len() > 8191 {
        return Err(WriteFault::TooLong);
    }
    SlotLength::write(slot.len() as u32, writer)?;
    writer.put_bytes(slot)?;
    Ok(())
}

fn write_slots(slots: &[Octets], writer: &mut BitWriter) -> Result<(), WriteFault>
    ensures ok { OnOk result (writer.new ≡ writer.old ++ flat_map slot_of_bytes.spelling slots.now) }
    ensures err { IfErr result (λ f. is_memory f ≡ false → 65528 < length (flat_map slot_of_bytes.spelling slots.now)) }
{
    for slot in slots {
        write_slot(slot.as_slice(), writer)?;
    }
    Ok(())
}

pub fn write_fields(element: &MuxElement, writer: &mut BitWriter) -> Result<(), WriteFault>
    requires { FitsOption IsWellFormed element.now.config }
    ensures ok { OnOk result (writer.new ≡ writer.old ++ element_text element.now) }
    ensures err { IfErr result (λ f. is_memory f ≡ false → 65528 < length (element_text element.now)) }
{
    write_opening(&element.config, writer)?;
    write_slots(element.slots.as_slice(), writer)?;
    writer.put_bits(&element.other)?;
    writer.put_bits(&element.tail)?;
    Ok(())
}

/// Writes an element of one slot, without other data and tail.
pub fn write_single(
    config: &Option<MuxConfig>,
    slot: &[u8],
    writer: &mut BitWriter,
) -> Result<(), WriteFault>
    requires { FitsOption IsWellFormed config.now }
    ensures ok { OnOk result (writer.new ≡ writer.old ++ ((opening false).spelling config.now ++ slot_of_bytes.spelling slot.now)) }
    ensures err { IfErr result (λ f. is_memory f ≡ false → 65528 < length ((opening false).spelling config.now ++ slot_of_bytes.spelling slot.now)) }
{
    write_opening(config, writer)?;
    write_slot(slot, writer)
}
