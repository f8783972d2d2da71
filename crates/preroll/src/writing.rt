// The fields of a preroll, written in their order. On error some fields may already be written.
ghost use Rattle.std.specs.Prelude.{◌≡◌, ◌≤◌, ◌++◌, length, OnOk};
ghost use Rattle.std.specs.List.{flat_map, AllByRecursion};
ghost use Rattle.preroll.specs.PreRoll.{HasBytes, IsWellFormed, counted_bytes, units as units_layout, preroll_text};

use crate::preroll::PreRoll;
use bit_core::{BitWriter, Octets};
use esc_value::Escaped;
use std::alloc::AllocError;

fn write_config(bytes: &[u8], writer: &mut BitWriter) -> Result<(), AllocError>
    requires { length bytes.now ≤ 285 }
    ensures { OnOk result (writer.new ≡ writer.old ++ (counted_bytes 4 4 8).spelling bytes.now) }
{
    Escaped::<4, 4, 8>::put(bytes.len() as u32, writer)?;
    writer.put_bytes(bytes)?;
    Ok(())
}

fn write_unit(bytes: &[u8], writer: &mut BitWriter) -> Result<(), AllocError>
    requires { length bytes.now ≤ 131070 }
    ensures { OnOk result (writer.new ≡ writer.old ++ (counted_bytes 16 16 0).spelling bytes.now) }
{
    Escaped::<16, 16, 0>::put(bytes.len() as u32, writer)?;
    writer.put_bytes(bytes)?;
    Ok(())
}

fn write_each(units: &[Octets], writer: &mut BitWriter) -> Result<(), AllocError>
    requires { AllByRecursion (HasBytes 131070) units.now }
    ensures { OnOk result (writer.new ≡ writer.old ++ flat_map (counted_bytes 16 16 0).spelling units.now) }
{
    for unit in units {
        write_unit(unit.as_slice(), writer)?;
    }
    Ok(())
}

fn write_units(units: &[Octets], writer: &mut BitWriter) -> Result<(), AllocError>
    requires few { length units.now ≤ 18 }
    requires bytes { AllByRecursion (HasBytes 131070) units.now }
    ensures { OnOk result (writer.new ≡ writer.old ++ units_layout.spelling units.now) }
{
    Escaped::<2, 4, 0>::put(units.len() as u32, writer)?;
    write_each(units, writer)
}

/// Writes a well formed preroll.
pub fn write_fields(preroll: &PreRoll, writer: &mut BitWriter) -> Result<(), AllocError>
    requires { IsWellFormed preroll.now }
    ensures { OnOk result (writer.new ≡ writer.old ++ preroll_text preroll.now) }
{
    write_config(preroll.config.as_slice(), writer)?;
    writer.put_flag(preroll.fade)?;
    writer.put_flag(preroll.reserved)?;
    write_units(preroll.units.as_slice(), writer)?;
    writer.put_bits(&preroll.tail)
}
