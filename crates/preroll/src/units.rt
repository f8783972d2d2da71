// The access units of a preroll as frames, and the frames as units.
ghost use Rattle.std.specs.Prelude.{◌≡◌, ◌≤◌, length, map, Some, IfOk, IfErr, OnOk, false};
ghost use Rattle.std.specs.List.{AllByRecursion};
ghost use Rattle.layout.specs.Text.{bits_of};
ghost use Rattle.usac_frame.specs.AccessUnit.{frame_of};
ghost use Rattle.usac_frame.specs.Frame.{FitsConfig, FrameFaults};
ghost use Rattle.usac_frame.specs.Units.{unit_of};
ghost use Rattle.preroll.specs.Faults.{is_carry_memory, of_unit};
ghost use Rattle.preroll.specs.PreRoll.{HasBytes};
ghost use Rattle.preroll.specs.Steps.{IsUnitFault, HaveNoPreRoll, IsNestedFault, first_independent};

use crate::carried_units::Units;
use crate::fault::CarryFault;
use bit_core::{Items, Octets};
use std::alloc::{AllocError, Global};
use usac_cfg::UsacConfig;
use usac_frame::{Frame, FrameFault, payload_length, read_frame, unit_of};

/// The access units of a preroll as frames.
pub type Frames = Items<Frame>;

fn read_unit(alloc: Global, config: &UsacConfig, k: u32, unit: &[u8]) -> Result<Frame, CarryFault>
    requires { length unit.now ≤ 16777216 }
    ensures found { IfOk result (λ frame. frame_of config.now unit.now ≡ Some frame) }
    ensures bad { IfErr result (λ e. is_carry_memory e ≡ false → (f : FrameFault) × (e ≡ of_unit k f) × FrameFaults config.now f (bits_of unit.now)) }
{
    match read_frame(alloc, config, unit) {
        Ok(frame) => Ok(frame),
        Err(fault) => Err(CarryFault::of_unit(k, fault)),
    }
}

/// Reads each access unit as a frame.
pub fn read_units(
    alloc: Global,
    config: &UsacConfig,
    units: &[Octets],
) -> Result<Frames, CarryFault>
    requires few { length units.now ≤ 18 }
    requires bytes { AllByRecursion (HasBytes 131070) units.now }
    ensures found { IfOk result (λ frames. map (frame_of config.now) units.now ≡ map Some frames) }
    ensures bad { IfErr result (λ e. is_carry_memory e ≡ false → IsUnitFault config.now units.now e) }
{
    let mut frames = Frames::new(alloc);
    for k in 0..units.len() {
        let frame = read_unit(alloc, config, k as u32, units[k].as_slice())?;
        frames.push(frame)?;
    }
    Ok(frames)
}

/// Refuses the first frame that has a preroll.
pub fn check_nested(config: &UsacConfig, frames: &[Frame]) -> Result<(), CarryFault>
    requires { length frames.now ≤ 18 }
    ensures ok { OnOk result (HaveNoPreRoll config.now frames.now) }
    ensures bad { IfErr result (λ e. IsNestedFault config.now frames.now e) }
{
    for k in 0..frames.len() {
        if payload_length(config, &frames[k]) > 0 {
            return Err(CarryFault::Nested { k: k as u32 });
        }
    }
    Ok(())
}

/// Whether the first of the frames is independent; where there is none, whether the frame is.
pub fn first_is_independent(frame: &Frame, frames: &[Frame]) -> bool
    ensures { result ≡ first_independent frame.now frames.now }
{
    match frames.first() {
        Some(first) => first.independent,
        None => frame.independent,
    }
}

/// The units of frames that fit the configuration.
pub fn units_of(alloc: Global, config: &UsacConfig, frames: &[Frame]) -> Result<Units, AllocError>
    requires { AllByRecursion (FitsConfig config.now) frames.now }
    ensures { IfOk result (λ units. units ≡ map (unit_of config.now) frames.now) }
{
    let mut units = Units::new(alloc);
    for frame in frames {
        let unit = unit_of(alloc, config, frame)?;
        units.push(unit)?;
    }
    Ok(units)
}
