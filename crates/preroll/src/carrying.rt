ghost use Rattle.std.specs.Prelude.{◌≡◌, ◌<◌, ◌≤◌, ◌↔◌, [], length, false, IsTrue, IfOk, IfErr, OnOk};
ghost use Rattle.layout.specs.Reader.{left};
ghost use Rattle.usac_cfg.specs.UsacConfig.{IsWellFormed};
ghost use Rattle.usac_frame.specs.Frame.{FitsConfig};
ghost use Rattle.preroll.specs.declared.fault.CarryFault.TheVariants.{BadConfig};
ghost use Rattle.preroll.specs.Faults.{is_carry_memory};
ghost use Rattle.preroll.specs.Carried.{IsConfigIn, IsNoConfig, IsOtherConfig, IsFirst, Carries};
ghost use Rattle.preroll.specs.Steps.{IsConfigFault, IsOpened, AreCarried};

use crate::carried_units::CarriedUnits;
use crate::fault::CarryFault;
use crate::preroll::{PreRoll, read_preroll};
use crate::units::{Frames, check_nested, first_is_independent, read_units, units_of};
use bit_core::BitReader;
use std::alloc::Global;
use usac_cfg::UsacConfig;
use usac_frame::{Frame, first_payload, is_whole, payload_length};

/// Whether more bits are left than may stand behind a configuration.
fn has_byte_left(reader: &BitReader) -> bool
    ensures { IsTrue result ↔ (7 < length (left reader.now)) }
{
    reader.left() > 7
}

/// Reads bytes that are a configuration and at most 7 further bits.
fn read_config(alloc: Global, bytes: &[u8]) -> Result<UsacConfig, CarryFault>
    requires { length bytes.now ≤ 16777216 }
    ensures found { IfOk result (λ own. IsConfigIn bytes.now own) }
    ensures bad { IfErr result (λ e. is_carry_memory e ≡ false → (e ≡ BadConfig) × ((d : UsacConfig) → IsConfigIn bytes.now d → ⊥)) }
{
    let mut reader = BitReader::new(bytes);
    let own = UsacConfig::read(alloc, &mut reader)?;
    if has_byte_left(&reader) {
        return Err(CarryFault::BadConfig);
    }
    Ok(own)
}

/// Whether the preroll has no configuration of its own.
fn is_left_out(bytes: &[u8]) -> bool
    ensures { IsTrue result ↔ (bytes.now ≡ []) }
{
    bytes.is_empty()
}

/// Refuses a configuration that is not empty and not the frame's.
fn check_config(alloc: Global, config: &UsacConfig, bytes: &[u8]) -> Result<(), CarryFault>
    requires { length bytes.now ≤ 16777216 }
    ensures good { OnOk result (IsNoConfig bytes.now → ⊥) }
    ensures same { OnOk result (IsOtherConfig config.now bytes.now → ⊥) }
    ensures bad { IfErr result (λ e. is_carry_memory e ≡ false → IsConfigFault config.now bytes.now e) }
{
    if is_left_out(bytes) {
        return Ok(());
    }
    let own = read_config(alloc, bytes)?;
    if !own.same(config) {
        return Err(CarryFault::ConfigDiffers);
    }
    Ok(())
}

/// Reads the preroll of a frame that is immediate: the first three rules.
fn read_whole(alloc: Global, config: &UsacConfig, frame: &Frame) -> Result<PreRoll, CarryFault>
    requires well_formed { IsWellFormed config.now }
    requires fits { FitsConfig config.now frame.now }
    ensures found { IfOk result (λ preroll. IsOpened config.now frame.now preroll) }
    ensures refused { IfErr result (λ e. is_carry_memory e ≡ false → IsFirst config.now frame.now e) }
{
    if payload_length(config, frame) == 0 {
        return Err(CarryFault::NotImmediate);
    }
    if !is_whole(frame) {
        return Err(CarryFault::Split);
    }
    let preroll = read_preroll(alloc, first_payload(frame))?;
    Ok(preroll)
}

/// The access units of the preroll as frames: the other five rules.
fn read_frames(
    alloc: Global,
    config: &UsacConfig,
    frame: &Frame,
    preroll: &PreRoll,
) -> Result<Frames, CarryFault>
    requires { IsOpened config.now frame.now preroll.now }
    ensures found { IfOk result (λ frames. AreCarried config.now frame.now preroll.now frames) }
    ensures refused { IfErr result (λ e. is_carry_memory e ≡ false → IsFirst config.now frame.now e) }
{
    check_config(alloc, config, preroll.config.as_slice())?;
    let frames = read_units(alloc, config, preroll.units.as_slice())?;
    check_nested(config, frames.as_slice())?;
    if !first_is_independent(frame, frames.as_slice()) {
        return Err(CarryFault::FirstDependent);
    }
    Ok(frames)
}

/// The units that the preroll of a frame carries. The frame fits the configuration, which is well formed.
///
/// Errors: the fault of the first of the eight rules of `CarryFault` that the frame breaks, each tried over all access units
/// before the next; or out of memory.
pub fn carried(
    alloc: Global,
    config: &UsacConfig,
    frame: &Frame,
) -> Result<CarriedUnits, CarryFault>
    requires well_formed { IsWellFormed config.now }
    requires fits { FitsConfig config.now frame.now }
    ensures found { IfOk result (λ carried. Carries config.now frame.now carried.fade carried.units) }
    ensures refused { IfErr result (λ e. is_carry_memory e ≡ false → IsFirst config.now frame.now e) }
{
    let preroll = read_whole(alloc, config, frame)?;
    let frames = read_frames(alloc, config, frame, &preroll)?;
    let units = units_of(alloc, config, frames.as_slice())?;
    Ok(CarriedUnits {
        fade: preroll.fade,
        units,
    })
}
