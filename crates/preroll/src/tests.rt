ghost use Rattle.std.specs.Prelude.{◌≤◌, length, IfOk};
ghost use Rattle.usac_cfg.specs.UsacConfig.{IsWellFormed};
ghost use Rattle.usac_frame.specs.Frame.{FitsConfig};
ghost use Rattle.preroll.specs.PreRoll.{IsWellFormed as IsWellFormedPreRoll};

use crate::{CarryFault, PreFault, PreRoll, carried, read_preroll, write_preroll};
use bit_core::BitReader;
use std::alloc::Global;
use std::process::Abort;
use std::test::Fail;
use usac_cfg::{CfgFault, UsacConfig};
use usac_frame::{Frame, FrameFault, read_frame, unit_of};
use vectors::{
    CARRIED, CarriedRow, PREROLLS, PreRollRow, SHORT_PREROLLS, UNCARRIED, UncarriedRow, bytes_of,
};

// What is read can be written.
fn read_well(alloc: Global, payload: &[u8]) -> Result<PreRoll, PreFault>
    requires { length payload.now ≤ 16777216 }
    ensures { IfOk result (λ preroll. IsWellFormedPreRoll preroll) }
{
    read_preroll(alloc, payload)
}

fn check_preroll(rt: &(impl Abort + AllocGlobal), row: &PreRollRow) -> Result<(), Fail> {
    let (text, config, fade, reserved, units, tail) = *row;
    let payload = bytes_of(rt.alloc(), text)?;
    assert!(rt; payload.len() <= 64);
    let preroll = read_well(rt.alloc(), &payload)?;
    let wanted = bytes_of(rt.alloc(), config)?;
    assert_eq!(rt; preroll.config.as_slice(), wanted.as_slice(), "{text}");
    assert_eq!(rt;
        (preroll.fade, preroll.reserved),
        (fade, reserved),
        "{text}"
    );
    assert_eq!(rt; preroll.tail.len(), tail, "{text}");
    assert_eq!(rt; preroll.units.as_slice().len(), units.len(), "{text}");
    for (unit, wanted) in preroll.units.as_slice().iter().zip(units) {
        let wanted = bytes_of(rt.alloc(), wanted)?;
        assert_eq!(rt; unit.as_slice(), wanted.as_slice(), "{text}");
    }
    let written = write_preroll(rt.alloc(), &preroll)?;
    assert_eq!(rt; written.as_slice(), payload.as_slice(), "{text}");
    Ok(())
}

#[test]
fn prerolls_are_read_and_written(rt: HostRuntime) -> Result<(), Fail> {
    for row in PREROLLS {
        check_preroll(&rt, row)?;
    }
    Ok(())
}

#[test]
fn short_prerolls_are_refused(rt: HostRuntime) -> Result<(), Fail> {
    for (text, wanted) in SHORT_PREROLLS {
        let payload = bytes_of(rt.alloc(), text)?;
        assert!(rt; payload.len() <= 64);
        let found = match read_preroll(rt.alloc(), &payload) {
            Err(PreFault::Short { at }) => Some(at),
            _ => None,
        };
        assert_eq!(rt; found, Some(*wanted), "{text}");
    }
    Ok(())
}

fn config_of(alloc: Global, bytes: &[u8]) -> Result<UsacConfig, CfgFault>
    requires { length bytes.now ≤ 16777216 }
    ensures { IfOk result (λ config. IsWellFormed config) }
{
    UsacConfig::read(alloc, &mut BitReader::new(bytes))
}

fn frame_of(alloc: Global, config: &UsacConfig, au: &[u8]) -> Result<Frame, FrameFault>
    requires { length au.now ≤ 16777216 }
    ensures { IfOk result (λ frame. FitsConfig config.now frame) }
{
    read_frame(alloc, config, au)
}

fn check_carried(rt: &(impl Abort + AllocGlobal), row: &CarriedRow) -> Result<(), Fail> {
    let (config, au, fade, units) = *row;
    let bytes = bytes_of(rt.alloc(), config)?;
    assert!(rt; bytes.len() <= 16);
    let config = config_of(rt.alloc(), &bytes)?;
    let bytes = bytes_of(rt.alloc(), au)?;
    assert!(rt; bytes.len() <= 64);
    let frame = frame_of(rt.alloc(), &config, &bytes)?;
    let found = carried(rt.alloc(), &config, &frame)?;
    assert_eq!(rt; found.fade, fade, "{au}");
    assert_eq!(rt; found.carried_count() as usize, units.len(), "{au}");
    for (unit, wanted) in found.units.as_slice().iter().zip(units) {
        let bytes = bytes_of(rt.alloc(), wanted)?;
        assert!(rt; bytes.len() <= 64);
        let frame = frame_of(rt.alloc(), &config, &bytes)?;
        assert!(rt; unit.same(&unit_of(rt.alloc(), &config, &frame)?), "{au}");
    }
    Ok(())
}

#[test]
fn units_are_carried(rt: HostRuntime) -> Result<(), Fail> {
    for row in CARRIED {
        check_carried(&rt, row)?;
    }
    Ok(())
}

// The fault by its name, the number of the access unit, and the bit.
fn named(fault: CarryFault) -> (&'static str, u32, u64) {
    match fault {
        CarryFault::NotImmediate => ("NotImmediate", 0, 0),
        CarryFault::Split => ("Split", 0, 0),
        CarryFault::BadPreroll { at } => ("BadPreroll", 0, at),
        CarryFault::BadConfig => ("BadConfig", 0, 0),
        CarryFault::ConfigDiffers => ("ConfigDiffers", 0, 0),
        CarryFault::BadUnit { k, at } => ("BadUnit", k, at),
        CarryFault::Nested { k } => ("Nested", k, 0),
        CarryFault::FirstDependent => ("FirstDependent", 0, 0),
        CarryFault::Memory(_) => ("Memory", 0, 0),
    }
}

fn check_uncarried(rt: &(impl Abort + AllocGlobal), row: &UncarriedRow) -> Result<(), Fail> {
    let (config, au, fault, k, at) = *row;
    let bytes = bytes_of(rt.alloc(), config)?;
    assert!(rt; bytes.len() <= 16);
    let config = config_of(rt.alloc(), &bytes)?;
    let bytes = bytes_of(rt.alloc(), au)?;
    assert!(rt; bytes.len() <= 64);
    let frame = frame_of(rt.alloc(), &config, &bytes)?;
    let found = match carried(rt.alloc(), &config, &frame) {
        Ok(_) => ("", 0, 0),
        Err(fault) => named(fault),
    };
    assert_eq!(rt; found, (fault, k, at), "{au}");
    Ok(())
}

#[test]
fn the_first_broken_rule_is_answered(rt: HostRuntime) -> Result<(), Fail> {
    for row in UNCARRIED {
        check_uncarried(&rt, row)?;
    }
    Ok(())
}
