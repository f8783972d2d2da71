// A frame on a core.
ghost use Rattle.std.specs.Prelude.{◌≡◌, ◌+◌, ◌-◌, ◌*◌, ◌^◌, ◌≤◌, ◌++◌, length, false, None, OnOk, OnErr, IsSome};
ghost use Rattle.causes.specs.Counts.{HasCause};
ghost use Rattle.usac_cfg.specs.UsacConfig.{IsWellFormed, channels};
ghost use Rattle.core_iface.specs.Answering.{stepped_over, drained};
ghost use Rattle.core_iface.specs.Faults.{has_failed};
ghost use Rattle.preroll.specs.Carrying.{Shown, units_in};
ghost use Rattle.switch_player.specs.Blending.{blended};
ghost use Rattle.switch_player.specs.Turns.{Begins, Turns, carried_at_start, CanTurn};

use crate::blending::blend;
use crate::turn::Turn;
use core_iface::{Core, CoreFault, Unit};
use preroll::CarriedUnits;
use std::alloc::{AllocError, Global};
use usac_cfg::UsacConfig;

/// Steps units and drops their blocks.
fn step_units<C: Core>(alloc: Global, core: &mut C, units: &[Unit]) -> Result<(), CoreFault>
    requires ready { IsSome (C.meaning core.old).ready }
    requires fed { (C.meaning core.old).fed + length units.now ≤ 2 ^ 64 - 1 }
    ensures ready { OnOk result (IsSome (C.meaning core.new).ready) }
    ensures state { OnOk result ((C.meaning core.new).ready ≡ stepped_over C.does (C.meaning core.old).ready units.now) }
    ensures fed { OnOk result ((C.meaning core.new).fed ≡ (C.meaning core.old).fed + length units.now) }
    ensures unready { OnErr result ((C.meaning core.new).ready ≡ None) }
    ensures fed_some { OnErr result (((C.meaning core.old).fed ≤ (C.meaning core.new).fed)
        × ((C.meaning core.new).fed ≤ (C.meaning core.old).fed + length units.now)) }
    ensures faults { HasCause (has_failed result) (C.meaning core.old).faults (C.meaning core.new).faults }
    ensures stays_calm { C.IsCalm core.old → C.IsCalm core.new }
    ensures calm_never_fails { C.IsCalm core.old → has_failed result ≡ false }
{
    let mut dropped = Vec::new(alloc);
    for unit in units {
        core.step(alloc, unit, &mut dropped)?;
        dropped.clear();
    }
    Ok(())
}

/// Begins to decode at a frame, as a fresh core does: the frame's block is appended, or nothing.
fn begin<C: Core>(
    alloc: Global,
    core: &mut C,
    config: &UsacConfig,
    units: &[Unit],
    unit: &Unit,
    out: &mut Vec<i16>,
) -> Result<(), CoreFault>
    requires well_formed { IsWellFormed config.now }
    requires few { length units.now ≤ 18 }
    requires fed { (C.meaning core.old).fed ≤ 2 ^ 64 - 20 }
    ensures begins { (f : Shown) → f.config ≡ config.now → f.unit ≡ unit.now → units_in f.carried ≡ units.now →
        Begins result C.does f (C.meaning core.old) (C.meaning core.new) out.old.items out.new.items }
    ensures faults { HasCause (has_failed result) (C.meaning core.old).faults (C.meaning core.new).faults }
    ensures stays_calm { C.IsCalm core.old → C.IsCalm core.new }
    ensures calm_serves { C.IsCalm core.old → C.does.serves config.now → has_failed result ≡ false }
{
    core.reset(alloc, config)?;
    step_units(alloc, core, units)?;
    core.step(alloc, unit, out)
}

/// Fades a block in behind the old samples.
fn fade_in(old: &[i16], block: &mut Vec<i16>, channels: u32)
    requires some { 1 ≤ channels }
    requires fade { length old.now ≡ 128 * channels }
    requires within { length old.now ≤ length block.old.items }
    ensures { block.new.items ≡ blended channels old.now block.old.items }
{
    blend(old, block, channels);
}

/// Appends a block, into whose first samples the old ones fade; or nothing.
fn push_faded(
    old: &[i16],
    mut block: Vec<i16>,
    channels: u32,
    out: &mut Vec<i16>,
) -> Result<(), AllocError>
    requires some { 1 ≤ channels }
    requires fade { length old.now ≡ 128 * channels }
    requires within { length old.now ≤ length block.items }
    ensures ok { OnOk result (out.new.items ≡ out.old.items ++ blended channels old.now block.items) }
    ensures err { OnErr result (out.new.items ≡ out.old.items) }
{
    fade_in(old, &mut block, channels);
    out.extend_from_slice(&block)
}

/// Begins to decode at a frame of another configuration. Where its preroll asks for a fade, what the core drains fades into the
/// block.
fn join<C: Core>(
    alloc: Global,
    core: &mut C,
    config: &UsacConfig,
    carried: &CarriedUnits,
    unit: &Unit,
    out: &mut Vec<i16>,
) -> Result<(), CoreFault>
    requires well_formed { IsWellFormed config.now }
    requires fed { (C.meaning core.old).fed ≤ 2 ^ 64 - 20 }
    requires ready { IsSome (C.meaning core.old).ready }
    requires drain { length (drained C.does (C.meaning core.old).ready) ≡ 128 * channels config.now }
    ensures turns { Turns result C.does config.now (Turn.Join carried.now) unit.now (C.meaning core.old) (C.meaning core.new) out.old.items out.new.items }
    ensures faults { HasCause (has_failed result) (C.meaning core.old).faults (C.meaning core.new).faults }
    ensures stays_calm { C.IsCalm core.old → C.IsCalm core.new }
    ensures calm_serves { C.IsCalm core.old → C.does.serves config.now → has_failed result ≡ false }
{
    if !carried.fade {
        return begin(alloc, core, config, carried.units.as_slice(), unit, out);
    }
    let mut old = Vec::new(alloc);
    core.flush(alloc, &mut old)?;
    let mut block = Vec::new(alloc);
    begin(
        alloc,
        core,
        config,
        carried.units.as_slice(),
        unit,
        &mut block,
    )?;
    push_faded(&old, block, config.channels(), out)?;
    Ok(())
}

/// The units that the first frame carries.
fn units_at_start(carried: &Option<CarriedUnits>) -> &[Unit]
    ensures units { result.now ≡ units_in (carried_at_start carried.now) }
    ensures few { length result.now ≤ 18 }
{
    match carried {
        Some(carried) => carried.units.as_slice(),
        None => &[],
    }
}

/// Plays a frame: its block is appended, or nothing.
pub fn play_turn<C: Core>(
    alloc: Global,
    core: &mut C,
    config: &UsacConfig,
    turn: &Turn,
    unit: &Unit,
    out: &mut Vec<i16>,
) -> Result<(), CoreFault>
    requires well_formed { IsWellFormed config.now }
    requires fed { (C.meaning core.old).fed ≤ 2 ^ 64 - 20 }
    requires can { CanTurn C.does (C.meaning core.old).ready config.now turn.now }
    ensures turns { Turns result C.does config.now turn.now unit.now (C.meaning core.old) (C.meaning core.new) out.old.items out.new.items }
    ensures faults { HasCause (has_failed result) (C.meaning core.old).faults (C.meaning core.new).faults }
    ensures stays_calm { C.IsCalm core.old → C.IsCalm core.new }
    ensures calm_serves { C.IsCalm core.old → C.does.serves config.now → has_failed result ≡ false }
{
    match turn {
        Turn::GoesOn => core.step(alloc, unit, out),
        Turn::Start(carried) => begin(alloc, core, config, units_at_start(carried), unit, out),
        Turn::Join(carried) => join(alloc, core, config, carried, unit, out),
    }
}
