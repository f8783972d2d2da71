// Whether a frame is played, and how. Nothing changes before that is known.
ghost use Rattle.std.specs.Prelude.{◌≡◌, ◌≢◌, Some, None, IfOk, IfErr, IfSome};
ghost use Rattle.std.specs.Option.{option_copied};
ghost use Rattle.usac_cfg.specs.UsacConfig.{IsWellFormed};
ghost use Rattle.usac_frame.specs.Frame.{FitsConfig};
ghost use Rattle.switch_player.specs.Turns.{IsTurn, Judges, HasEnough, IsTurnAt, JudgesAt};

use crate::fault::PlayFault;
use crate::turn::Turn;
use core_iface::Core;
use preroll::{CarriedUnits, carried};
use std::alloc::Global;
use usac_cfg::UsacConfig;
use usac_frame::{Frame, payload_length};

/// The first frame: rules 2 and 5.
fn judge_start<C: Core>(
    alloc: Global,
    config: &UsacConfig,
    frame: &Frame,
) -> Result<Turn, PlayFault>
    requires well_formed { IsWellFormed config.now }
    requires fits { FitsConfig config.now frame.now }
    ensures taken { IfOk result (λ turn. IsTurn C.does None config.now frame.now turn) }
    ensures refused { IfErr result (λ e. Judges C.does None config.now frame.now e) }
{
    if payload_length(config, frame) > 0 {
        let units = carried(alloc, config, frame)?;
        return Ok(Turn::Start(Some(units)));
    }
    if !frame.independent {
        return Err(PlayFault::NotIndependent);
    }
    Ok(Turn::Start(None))
}

/// What a frame carries, as many units as the warm-up: rules 5 and 6.
fn judge_carried<C: Core>(
    alloc: Global,
    core: &C,
    config: &UsacConfig,
    frame: &Frame,
) -> Result<CarriedUnits, PlayFault>
    requires well_formed { IsWellFormed config.now }
    requires fits { FitsConfig config.now frame.now }
    ensures taken { IfOk result (λ units. HasEnough C.does config.now frame.now units) }
    ensures refused { IfErr result (λ e. JudgesAt C.does config.now frame.now e) }
{
    let units = carried(alloc, config, frame)?;
    let have = units.carried_count();
    let need = core.warm_up(config);
    if have < need {
        return Err(PlayFault::TooFew { have, need });
    }
    Ok(units)
}

/// A frame of another configuration: rules 3 to 6.
fn judge_join<C: Core>(
    alloc: Global,
    core: &C,
    before: &UsacConfig,
    config: &UsacConfig,
    frame: &Frame,
) -> Result<Turn, PlayFault>
    requires before_well_formed { IsWellFormed before.now }
    requires well_formed { IsWellFormed config.now }
    requires fits { FitsConfig config.now frame.now }
    requires other { before.now ≢ config.now }
    ensures taken { IfOk result (λ turn. IsTurn C.does (Some before.now) config.now frame.now turn) }
    ensures refused { IfErr result (λ e. Judges C.does (Some before.now) config.now frame.now e) }
{
    if before.rate() != config.rate() {
        return Err(PlayFault::RateChanged);
    }
    if before.channels() != config.channels() {
        return Err(PlayFault::ChannelsChanged);
    }
    let units = judge_carried(alloc, core, config, frame)?;
    Ok(Turn::Join(units))
}

/// How a frame is played behind a frame of the last configuration, or as the first one; or the first of rules 2 to 6 that it
/// breaks.
pub fn judge<C: Core>(
    alloc: Global,
    core: &C,
    last: Option<&UsacConfig>,
    config: &UsacConfig,
    frame: &Frame,
) -> Result<Turn, PlayFault>
    requires before_well_formed { IfSome (option_copied last) IsWellFormed }
    requires well_formed { IsWellFormed config.now }
    requires fits { FitsConfig config.now frame.now }
    ensures taken { IfOk result (λ turn. IsTurn C.does (option_copied last.entry) config.now frame.now turn) }
    ensures refused { IfErr result (λ e. Judges C.does (option_copied last.entry) config.now frame.now e) }
{
    match last {
        None => judge_start::<C>(alloc, config, frame),
        Some(before) => {
            if before.same(config) {
                return Ok(Turn::GoesOn);
            }
            judge_join(alloc, core, before, config, frame)
        }
    }
}

/// How a frame within a stream is played as the first one; or the first of rules 5 and 6 that it breaks.
pub fn judge_at<C: Core>(
    alloc: Global,
    core: &C,
    config: &UsacConfig,
    frame: &Frame,
) -> Result<Turn, PlayFault>
    requires well_formed { IsWellFormed config.now }
    requires fits { FitsConfig config.now frame.now }
    ensures taken { IfOk result (λ turn. IsTurnAt C.does config.now frame.now turn) }
    ensures refused { IfErr result (λ e. JudgesAt C.does config.now frame.now e) }
{
    let units = judge_carried(alloc, core, config, frame)?;
    Ok(Turn::Start(Some(units)))
}
