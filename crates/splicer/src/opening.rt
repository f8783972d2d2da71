// The rules of the configuration, and the frames at which a piece begins and ends.
ghost use Rattle.std.specs.Prelude.{◌≡◌, ◌<◌};
ghost use Rattle.layout.specs.Layout.{FitsOption};
ghost use Rattle.usac_cfg.specs.UsacConfig.{IsWellFormed, frame_length};
ghost use Rattle.usac_cfg.specs.Same.{same};
ghost use Rattle.timeline.specs.Bounds.{bounds_result};
ghost use Rattle.splicer.specs.Rules.{level_rule, bounds_rule, opening_rule, change_rule, other_rule, from_of};
ghost use Rattle.splicer.specs.Turns.{to_of};
ghost use Rattle.splicer.specs.Steps.{Passes};

use crate::asked::Asked;
use crate::fault::SpliceFault;
use timeline::{PlanFault, bounds};
use usac_cfg::UsacConfig;

/// The number of output samples of a frame.
fn length_of(config: &UsacConfig) -> u32
    requires { IsWellFormed config.now }
    ensures length { result ≡ frame_length config.now }
    ensures some { 0 < result }
{
    config.frame_length()
}

/// Whether two configurations are equal, in every field.
fn is_same(a: &UsacConfig, b: &UsacConfig) -> bool
    requires first { IsWellFormed a.now }
    requires second { IsWellFormed b.now }
    ensures { result ≡ same a.now b.now }
{
    a.same(b)
}

/// Refuses another rate or number of channels than those of the rendition before.
fn check_level(
    piece: u32,
    before: &Option<UsacConfig>,
    config: &UsacConfig,
) -> Result<(), SpliceFault>
    requires before { FitsOption IsWellFormed before.now }
    requires well_formed { IsWellFormed config.now }
    ensures { Passes result (level_rule piece before.now config.now) }
{
    let Some(last) = before else {
        return Ok(());
    };
    if last.rate() != config.rate() {
        return Err(SpliceFault::Plan(PlanFault::RateDiffers { piece }));
    }
    if last.channels() != config.channels() {
        return Err(SpliceFault::Plan(PlanFault::ChannelsDiffer { piece }));
    }
    Ok(())
}

/// Refuses positions at which no frame stands.
fn check_bounds(asked: &Asked, config: &UsacConfig) -> Result<(), SpliceFault>
    requires { IsWellFormed config.now }
    ensures { Passes result (bounds_rule (bounds_result asked.now.piece (frame_length config.now) asked.now.position asked.now.until)) }
{
    match bounds(asked.piece, length_of(config), asked.position, asked.until) {
        Ok(_) => Ok(()),
        Err(fault) => Err(SpliceFault::Plan(fault)),
    }
}

/// The rules of the configuration at frame 0.
pub fn check_opening(asked: &Asked, config: &UsacConfig) -> Result<(), SpliceFault>
    requires before { FitsOption IsWellFormed asked.now.before }
    requires well_formed { IsWellFormed config.now }
    ensures { Passes result (opening_rule asked.now config.now) }
{
    check_level(asked.piece, &asked.before, config)?;
    check_bounds(asked, config)
}

/// Refuses another configuration than that of frame 0.
pub fn check_change(first: &UsacConfig, number: u64, config: &UsacConfig) -> Result<(), SpliceFault>
    requires of_first { IsWellFormed first.now }
    requires well_formed { IsWellFormed config.now }
    ensures { Passes result (change_rule first.now number config.now) }
{
    if is_same(first, config) {
        return Ok(());
    }
    Err(SpliceFault::ConfigChanges { frame: number })
}

/// Refuses the configuration of the rendition before.
pub fn check_other(
    before: &Option<UsacConfig>,
    number: u64,
    config: &UsacConfig,
) -> Result<(), SpliceFault>
    requires before { FitsOption IsWellFormed before.now }
    requires well_formed { IsWellFormed config.now }
    ensures { Passes result (other_rule before.now number config.now) }
{
    match before {
        Some(last) if is_same(last, config) => Err(SpliceFault::SameConfig { frame: number }),
        _ => Ok(()),
    }
}

/// The frame at which the piece begins.
pub fn first_frame(asked: &Asked, config: &UsacConfig) -> u64
    requires { IsWellFormed config.now }
    ensures from { result ≡ from_of asked.now config.now }
{
    asked.position / u64::from(length_of(config))
}

/// The frame behind the piece, where another piece follows.
pub fn end_frame(asked: &Asked, config: &UsacConfig) -> Option<u64>
    requires { IsWellFormed config.now }
    ensures to { result ≡ to_of asked.now config.now }
{
    match asked.until {
        None => None,
        Some(until) => Some(until / u64::from(length_of(config))),
    }
}
