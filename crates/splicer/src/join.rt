// The rules of a frame, of a start, and of a join.
ghost use Rattle.std.specs.Prelude.{◌≡◌, ◌≤◌, ◌==◌, length, Ok};
ghost use Rattle.usac_cfg.specs.UsacConfig.{IsWellFormed};
ghost use Rattle.usac_frame.specs.Frame.{FitsConfig};
ghost use Rattle.usac_frame.specs.AccessUnit.{IsFrame};
ghost use Rattle.usac_frame.specs.Units.{payload_length};
ghost use Rattle.preroll.specs.Carrying.{short_at, carried_of};
ghost use Rattle.splicer.specs.Foreign.{same_unit, foreign};
ghost use Rattle.splicer.specs.Rules.{short_rule, carry_rule, start_of, units_rule};
ghost use Rattle.splicer.specs.Steps.{Judges, Passes, value_of, IsHead, head_rule};

use crate::fault::SpliceFault;
use preroll::{CarriedUnits, CarryFault, carried};
use std::alloc::Global;
use usac_cfg::UsacConfig;
use usac_frame::{Frame, Unit, payload_length, read_frame};

/// Reads the frame that an access unit is.
pub fn read_numbered(
    alloc: Global,
    number: u64,
    config: &UsacConfig,
    au: &[u8],
) -> Result<Frame, SpliceFault>
    requires { length au.now ≤ 16777216 }
    ensures { Judges result (short_rule number (short_at config.now au.now)) (λ g. IsFrame config.now au.now g) }
{
    match read_frame(alloc, config, au) {
        Ok(frame) => Ok(frame),
        Err(fault) => Err(SpliceFault::of_frame(number, fault)),
    }
}

/// The units that a frame carries.
pub fn carry(
    alloc: Global,
    number: u64,
    config: &UsacConfig,
    frame: &Frame,
) -> Result<CarriedUnits, SpliceFault>
    requires well_formed { IsWellFormed config.now }
    requires fits { FitsConfig config.now frame.now }
    ensures { Judges result (carry_rule number (carried_of config.now frame.now)) (λ k. carried_of config.now frame.now ≡ Ok (value_of k)) }
{
    match carried(alloc, config, frame) {
        Ok(carried) => Ok(carried),
        Err(fault) => Err(SpliceFault::of_carry(number, fault)),
    }
}

/// What frame 0 carries, where it has a preroll; refuses it where no stream may begin with it.
pub fn begin(
    alloc: Global,
    config: &UsacConfig,
    frame: &Frame,
) -> Result<Option<CarriedUnits>, SpliceFault>
    requires well_formed { IsWellFormed config.now }
    requires fits { FitsConfig config.now frame.now }
    ensures { Judges result (start_of (payload_length config.now frame.now == 0) frame.now.independent (carried_of config.now frame.now)) (λ head. IsHead head (carried_of config.now frame.now)) }
{
    if payload_length(config, frame) > 0 {
        let units = carry(alloc, 0, config, frame)?;
        return Ok(Some(units));
    }
    if !frame.independent {
        return Err(SpliceFault::NotIndependent { frame: 0 });
    }
    Ok(None)
}

fn is_same_unit(a: &Unit, b: &Unit) -> bool
    ensures { result ≡ same_unit a.now b.now }
{
    a.same(b)
}

/// The first of some carried units that is not the one that stands for it before the frame.
fn first_foreign(before: &[Unit], units: &[Unit]) -> Option<u32>
    requires few { length units.now ≤ 18 }
    ensures { result ≡ foreign before.now units.now }
{
    if before.len() < units.len() {
        return Some(0);
    }
    let skipped = before.len() - units.len();
    for k in 0..units.len() {
        if !is_same_unit(&units[k], &before[skipped + k]) {
            return Some(k as u32);
        }
    }
    None
}

/// Refuses too few carried units, and others than the stream has before the frame.
pub fn check_units(
    number: u64,
    need: u32,
    before: &[Unit],
    carried: &CarriedUnits,
) -> Result<(), SpliceFault>
    ensures { Passes result (units_rule number need before.now carried.now.units) }
{
    let have = carried.carried_count();
    if have < need {
        return Err(SpliceFault::TooFew {
            frame: number,
            have,
            need,
        });
    }
    match first_foreign(before, carried.units.as_slice()) {
        None => Ok(()),
        Some(k) => Err(SpliceFault::PrerollForeign { frame: number, k }),
    }
}

/// The rules of the units at frame 0, of which it is known what it carries.
pub fn check_head(need: u32, head: &Option<CarriedUnits>) -> Result<(), SpliceFault>
    ensures { Passes result (head_rule need head.now) }
{
    match head {
        None => Err(SpliceFault::Carry {
            frame: 0,
            fault: CarryFault::NotImmediate,
        }),
        Some(carried) => check_units(0, need, carried.units.as_slice(), carried),
    }
}
