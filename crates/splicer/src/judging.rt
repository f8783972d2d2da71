// What becomes of a frame, or the first rule that it breaks. Nothing changes before that is known.
ghost use Rattle.std.specs.Prelude.{◌≤◌, length, None};
ghost use Rattle.layout.specs.Layout.{FitsOption};
ghost use Rattle.usac_cfg.specs.UsacConfig.{IsWellFormed};
ghost use Rattle.usac_frame.specs.Frame.{FitsConfig};
ghost use Rattle.preroll.specs.Carrying.{carried_of};
ghost use Rattle.plans.specs.Coded.{Coded};
ghost use Rattle.splicer.specs.Rules.{first_fault, later_rule, later_fault};
ghost use Rattle.splicer.specs.Steps.{Judges, Passes, head_joins, IsJoined, IsJudged, IsJudgedLater};

use crate::asked::Asked;
use crate::fault::SpliceFault;
use crate::join::{begin, carry, check_head, check_units, read_numbered};
use crate::judged::Judged;
use crate::opening::{check_opening, check_other, end_frame, first_frame};
use crate::turn::turn_of_frame;
use preroll::CarriedUnits;
use std::alloc::Global;
use usac_cfg::UsacConfig;
use usac_frame::{Frame, Unit, unit_of};

/// The rules of a join at frame 0, of which it is known what it carries.
fn join_first(
    asked: &Asked,
    config: &UsacConfig,
    need: u32,
    head: &Option<CarriedUnits>,
) -> Result<(), SpliceFault>
    requires before { FitsOption IsWellFormed asked.now.before }
    requires well_formed { IsWellFormed config.now }
    ensures { Passes result (head_joins asked.now need config.now head.now) }
{
    if first_frame(asked, config) != 0 || asked.before.is_none() {
        return Ok(());
    }
    check_other(&asked.before, 0, config)?;
    check_head(need, head)
}

/// Frame 0: by the rules of the configuration, of the frame, of a start, and of a join.
pub fn judge_first(
    alloc: Global,
    asked: &Asked,
    config: &UsacConfig,
    au: &[u8],
    need: u32,
) -> Result<Judged, SpliceFault>
    requires size { length au.now ≤ 16777216 }
    requires before { FitsOption IsWellFormed asked.now.before }
    requires well_formed { IsWellFormed config.now }
    ensures { let f : Coded = record { config = config.now; au = au.now } in
        Judges result (first_fault asked.now need f) (λ j. IsJudged j asked.now None 0 f) }
{
    check_opening(asked, config)?;
    let frame = read_numbered(alloc, 0, config, au)?;
    let head = begin(alloc, config, &frame)?;
    join_first(asked, config, need, &head)?;
    let unit = unit_of(alloc, config, &frame)?;
    let from = first_frame(asked, config);
    let to = end_frame(asked, config);
    let turn = turn_of_frame(from, to, asked.before.is_none(), 0, head.as_ref());
    Ok(Judged { turn, unit, head })
}

/// What a later frame carries, where the piece begins with it; it is judged by the rules of a join then.
fn join_later(
    alloc: Global,
    asked: &Asked,
    number: u64,
    kept: &[Unit],
    config: &UsacConfig,
    frame: &Frame,
    need: u32,
) -> Result<Option<CarriedUnits>, SpliceFault>
    requires before { FitsOption IsWellFormed asked.now.before }
    requires well_formed { IsWellFormed config.now }
    requires fits { FitsConfig config.now frame.now }
    ensures { let carried = carried_of config.now frame.now in
        Judges result (later_rule asked.now number need kept.now config.now carried) (λ units. IsJoined units asked.now number config.now carried) }
{
    if first_frame(asked, config) != number {
        return Ok(None);
    }
    check_other(&asked.before, number, config)?;
    let carried = carry(alloc, number, config, frame)?;
    check_units(number, need, kept, &carried)?;
    Ok(Some(carried))
}

/// A later frame, in a stream with these units before it: by the rules of the frame and of a join.
pub fn judge_later(
    alloc: Global,
    asked: &Asked,
    number: u64,
    kept: &[Unit],
    config: &UsacConfig,
    au: &[u8],
    need: u32,
) -> Result<Judged, SpliceFault>
    requires size { length au.now ≤ 16777216 }
    requires before { FitsOption IsWellFormed asked.now.before }
    requires well_formed { IsWellFormed config.now }
    ensures { let f : Coded = record { config = config.now; au = au.now } in
        Judges result (later_fault asked.now number kept.now need f) (λ j. IsJudgedLater j asked.now number f) }
{
    let frame = read_numbered(alloc, number, config, au)?;
    let carried = join_later(alloc, asked, number, kept, config, &frame, need)?;
    let unit = unit_of(alloc, config, &frame)?;
    let from = first_frame(asked, config);
    let to = end_frame(asked, config);
    let turn = turn_of_frame(from, to, asked.before.is_none(), number, carried.as_ref());
    Ok(Judged {
        turn,
        unit,
        head: None,
    })
}
