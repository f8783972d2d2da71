// The frame of an access unit.
ghost use Rattle.std.specs.Prelude.{◌≤◌, length, IfErr};
ghost use Rattle.xheaac_tool.specs.Reading.{ReadsUnit, ReadsUnitHead, IsJudgement};

use au_stream::EventView;
use commands::{FrameEnd, too_short};
use std::alloc::Global;
use usac_cfg::UsacConfig;
use usac_frame::{Frame, FrameFault, FrameHead, read_frame, read_head_at};

/// Reads the frame that an access unit is. One that is none is refused at the first bit of its leftmost field that lacks bits.
pub fn read_unit_frame(
    alloc: Global,
    event: &EventView,
    config: &UsacConfig,
) -> Result<Frame, FrameEnd>
    requires { length event.now.au ≤ 8191 }
    ensures reads { ReadsUnit event.now.frame config.now event.now.au result }
    ensures judges { IfErr result IsJudgement }
{
    let au = event.au(alloc)?;
    match read_frame(alloc, config, au.as_slice()) {
        Ok(frame) => Ok(frame),
        Err(FrameFault::Short { at }) => Err(too_short(event.frame(), at)),
        Err(FrameFault::Memory(error)) => Err(FrameEnd::Memory(error)),
    }
}

/// Reads the head of the frame that an access unit is, where it stands, with the refusals of `read_unit_frame`.
pub fn read_unit_head(
    alloc: Global,
    event: &EventView,
    config: &UsacConfig,
) -> Result<FrameHead, FrameEnd>
    requires { length event.now.au ≤ 8191 }
    ensures reads { ReadsUnitHead event.now.frame config.now event.now.au result }
    ensures judges { IfErr result IsJudgement }
{
    let mut reader = event.reader();
    if let Ok(head) = read_head_at(alloc, config, &mut reader) {
        return Ok(head);
    }
    // read once more, for a fault whose place counts from the first bit of the access unit
    let frame = read_unit_frame(alloc, event, config)?;
    Ok(FrameHead {
        independent: frame.independent,
        leading: frame.leading,
    })
}
