// The frames of a stream, in one list.
ghost use Rattle.std.specs.Option.{option_copied};
ghost use Rattle.std.specs.Prelude.{◌≡◌, ◌++◌, map, OnOk, IfOk};
ghost use Rattle.latm.specs.Stream.{slots_under, frames_of};
ghost use Rattle.stream_edit.specs.Frames.{pairs_of};

use bit_core::Octets;
use latm::{MuxConfig, Stream};
use std::alloc::{AllocError, Global};
use std::vec::Vec;
use usac_cfg::UsacConfig;

/// A frame of a stream that is held elsewhere: its configuration, and its access unit.
#[derive(Clone, Copy, Debug)]
pub struct FrameRef<'a> {
    /// The UsacConfig in force for it.
    pub config: &'a UsacConfig,
    /// Its access unit.
    pub au: &'a [u8],
}

/// Adds the frames of slots.
fn add_slots<'a>(
    config: &'a UsacConfig,
    slots: &'a [Octets],
    frames: &mut Vec<FrameRef<'a>>,
) -> Result<(), AllocError>
    ensures { OnOk result (pairs_of frames.new.items ≡ pairs_of frames.old.items ++ map (λ au. (config.now, au)) slots.now) }
{
    for slot in slots {
        frames.push(FrameRef {
            config,
            au: slot.as_slice(),
        })?;
    }
    Ok(())
}

/// Adds the frames of slots, where a configuration is in force.
fn add_under<'a>(
    in_force: Option<&'a MuxConfig>,
    slots: &'a [Octets],
    frames: &mut Vec<FrameRef<'a>>,
) -> Result<(), AllocError>
    ensures { OnOk result (pairs_of frames.new.items ≡ pairs_of frames.old.items ++ slots_under (option_copied in_force.entry) slots.now) }
{
    match in_force {
        None => Ok(()),
        Some(config) => add_slots(&config.asc.usac, slots, frames),
    }
}

/// The frames of a stream, in their order.
///
/// Errors: out of memory.
pub fn frames_of(alloc: Global, stream: &Stream) -> Result<Vec<FrameRef<'_>>, AllocError>
    ensures { IfOk result (λ frames. pairs_of frames.items ≡ frames_of stream.now) }
{
    let mut frames: Vec<FrameRef<'_>> = Vec::new(alloc);
    let mut in_force: Option<&MuxConfig> = None;
    for element in stream.elements.as_slice() {
        if let Some(config) = &element.config {
            in_force = Some(config);
        }
        add_under(in_force, element.slots.as_slice(), &mut frames)?;
    }
    Ok(frames)
}
