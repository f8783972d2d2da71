ghost use Rattle.std.specs.Prelude.{◌≡◌, ◌≤◌, List, Bool, length};
ghost use Rattle.usac_frame.specs.Units.{is_immediate};
ghost use Rattle.usac_frame.specs.Head.{with_rest, GivesHead, ReadsHead, ReadsHeadAt};

use crate::fault::FrameFault;
use crate::part::{ExtPart, Parts};
use crate::reading::read_parts;
use bit_core::{BitReader, flag};
use std::alloc::Global;
use usac_cfg::UsacConfig;

/// A frame without its rest.
#[derive(Debug, Drop)]
pub struct FrameHead {
    /// usacIndependencyFlag.
    pub independent: bool,
    /// The leading extension elements.
    pub leading: Parts,
}

impl FrameHead {
    /// Whether a frame with this head is an immediate play-out frame.
    pub fn is_immediate(&self, config: &UsacConfig) -> bool
        ensures { (rest : List Bool) → result ≡ is_immediate config.now (with_rest self.now rest) }
    {
        if !config.declares_preroll() {
            return false;
        }
        match self.leading.get(0) {
            Some(
                ExtPart::Present {
                    start,
                    stop,
                    payload,
                    ..
                },
            ) => payload.len() > 0 && *start && *stop,
            _ => false,
        }
    }
}

/// Reads a frame up to its rest. On error some fields may already be consumed.
fn read_head_fields(
    alloc: Global,
    config: &UsacConfig,
    reader: &mut BitReader,
) -> Result<FrameHead, FrameFault>
    ensures { GivesHead config.now reader.old reader.new result }
{
    let independent = flag(reader)?;
    let leading = read_parts(alloc, reader, config.elements.as_slice())?;
    Ok(FrameHead {
        independent,
        leading,
    })
}

/// Reads the head of an access unit of at most 16,777,216 bytes, with the faults of `read_frame`. Its rest is not copied.
pub fn read_head(alloc: Global, config: &UsacConfig, au: &[u8]) -> Result<FrameHead, FrameFault>
    requires { length au.now ≤ 16777216 }
    ensures { ReadsHead config.now au.now result }
{
    let mut reader = BitReader::new(au);
    read_head_at(alloc, config, &mut reader)
}

/// Reads the head of the access unit that all bits left to a reader are. On error some fields may already be consumed.
///
/// Errors: those of `read_frame`, whose places count as the reader counts them.
pub fn read_head_at(
    alloc: Global,
    config: &UsacConfig,
    reader: &mut BitReader,
) -> Result<FrameHead, FrameFault>
    ensures { ReadsHeadAt config.now reader.old result }
{
    read_head_fields(alloc, config, reader)
}
