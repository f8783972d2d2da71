ghost use Rattle.std.specs.Prelude.{◌≡◌, ◌≤◌, ◌==◌, length, IfOk};
ghost use Rattle.usac_frame.specs.declared.frame.Frame.{Frame as FrameValue};
ghost use Rattle.usac_frame.specs.AccessUnit.{IsFrame};
ghost use Rattle.usac_frame.specs.Units.{payload_length};
ghost use Rattle.ipf_frame.specs.Clean.{clean};

use crate::changing::{frame_bytes, read_whole, with_part};
use bit_core::Octets;
use std::alloc::{AllocError, Global};
use usac_cfg::UsacConfig;
use usac_frame::{ExtPart, Frame, payload_length};

/// Whether the frame has no bytes of preroll.
fn is_bare(config: &UsacConfig, frame: &Frame) -> bool
    ensures { result ≡ (payload_length config.now frame.now == 0) }
{
    payload_length(config, frame) == 0
}

/// An access unit as a preroll carries it: itself, or, where it has bytes of preroll, its frame with part 0 absent, and the
/// fewest zero bits that fill the last byte.
///
/// Errors: out of memory.
pub fn clean(alloc: Global, config: &UsacConfig, au: &[u8]) -> Result<Octets, AllocError>
    requires size { length au.now ≤ 16777216 }
    requires is { (f : FrameValue) × IsFrame config.now au.now f }
    ensures { IfOk result (λ bytes. bytes ≡ clean config.now au.now) }
{
    let frame = read_whole(alloc, config, au)?;
    if is_bare(config, &frame) {
        return Octets::copy_of(alloc, au);
    }
    let bare = with_part(frame, ExtPart::Absent);
    frame_bytes(alloc, config, &bare)
}
