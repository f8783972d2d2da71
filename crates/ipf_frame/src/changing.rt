// Frames with another part 0, read and written.
ghost use Rattle.std.specs.Prelude.{◌≡◌, ◌<◌, ◌≤◌, length, All, IfOk};
ghost use Rattle.usac_frame.specs.declared.frame.Frame.{Frame as FrameValue};
ghost use Rattle.usac_frame.specs.AccessUnit.{IsFrame};
ghost use Rattle.usac_frame.specs.Frame.{FitsConfig};
ghost use Rattle.ipf_frame.specs.Frames.{first_part, with_first, frame_bytes};

use bit_core::{Items, Octets};
use std::alloc::{AllocError, Global};
use usac_cfg::UsacConfig;
use usac_frame::{ExtPart, Frame, FrameFault, Parts, read_frame, write_frame};

/// Reads an access unit that is a frame.
pub fn read_whole(alloc: Global, config: &UsacConfig, au: &[u8]) -> Result<Frame, AllocError>
    requires size { length au.now ≤ 16777216 }
    requires is { (f : FrameValue) × IsFrame config.now au.now f }
    ensures { IfOk result (λ frame. IsFrame config.now au.now frame) }
{
    match read_frame(alloc, config, au) {
        Ok(frame) => Ok(frame),
        Err(FrameFault::Short { at: _ }) => unreachable!(),
        Err(FrameFault::Memory(error)) => Err(error),
    }
}

fn with_first_part(parts: Parts, part: ExtPart) -> Parts
    ensures { result ≡ first_part part parts }
{
    let mut items = parts.into_vec();
    if items.is_empty() {
        return Items::from_vec(items);
    }
    items[0] = part;
    Items::from_vec(items)
}

/// A frame with another part 0, where it has one.
pub fn with_part(frame: Frame, part: ExtPart) -> Frame
    ensures { result ≡ with_first part frame }
{
    let Frame {
        independent,
        leading,
        rest,
    } = frame;
    let leading = with_first_part(leading, part);
    Frame {
        independent,
        leading,
        rest,
    }
}

/// Bytes as they are, for what their type says of them.
pub fn in_range(bytes: &[u8]) -> &[u8]
    ensures same { result.now ≡ bytes.now }
    ensures range { All (λ byte. byte < 256) result.now }
{
    bytes
}

/// The bytes of a frame that fits the configuration. The one error is out of memory.
pub fn frame_bytes(alloc: Global, config: &UsacConfig, frame: &Frame) -> Result<Octets, AllocError>
    requires { FitsConfig config.now frame.now }
    ensures { IfOk result (λ bytes. bytes ≡ frame_bytes config.now frame.now) }
{
    let bytes = write_frame(alloc, config, frame)?;
    in_range(bytes.as_slice());
    Ok(bytes)
}
