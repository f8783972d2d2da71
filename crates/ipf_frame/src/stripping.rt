ghost use Rattle.std.specs.Prelude.{◌≡◌, ◌≤◌, ◌%◌, ◌<◌, true, length, IfOk};
ghost use Rattle.usac_frame.specs.declared.frame.Frame.{Frame as FrameValue};
ghost use Rattle.usac_frame.specs.AccessUnit.{IsFrame};
ghost use Rattle.usac_frame.specs.Frame.{FitsConfig, frame_text};
ghost use Rattle.usac_frame.specs.Units.{is_immediate};
ghost use Rattle.ipf_frame.specs.Stripping.{spare_bits, shortened, ends_in_zeros, may_strip, stripped_slot, Strips};

use crate::changing::{frame_bytes, read_whole, with_part};
use bit_core::{BitWriter, Bits, Octets};
use std::alloc::{AllocError, Global};
use usac_cfg::{ElementConfig, UsacConfig};
use usac_frame::{ExtPart, Frame};

/// What becomes of the bits that no longer fill a byte where a preroll is taken out of an access unit.
#[derive(Clone, Copy, Debug, PartialEq, Eq)]
pub enum Tail {
    /// They are dropped, where they are zeros: what an insertion wrote becomes its input again, bit for bit.
    Undo,
    /// They are kept, and zero bits fill the last byte.
    Keep,
}

/// How many bits of a frame of whole bytes do not fill a byte without its preroll: of its bits, but for whole bytes, go
/// usacExtElementUseDefaultLength, and usacExtElementStart and usacExtElementStop where they are coded.
fn spare_bits(config: &UsacConfig, frame: &Frame) -> u64
    requires fits { FitsConfig config.now frame.now }
    requires whole { length (frame_text config.now frame.now) % 8 ≡ 0 }
    requires immediate { is_immediate config.now frame.now ≡ true }
    ensures { result ≡ spare_bits config.now frame.now }
{
    match config.elements.get(0) {
        Some(ElementConfig::Ext(ext)) if ext.frag => 5,
        _ => 7,
    }
}

/// Whether there are so many bits, and the last ones are zeros.
fn ends_in_zeros(bits: &Bits, n: u64) -> bool
    ensures { result ≡ ends_in_zeros n bits.now }
{
    if bits.len() < n {
        return false;
    }
    let mut at = bits.len() - n;
    while at < bits.len() {
        if bits.get(at) == Some(true) {
            return false;
        }
        at += 1;
    }
    true
}

/// A frame without the last bits of its rest. The one error is out of memory.
fn shortened(alloc: Global, n: u64, frame: Frame) -> Result<Frame, AllocError>
    requires { n ≤ length frame.rest }
    ensures { IfOk result (λ short. short ≡ shortened n frame) }
{
    let Frame {
        independent,
        leading,
        rest,
    } = frame;
    let mut writer = BitWriter::new(alloc);
    writer.put_bits(&rest)?;
    writer.truncate(rest.len() - n);
    Ok(Frame {
        independent,
        leading,
        rest: writer.into_bits(),
    })
}

/// An access unit, an immediate play-out frame, without its preroll: its frame with part 0 absent, and the end as `tail`
/// says. `None` exactly where the bits to drop are not there, or not all 0.
///
/// Errors: out of memory.
pub fn without_preroll(
    alloc: Global,
    tail: Tail,
    config: &UsacConfig,
    au: &[u8],
) -> Result<Option<Octets>, AllocError>
    requires size { length au.now ≤ 16777216 }
    requires is { (f : FrameValue) × IsFrame config.now au.now f × (is_immediate config.now f ≡ true) }
    ensures { Strips result (may_strip tail config.now au.now) (stripped_slot tail config.now au.now) }
{
    let frame = read_whole(alloc, config, au)?;
    let spare = spare_bits(config, &frame);
    let bare = with_part(frame, ExtPart::Absent);
    match tail {
        Tail::Undo => {
            if !ends_in_zeros(&bare.rest, spare) {
                return Ok(None);
            }
            let short = shortened(alloc, spare, bare)?;
            let bytes = frame_bytes(alloc, config, &short)?;
            Ok(Some(bytes))
        }
        Tail::Keep => {
            let bytes = frame_bytes(alloc, config, &bare)?;
            Ok(Some(bytes))
        }
    }
}
