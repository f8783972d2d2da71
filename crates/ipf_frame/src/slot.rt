ghost use Rattle.std.specs.Prelude.{◌≡◌, ◌↔◌, ◌≤◌, length, slice_get, Some, IsTrue, IfOk};
ghost use Rattle.usac_frame.specs.declared.frame.Frame.{Frame as FrameValue};
ghost use Rattle.usac_frame.specs.declared.part.ExtPart.TheVariants.{Absent};
ghost use Rattle.usac_frame.specs.AccessUnit.{IsFrame};
ghost use Rattle.ipf_frame.specs.Frames.{form_of, new_part};
ghost use Rattle.ipf_frame.specs.Slot.{slot_with, IsOpen};

use crate::changing::{frame_bytes, in_range, read_whole, with_part};
use bit_core::Octets;
use std::alloc::{AllocError, Global};
use usac_cfg::UsacConfig;
use usac_frame::{ExtPart, LengthForm, Parts};

/// Whether part 0 is there and absent.
pub fn is_open(parts: &Parts) -> bool
    ensures { IsTrue result ↔ (slice_get parts.now 0 ≡ Some Absent) }
{
    match parts.get(0) {
        Some(ExtPart::Absent) => true,
        _ => false,
    }
}

/// The form of the length of a new part 0: 8 bits up to 254 bytes.
fn form_of(length: u64) -> LengthForm
    ensures { result ≡ form_of length }
{
    if length > 254 {
        LengthForm::Long
    } else {
        LengthForm::Byte
    }
}

/// The new part 0, of a payload that begins and ends in the frame.
fn new_part(payload: Octets) -> ExtPart
    ensures { result ≡ new_part payload }
{
    ExtPart::Present {
        form: form_of(payload.len()),
        start: true,
        stop: true,
        payload,
    }
}

/// A target's access unit: its frame, in which part 0 is absent, with a new part 0 of that payload.
///
/// Errors: out of memory.
pub fn with_payload(
    alloc: Global,
    config: &UsacConfig,
    au: &[u8],
    payload: Octets,
) -> Result<Octets, AllocError>
    requires size { length au.now ≤ 16777216 }
    requires is { (f : FrameValue) × IsFrame config.now au.now f × IsOpen f }
    requires few { length payload ≤ 65788 }
    ensures { IfOk result (λ new. new ≡ slot_with config.now payload au.now) }
{
    in_range(payload.as_slice());
    let frame = read_whole(alloc, config, au)?;
    let changed = with_part(frame, new_part(payload));
    frame_bytes(alloc, config, &changed)
}
