ghost use Rattle.std.specs.Prelude.{◌≡◌};
ghost use Rattle.usac_frame.specs.Units.{first_payload, is_whole, is_immediate};

use crate::frame::Frame;
use crate::part::ExtPart;
use crate::unit::payload_length;
use usac_cfg::UsacConfig;

/// The payload of part 0, which is the preroll where the configuration declares one; no bytes where that part is absent.
pub fn first_payload(frame: &Frame) -> &[u8]
    ensures { result.now ≡ first_payload frame.now }
{
    match frame.leading.get(0) {
        Some(ExtPart::Present { payload, .. }) => payload.as_slice(),
        _ => &[],
    }
}

/// Whether the payload of part 0 both begins and ends in the frame: usacExtElementStart and usacExtElementStop are 1, or are
/// not coded.
pub fn is_whole(frame: &Frame) -> bool
    ensures { result ≡ is_whole frame.now }
{
    match frame.leading.get(0) {
        Some(ExtPart::Present { start, stop, .. }) => *start && *stop,
        _ => false,
    }
}

/// Whether the frame is an immediate play-out frame: the preroll is declared, has at least one byte, and begins and ends in
/// the frame.
pub fn is_immediate(config: &UsacConfig, frame: &Frame) -> bool
    ensures { result ≡ is_immediate config.now frame.now }
{
    payload_length(config, frame) > 0 && is_whole(frame)
}
