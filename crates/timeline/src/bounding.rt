ghost use Rattle.std.specs.Prelude.{◌≡◌, ◌<◌};
ghost use Rattle.timeline.specs.Bounds.{bounds_result};

use crate::fault::PlanFault;
use crate::piece::PieceBounds;

/// The frames at which a piece begins and ends: those that stand at the position `at`, and at `until`, where the piece behind it
/// begins. It takes no memory.
///
/// Errors: `NoFrameAt` of the first of the two, in this order, that is no multiple of the frame length.
pub fn bounds(
    piece: u32,
    frame_length: u32,
    at: u64,
    until: Option<u64>,
) -> Result<PieceBounds, PlanFault>
    requires some { 0 < frame_length }
    ensures judged { result ≡ bounds_result piece frame_length at until }
{
    let length = u64::from(frame_length);
    if at % length != 0 {
        return Err(PlanFault::NoFrameAt {
            piece,
            position: at,
        });
    }
    match until {
        None => Ok(PieceBounds {
            from: at / length,
            to: None,
        }),
        Some(position) => {
            if position % length != 0 {
                return Err(PlanFault::NoFrameAt { piece, position });
            }
            Ok(PieceBounds {
                from: at / length,
                to: Some(position / length),
            })
        }
    }
}
