ghost use Rattle.std.specs.Prelude.{◌≡◌, ◌<◌, ◌^◌, length};
ghost use Rattle.timeline.specs.Plan.{piece_result, next_position, plan_result, PlansAs};

use crate::bounding::bounds;
use crate::fault::PlanFault;
use crate::piece::{Piece, Pieces};
use crate::positions::check_positions;
use crate::shape::Shape;
use std::alloc::Global;

/// One piece, behind a stream of another shape.
fn piece_at(
    piece: u32,
    before: Option<Shape>,
    shape: Shape,
    at: u64,
    until: Option<u64>,
) -> Result<Piece, PlanFault>
    ensures judged { result ≡ piece_result piece before shape at until }
{
    if let Some(last) = before {
        if last.rate != shape.rate {
            return Err(PlanFault::RateDiffers { piece });
        }
        if last.channels != shape.channels {
            return Err(PlanFault::ChannelsDiffer { piece });
        }
    }
    let bounds = bounds(piece, shape.frame_length, at, until)?;
    let to = match bounds.to {
        None => shape.frames,
        Some(to) => to,
    };
    if bounds.from >= shape.frames || to > shape.frames {
        return Err(PlanFault::PastEnd { piece });
    }
    Ok(Piece {
        from: bounds.from,
        to,
    })
}

/// The position behind one, where there is another.
fn position_behind(positions: &[u64], place: usize) -> Option<u64>
    requires within { place < length positions.now }
    ensures next { result ≡ next_position place positions.now }
{
    if place + 1 < positions.len() {
        Some(positions[place + 1])
    } else {
        None
    }
}

/// The pieces of streams of these shapes that begin at these positions: each goes up to the next position, and the last one to the
/// end of its stream. There are as many positions as shapes.
///
/// Errors: `BadOrder`, of all positions, before any other. Then piece after piece, the first of `RateDiffers` and `ChannelsDiffer`
/// (against the piece before), `NoFrameAt` and `PastEnd` that there is; or out of memory.
pub fn plan(alloc: Global, shapes: &[Shape], positions: &[u64]) -> Result<Pieces, PlanFault>
    requires few { length positions.now < 2 ^ 32 }
    requires equal { length shapes.now ≡ length positions.now }
    ensures judged { PlansAs result (plan_result shapes.now positions.now) }
{
    check_positions(positions)?;
    let mut pieces = Pieces::new(alloc);
    let mut before = None;
    for (place, shape) in shapes.iter().enumerate() {
        let piece = piece_at(
            place as u32,
            before,
            *shape,
            positions[place],
            position_behind(positions, place),
        )?;
        pieces.push(piece)?;
        before = Some(*shape);
    }
    Ok(pieces)
}
