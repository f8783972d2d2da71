// The line of a piece of a plan.
ghost use Rattle.std.specs.Prelude.{◌≡◌, IfOk};
ghost use Rattle.tool_text.specs.PieceText.{piece_line};

use crate::parts::digit;
use bit_core::Octets;
use std::alloc::{AllocError, Global};

/// The line of a piece of a plan with its line feed: the number of the piece; the number of its first frame, and of the frame
/// behind its last, all counted from 0; how many access units the preroll of its first frame carries; and applyCrossfade.
///
/// Errors: out of memory.
///
/// ```text
/// piece 1 frames 4 to 8 carried 1 fade 0
/// ```
pub fn piece_line(
    alloc: Global,
    piece: u64,
    from: u64,
    to: u64,
    units: u64,
    fade: bool,
) -> Result<Octets, AllocError>
    ensures { IfOk result (λ line. line ≡ piece_line piece from to units fade) }
{
    let fade = digit(fade);
    let text = format!(in alloc;
        "piece {piece} frames {from} to {to} carried {units} fade {fade}\n"
    )?;
    Ok(Octets::from_vec(text.into_bytes()))
}
