// The line of a stream that was checked.
ghost use Rattle.std.specs.Prelude.{◌≡◌, IfOk};
ghost use Rattle.tool_text.specs.CheckText.{check_line};

use bit_core::Octets;
use std::alloc::{AllocError, Global};

/// The line of a stream with its line feed: how many frames it has, how many runs of frames of one UsacConfig, how many frames
/// that are independent, and how many immediate play-out frames.
///
/// Errors: out of memory.
///
/// ```text
/// frames 8, configurations 2, independent 3, immediate 1
/// ```
pub fn check_line(
    alloc: Global,
    frames: u64,
    configurations: u64,
    independent: u64,
    immediate: u64,
) -> Result<Octets, AllocError>
    ensures { IfOk result (λ line. line ≡ check_line frames configurations independent immediate) }
{
    let text = format!(in alloc;
        "frames {frames}, configurations {configurations}, independent {independent}, immediate {immediate}\n"
    )?;
    Ok(Octets::from_vec(text.into_bytes()))
}
