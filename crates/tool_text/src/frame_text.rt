// The line of a frame.
ghost use Rattle.std.specs.Prelude.{◌≡◌, ◌++◌, IfOk, OnOk, decimal};
ghost use Rattle.tool_text.specs.FrameText.{length_or_dash, lengths_behind_commas, leading_text, frame_line};

use crate::parts::digit;
use bit_core::Octets;
use itoa::Buffer;
use std::alloc::{AllocError, Global};
use usac_frame::{ExtPart, Frame};

/// Room for the line of a frame with some leading parts.
const ROOM: usize = 80;

/// Adds a text, and a number behind it.
fn push_field(name: &[u8], number: u64, line: &mut Vec<u8>) -> Result<(), AllocError>
    ensures { OnOk result (line.new.items ≡ line.old.items ++ (name.now ++ decimal number)) }
{
    let mut buffer = Buffer::new();
    line.extend_from_slice(name)?;
    line.extend_from_slice(buffer.format(number).as_bytes())?;
    Ok(())
}

/// Adds the number of bytes of a part's payload, or a dash where the part is absent.
fn push_length(part: &ExtPart, line: &mut Vec<u8>) -> Result<(), AllocError>
    ensures { OnOk result (line.new.items ≡ line.old.items ++ length_or_dash part.now) }
{
    match part {
        ExtPart::Absent => line.extend_from_slice(b"-")?,
        ExtPart::Present { payload, .. } => {
            let mut buffer = Buffer::new();
            line.extend_from_slice(buffer.format(payload.len()).as_bytes())?;
        }
    }
    Ok(())
}

/// Adds what is told of each part, behind a comma.
fn push_lengths_behind_commas(parts: &[ExtPart], line: &mut Vec<u8>) -> Result<(), AllocError>
    ensures { OnOk result (line.new.items ≡ line.old.items ++ lengths_behind_commas parts.now) }
{
    for part in parts {
        line.extend_from_slice(b",")?;
        push_length(part, line)?;
    }
    Ok(())
}

/// Adds what is told of the leading parts.
fn push_leading(parts: &[ExtPart], line: &mut Vec<u8>) -> Result<(), AllocError>
    ensures { OnOk result (line.new.items ≡ line.old.items ++ leading_text parts.now) }
{
    match parts {
        [first, more @ ..] => {
            push_length(first, line)?;
            push_lengths_behind_commas(more, line)?;
        }
        [] => line.extend_from_slice(b"none")?,
    }
    Ok(())
}

/// The line of a frame with its line feed: its number, counted from 0; usacIndependencyFlag; the number of bytes of its access
/// unit; and for each leading part the number of bytes of its payload, or a dash where the part is absent, with commas between
/// them. Where there are no parts, the word `none` stands in their place.
///
/// Errors: out of memory.
///
/// ```text
/// frame 0 independent=1 bytes=40 leading=12
/// frame 1 independent=0 bytes=29 leading=-
/// ```
pub fn frame_line(
    alloc: Global,
    number: u64,
    bytes: u64,
    frame: &Frame,
) -> Result<Octets, AllocError>
    ensures { IfOk result (λ line. line ≡ frame_line number bytes frame.now) }
{
    let independent = u64::from(digit(frame.independent));
    let mut line = Vec::with_capacity(alloc, ROOM)?;
    push_field(b"frame ", number, &mut line)?;
    push_field(b" independent=", independent, &mut line)?;
    push_field(b" bytes=", bytes, &mut line)?;
    line.extend_from_slice(b" leading=")?;
    push_leading(frame.leading.as_slice(), &mut line)?;
    line.extend_from_slice(b"\n")?;
    Ok(Octets::from_vec(line))
}
