ghost use Rattle.std.specs.Prelude.{◌≡◌};
ghost use Rattle.latm.specs.Stream.{IsWellFormed};
ghost use Rattle.ipf_strip.specs.Rules.{strip_fault};
ghost use Rattle.ipf_strip.specs.Steps.{Judges};
ghost use Rattle.ipf_strip.specs.Stripping.{stripped};

use crate::fault::StripFault;
use crate::rules::{check_frames, check_list, check_targets};
use crate::stripping::Stripping;
use ipf_frame::Tail;
use latm::Stream;
use std::alloc::Global;
use stream_edit::{Editor, frames_of};

/// The elements of a stream without the prerolls of its targets, one after another.
pub type Stripper<'a> = Editor<'a, Stripping<'a>>;

/// Tries all rules of `strip`, and nothing else.
pub fn stripper<'a>(
    alloc: Global,
    stream: &'a Stream,
    tail: Tail,
    targets: &'a [u64],
) -> Result<Stripper<'a>, StripFault>
    requires { IsWellFormed stream.now }
    ensures { Judges result (strip_fault stream.now tail targets.now) (λ elements. elements ≡ (stripped stream.now tail targets.now).elements) }
{
    let frames = frames_of(alloc, stream)?;
    check_frames(alloc, &frames)?;
    check_list(frames.len() as u64, targets)?;
    check_targets(alloc, tail, &frames, targets)?;
    Ok(Editor::new(Stripping { tail, frames }, stream, targets))
}

/// Takes the prerolls of the targets out, which are numbers of frames, counted from 0: part 0 of each becomes absent (ISO/IEC 23003-3,
/// UsacExtElement). Where the bits of such a frame no longer fill its last byte, `tail` says what becomes of them. All else stays bit for bit.
///
/// Errors: the first rule that applies. First over all frames in their order `Frame`; then `BadTarget`; then for each target in their
/// order `NotImmediate`, and with `Tail::Undo` `NotInserted`. Or out of memory.
pub fn strip(
    alloc: Global,
    stream: &Stream,
    tail: Tail,
    targets: &[u64],
) -> Result<Stream, StripFault>
    requires { IsWellFormed stream.now }
    ensures { Judges result (strip_fault stream.now tail targets.now) (λ new. new ≡ stripped stream.now tail targets.now) }
{
    let stripper = stripper(alloc, stream, tail, targets)?;
    let new = stripper.into_stream(alloc)?;
    Ok(new)
}
