ghost use Rattle.std.specs.Prelude.{◌≡◌};
ghost use Rattle.latm.specs.Stream.{IsWellFormed};
ghost use Rattle.ipf_insert.specs.Inserting.{inserted};
ghost use Rattle.ipf_insert.specs.Rules.{insert_fault};
ghost use Rattle.ipf_insert.specs.Steps.{Judges};

use crate::fault::InsertFault;
use crate::gathering::gather;
use crate::rules::check_list;
use crate::sources::Sources;
use crate::target_rules::check_targets;
use ipf_frame::config_bytes;
use latm::Stream;
use std::alloc::Global;
use stream_edit::Editor;

/// The elements of a stream with its targets inserted, one after another.
pub type Inserter<'a> = Editor<'a, Sources<'a>>;

/// Tries all rules of `insert`, and nothing else.
pub fn inserter<'a>(
    alloc: Global,
    stream: &'a Stream,
    count: u32,
    fade: bool,
    targets: &'a [u64],
) -> Result<Inserter<'a>, InsertFault>
    requires { IsWellFormed stream.now }
    ensures { Judges result (insert_fault stream.now count fade targets.now) (λ elements. elements ≡ (inserted stream.now count fade targets.now).elements) }
{
    let Some(config) = stream.config(0) else {
        return Err(InsertFault::NotDeclared);
    };
    let aus = gather(alloc, stream, config)?;
    let bytes = config_bytes(alloc, config)?;
    let sources = Sources {
        config,
        bytes,
        aus,
        count: u64::from(count),
        fade,
    };
    check_list(&sources, targets)?;
    check_targets(alloc, &sources, stream.elements.as_slice(), targets)?;
    Ok(Editor::new(sources, stream, targets))
}

/// Makes immediate play-out frames of the targets, which are numbers of frames, counted from 0: each gets a preroll (ISO/IEC
/// 23003-3, AudioPreRoll) with the stream's configuration, applyCrossfade as `fade` says, and the access units of the `count`
/// frames before it, each without a preroll of its own.
///
/// Errors: the first rule that applies. First over all frames in their order, for each `ConfigChanges` and then `Frame`; then
/// `NotDeclared`, `ConfigTooLong`, `BadCount` and `BadTarget`; then for each target in their order `NotIndependent`,
/// `AlreadyPresent`, `TooEarly`, `FirstDependent`, `PayloadTooLong` and `TooLong`. Or out of memory.
pub fn insert(
    alloc: Global,
    stream: &Stream,
    count: u32,
    fade: bool,
    targets: &[u64],
) -> Result<Stream, InsertFault>
    requires { IsWellFormed stream.now }
    ensures { Judges result (insert_fault stream.now count fade targets.now) (λ new. new ≡ inserted stream.now count fade targets.now) }
{
    let inserter = inserter(alloc, stream, count, fade, targets)?;
    let new = inserter.into_stream(alloc)?;
    Ok(new)
}
