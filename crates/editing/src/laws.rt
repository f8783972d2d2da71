//! What holds of targets, and of what is written of a stream.
//!
//! The functions run no code but that of other laws; their contracts are the theorems.
ghost use Rattle.editing.specs.Inserting.{ReadsInserted};
ghost use Rattle.editing.specs.Runs.{WritesRuns};
ghost use Rattle.editing.specs.TargetLists.{ListsMultiples};
ghost use Rattle.editing.specs.Undoing.{ReadsStripped, UndoesBytes};

use au_stream::laws::written_streams_are_read_back;
use ipf_insert::laws::inserted_is_well_formed;
use ipf_strip::laws::{insertions_are_undone, stripped_is_well_formed};

/// The targets of `every:N` are exactly the multiples of N from N on that are numbers of frames, each one once, in rising order.
pub fn every_lists_multiples()
    ensures { ListsMultiples }
{}

/// The bytes of elements, a LOAS frame each, are what is written of a well formed stream.
pub fn runs_are_written()
    ensures { WritesRuns }
{}

/// What `insert` writes of a stream is read again as the stream with its targets inserted.
pub fn inserted_bytes_are_read_back()
    ensures { ReadsInserted }
{
    inserted_is_well_formed();
    written_streams_are_read_back();
}

/// What `strip` writes of a stream is read again as the stream without the prerolls of its targets.
pub fn stripped_bytes_are_read_back()
    ensures { ReadsStripped }
{
    stripped_is_well_formed();
    written_streams_are_read_back();
}

/// From what `insert` made of a file, `strip` with the same targets writes the file again, byte for byte.
pub fn inserted_bytes_are_undone()
    ensures { UndoesBytes }
{
    insertions_are_undone();
}
