//! What holds of every stream whose prerolls no rule keeps from being taken out.
//!
//! The functions run no code; their contracts are the theorems.
ghost use Rattle.ipf_strip.specs.Laws.{OnlyTargetsChange, StaysWellFormed, UnitsStay, UndoesInsertions, ListsImmediate};

/// Nothing but the slots of the targets changes, and each target loses its preroll.
pub fn only_targets_change()
    ensures { OnlyTargetsChange }
{}

/// What is left is a well formed stream.
pub fn stripped_is_well_formed()
    ensures { StaysWellFormed }
{}

/// Each frame keeps its configuration and its unit.
pub fn units_stay()
    ensures { UnitsStay }
{}

/// What an insertion made of a stream is that stream again, bit for bit, where the prerolls of the same targets are taken out.
pub fn insertions_are_undone()
    ensures { UndoesInsertions }
{}

/// The list of the immediate play-out frames has exactly their numbers, in rising order.
pub fn immediate_frames_are_listed()
    ensures { ListsImmediate }
{}
