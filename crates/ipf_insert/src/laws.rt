//! What holds of every insertion that no rule refuses.
//!
//! The functions run no code; their contracts are the theorems.
ghost use Rattle.ipf_insert.specs.Laws.{OnlyTargetsChange, StaysWellFormed, UnitsStay, TargetsCarry};

/// Nothing but the slots of the targets changes, and each target becomes a frame that carries the units before it.
pub fn only_targets_change()
    ensures { OnlyTargetsChange }
{}

/// What is made is a well formed stream.
pub fn inserted_is_well_formed()
    ensures { StaysWellFormed }
{}

/// Each frame keeps its configuration and its unit.
pub fn units_stay()
    ensures { UnitsStay }
{}

/// Each target carries exactly the units of the frames before it, with the fade flag.
pub fn targets_carry()
    ensures { TargetsCarry }
{}
