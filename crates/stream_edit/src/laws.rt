//! What holds of targets.
//!
//! The functions run no code; their contracts are the theorems.
ghost use Rattle.stream_edit.specs.Laws.{FindsMisplaced};

/// The place that `first_misplaced` answers is that of the first target which is no frame, or not larger than the one before it.
pub fn misplaced_targets_are_found()
    ensures { FindsMisplaced }
{}
