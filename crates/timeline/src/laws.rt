//! What holds of positions and plans.
//!
//! The functions run no code; their contracts are the theorems.
ghost use Rattle.timeline.specs.Laws.{JudgesOrder, PlansTimed};

/// Positions are accepted exactly where they rise, and the fault is that of the first one that does not.
pub fn orders_are_judged()
    ensures { JudgesOrder }
{}

/// Pieces are planned exactly where the positions rise, and each piece lies on the timeline: its first frame stands at its position,
/// it ends where the next one begins, or with its stream, which has all its frames; and rate and channels go on.
pub fn plans_are_timed()
    ensures { PlansTimed }
{}
