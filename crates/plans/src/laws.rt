ghost use Rattle.plans.specs.Laws.{AreTheirSegments};

/// The segments of frames are all of the frames, in order; each has a frame, and frames of one configuration alone; and the
/// configuration changes from each to the next.
pub fn frames_are_their_segments()
    ensures { AreTheirSegments }
{}
