//! What holds of the check of a rendition.
//!
//! The functions run no code; their contracts are the theorems.
ghost use Rattle.splicer.specs.Foreign.{IsDecidedByLast};
ghost use Rattle.splicer.specs.Laws.{HoldsLastUnits, GivesSoundPieces, GivesFrames, GiveSoundPlans, GivesSoundPlansSoFar, RunsGoOn, TellsBeginnings};

/// The last units of a stream decide which carried unit is foreign, as all its units do; and none is foreign exactly where the
/// carried units are those that the stream has directly before the frame.
pub fn last_units_decide()
    ensures { IsDecidedByLast }
{}

/// What a run holds behind frames: the last 18 of the units that their stream has so far, the number of frames, and the
/// configuration of the first. The first rule that a further frame breaks is the one by all units of the stream.
pub fn runs_hold_the_last_units()
    ensures { HoldsLastUnits }
{}

/// A run refuses no frame of a rendition, and at its end gives a piece, exactly where the rendition is a whole stream, the piece lies
/// between the positions that it was asked for, and it goes on soundly behind the rendition before, or begins a sound plan.
pub fn sound_pieces_are_given()
    ensures { GivesSoundPieces }
{}

/// The frames that such a run says are of the piece, which are those with the turns start, join and play, are the frames of the piece.
pub fn given_frames_are_the_piece()
    ensures { GivesFrames }
{}

/// Runs over renditions one after another refuse nothing, and give parts of them, exactly where these are a sound plan that is timed by
/// the positions. So whoever checks renditions by runs plans soundly, and refuses no sound plan.
pub fn sound_plans_are_given()
    ensures { GiveSoundPlans }
{}

/// Whatever the renditions are, and however they go on: the frames that were given out before the first rule that is broken are the
/// splice of a sound plan. Its parts are the pieces of which a frame was given, each with its stream up to the last of these. So a
/// player refuses none of them.
pub fn given_frames_are_a_sound_plan()
    ensures { GivesSoundPlansSoFar }
{}

/// How runs over renditions go on, frame by frame, and from a rendition to the next one.
pub fn runs_go_on()
    ensures { RunsGoOn }
{}

/// A frame is the first of its piece exactly where its number is that at which the piece begins; and where no rule is broken, it is the
/// first that is given. It is a start where no rendition is before and the piece begins with its stream, and else a join.
pub fn beginnings_are_told()
    ensures { TellsBeginnings }
{}
