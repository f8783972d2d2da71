//! What holds of every insertion that no rule refuses, and of plans over its stream.
//!
//! The functions run no code; their contracts are the theorems.
ghost use Rattle.inserted_plans.specs.Laws.{StaysWhole, DecodesAlike, TargetsBeginWarm, TargetsJoin, SoundPlansStay, CutsWithFades, CutsAlike};

use core_iface::Core;

/// A whole stream stays one.
pub fn streams_stay_whole()
    ensures { StaysWhole }
{}

/// On every core the stream decodes as before: it has the same units, though every core bit of a target moved.
pub fn streams_decode_alike<C: Core>()
    ensures { DecodesAlike C.does }
{}

/// A target is a sound start, where as many units are carried as the warm-up needs.
pub fn targets_begin_warm()
    ensures { TargetsBeginWarm }
{}

/// There it is a sound join too, behind each other configuration of equal rate and channels.
pub fn targets_join()
    ensures { TargetsJoin }
{}

/// A sound plan is one behind insertions too, with the same cut.
pub fn sound_plans_stay<C: Core>()
    ensures { SoundPlansStay C.does }
{}

/// The cut of a plan over inserted streams is that of the plan over the streams themselves, but for the blends at the targets.
pub fn cuts_with_fades<C: Core>()
    ensures { CutsWithFades C.does }
{}

/// It is the same where no part after the first begins at a target whose preroll asks for a fade.
pub fn cuts_alike<C: Core>()
    ensures { CutsAlike C.does }
{}
