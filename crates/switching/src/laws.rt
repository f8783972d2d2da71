//! What `switch` writes.
//!
//! The functions run no code; their contracts are the theorems.
ghost use Rattle.switching.specs.PlayedPlan.{PlaysBeforeEvents, PlaysSoFar, PlaysSoundPlans, PlaysTheSplice};

use core_iface::Core;
use switch_player::laws;

/// Whatever the renditions are, and however they go on: the frames that were given out before the first rule that is broken are the
/// splice of a sound plan, and what is written for them is the cut of that plan.
pub fn switch_plays_so_far<C: Core>()
    ensures { PlaysSoFar C.does }
{
    laws::sound_splices_converge::<C>();
}

/// `switch` takes files whose frames are the streams of a sound plan that is timed by the positions, each to its end. What it writes
/// for all of them is the cut of the plan: no sample is lost, and none is changed beside the fades of joins.
pub fn switch_plays_sound_plans<C: Core>()
    ensures { PlaysSoundPlans C.does }
{
    laws::sound_splices_converge::<C>();
    splicer::laws::sound_plans_are_given();
}

/// Whatever files are played, and wherever their first event is: what is given of them before it is the splice of a sound plan, the plan
/// cut short by the event, and has its samples. Files that are the streams of a sound plan are played whole.
pub fn switch_plays_before_events<C: Core>()
    ensures { PlaysBeforeEvents C.does }
{
    laws::sound_splices_converge::<C>();
    splicer::laws::sound_plans_are_given();
}

/// Where `splice` joins the files, `switch` writes of them what `play` writes of the file that `splice` made, if a file may have so many
/// bytes.
pub fn switch_plays_the_splice<C: Core>()
    ensures { PlaysTheSplice C.does }
{
    joining::laws::spliced_files_carry_the_splice();
    playing::laws::play_takes_splices_alone::<C>();
    switch_plays_before_events::<C>();
}
