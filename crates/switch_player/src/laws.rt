//! What holds of a player, on every core.
//!
//! The functions run no code; their contracts are the theorems.
ghost use Rattle.switch_player.specs.Laws.{IsRefusedOnce, PlaysSegments, SplicesConverge, RefusesNoSplice, TakesSplicesAlone, CutsEachFrame, StartsSoundly};

use core_iface::Core;

/// A frame is refused by one rule at most, the first that it breaks; by the rules of `feed`, and by those of `start_at`.
pub fn frames_are_refused_once<C: Core>()
    ensures { IsRefusedOnce C.does }
{}

/// One core that runs on through frames, as a player's does, gives what their segments give, each decoded alone as a stream of
/// its own, and faded where a frame asks for it. So a segment does not depend on how the core got there.
pub fn segments_are_played<C: Core>()
    ensures { PlaysSegments C.does }
{}

/// What a sound plan of whole streams splices is played as the plan is cut: each part gives the blocks that it has in its own stream
/// decoded alone, with the fades of the joins. So whoever splices soundly loses and changes no sample beside those fades.
pub fn sound_splices_converge<C: Core>()
    ensures { SplicesConverge C.does }
{}

/// A player refuses no frame of what a sound plan splices.
pub fn refuses_no_splice<C: Core>()
    ensures { RefusesNoSplice C.does }
{}

/// A player takes nothing else to its end: frames of which none is refused are the splice of their own plan, and it is sound.
pub fn takes_splices_alone<C: Core>()
    ensures { TakesSplicesAlone C.does }
{}

/// The cut of a sound plan has one block for each frame that the plan splices, in order, as long as that frame is, and no other.
pub fn cuts_each_frame<C: Core>()
    ensures { CutsEachFrame C.does }
{}

/// A player that starts at a frame of a whole stream which carries its stream's own units, and enough of them, refuses none of the
/// frames from there on, and gives the blocks that they have in the stream decoded from its beginning.
pub fn starts_soundly<C: Core>()
    ensures { StartsSoundly C.does }
{}
