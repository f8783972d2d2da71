//! What holds of the example.
//!
//! The functions run no code; their contracts are the theorems.
ghost use Rattle.example_plan.specs.Laws.{IsSoundExample, PlaysExample, IsCutIntoRamps};

use core_iface::Core;
use playing::laws::play_takes_splices_alone;

/// The example is a sound plan for each decoder whose warm-up at the new configuration is one unit at most, and so for FoldCore; its
/// join fades; and the file of 88 bytes carries its splice.
pub fn example_is_sound()
    ensures { IsSoundExample }
{}

/// On each core whose warm-up is so, `play` takes all frames of that file, and its output is the bytes of the plan's cut.
pub fn example_is_played<C: Core>()
    ensures { PlaysExample C.does }
{
    play_takes_splices_alone::<C>();
}

/// On FoldCore that cut is a ramp of 1024 samples for each frame. They begin at 1, 7, 28, 40, 15, 20, 74 and 239; and into the fifth
/// one a ramp of 128 samples fades, which begins at 8.
pub fn example_is_cut_into_ramps()
    ensures { IsCutIntoRamps }
{}
