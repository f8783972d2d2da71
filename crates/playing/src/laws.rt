//! What `play` and `start` take.
//!
//! The functions run no code; their contracts are the theorems.
ghost use Rattle.playing.specs.Spliced.{TakesFilesOfSplices};
ghost use Rattle.playing.specs.SoundStarts.{TakesSoundStarts};

use core_iface::Core;
use switch_player::laws;

/// `play` takes a file, to its end, exactly where it carries the splice of whole streams at sound joins, and its output is then the
/// cut of the plan.
pub fn play_takes_splices_alone<C: Core>()
    ensures { TakesFilesOfSplices C.does }
{
    laws::sound_splices_converge::<C>();
    laws::refuses_no_splice::<C>();
    laws::takes_splices_alone::<C>();
    laws::cuts_each_frame::<C>();
}

/// `start` takes a file that carries a whole stream with a sound start at its frame to the end, and its output is then what the
/// frames from there on have in the stream decoded alone, from its beginning.
pub fn start_takes_sound_starts<C: Core>()
    ensures { TakesSoundStarts C.does }
{
    laws::sound_splices_converge::<C>();
    laws::refuses_no_splice::<C>();
    laws::starts_soundly::<C>();
}
