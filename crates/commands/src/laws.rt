//! What holds of each command on the frames of several inputs. The functions run no code; their contracts are the theorems.
ghost use Rattle.commands.specs.LastInput.{StopsInTheLastInput};

use crate::task::Task;
use core_iface::Core;

/// A command whose write failed was at a frame of the last input that it began, or at the end of that input. It has written all that comes
/// before that frame, and of the input it took fewer than 8192 bytes behind the AudioMuxElement with the frame.
pub fn failed_writes_stop_in_the_last_input<T: Task, C: Core>()
    ensures { StopsInTheLastInput (λ at. T.command at C.does) T.then T.plays }
{}
