// The command `check`.
ghost use Rattle.std.specs.Prelude.{◌≤◌, ◌^◌, ℕ, List, [], ◌∷◌};
ghost use Rattle.xheaac_tool.specs.Words.{texts, IsCheck};
ghost use Rattle.commands.specs.Worlds.{world};
ghost use Rattle.commands.specs.Calling.{Called};
ghost use Rattle.commands.specs.OnInput.{on_file};
ghost use Rattle.xheaac_tool.specs.Checking.{checking};

use crate::check_task::Check;
use crate::words::{Asked, read_words};
use commands::{Frames, Outcome, run_file};
use core_iface::Core;
use outside::{Shelf, Sink};
use std::alloc::Global;

/// The command `check FILE`: judges each frame of a file, and at its end writes one line: how many frames there are, how many
/// runs of frames with one UsacConfig, how many frames that are independent, and how many immediate play-out frames.
///
/// The file is a LOAS stream (ISO/IEC 14496-3, AudioSyncStream). It is refused where the stream is, at a frame that is too
/// short, and at an immediate play-out frame whose AudioPreRoll (ISO/IEC 23003-3) carries no units. Then nothing is written. The
/// core is left as it was.
pub fn do_check<H: Shelf, K: Sink, C: Core>(
    alloc: Global,
    words: &[String],
    shelf: &mut H,
    out: &mut K,
    core: &mut C,
) -> Outcome
    requires words { (file : List ℕ) × IsCheck (texts words.now) file }
    requires begun { H.begun shelf.old ≤ 2 ^ 31 }
    requires fed { (C.meaning core.old).fed ≤ 2 ^ 63 }
    ensures { (file : List ℕ) → IsCheck (texts words.now) file → Called (on_file checking) (file ∷ [])
        (world H.Shelf K.Sink C.Core shelf.old out.old core.old) (world H.Shelf K.Sink C.Core shelf.new out.new core.new) result }
{
    let Some(Asked::Check { file }) = read_words(words) else {
        unreachable!()
    };
    run_file(alloc, &mut Frames(Check::new()), file, shelf, out, core)
}
