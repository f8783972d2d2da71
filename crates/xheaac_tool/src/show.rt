// The command `show`.
ghost use Rattle.std.specs.Prelude.{◌≤◌, ◌^◌, ℕ, List, [], ◌∷◌};
ghost use Rattle.xheaac_tool.specs.Words.{texts, IsShow};
ghost use Rattle.commands.specs.Worlds.{world};
ghost use Rattle.commands.specs.Calling.{Called};
ghost use Rattle.commands.specs.OnInput.{on_file};
ghost use Rattle.xheaac_tool.specs.Showing.{showing};

use crate::show_task::Show;
use crate::words::{Asked, read_words};
use commands::{Frames, Outcome, run_file};
use core_iface::Core;
use outside::{Shelf, Sink};
use std::alloc::Global;

/// The command `show FILE`: writes what each StreamMuxConfig of a file says, and what stands at the front of each frame, a line
/// at a time.
///
/// The file is a LOAS stream (ISO/IEC 14496-3, AudioSyncStream). It is refused where the stream is, and at a frame that is too
/// short (ISO/IEC 23003-3, UsacFrame). The frames before that were shown, and the StreamMuxConfig that it opens with. A preroll that
/// is none is shown, and not refused. The core is left as it was.
pub fn do_show<H: Shelf, K: Sink, C: Core>(
    alloc: Global,
    words: &[String],
    shelf: &mut H,
    out: &mut K,
    core: &mut C,
) -> Outcome
    requires words { (file : List ℕ) × IsShow (texts words.now) file }
    requires begun { H.begun shelf.old ≤ 2 ^ 31 }
    requires fed { (C.meaning core.old).fed ≤ 2 ^ 63 }
    ensures { (file : List ℕ) → IsShow (texts words.now) file → Called (on_file showing) (file ∷ [])
        (world H.Shelf K.Sink C.Core shelf.old out.old core.old) (world H.Shelf K.Sink C.Core shelf.new out.new core.new) result }
{
    let Some(Asked::Show { file }) = read_words(words) else {
        unreachable!()
    };
    run_file(alloc, &mut Frames(Show), file, shelf, out, core)
}
