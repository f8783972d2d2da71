// The command `play`.
ghost use Rattle.std.specs.Prelude.{◌≤◌, ◌^◌, ℕ, List, [], ◌∷◌};
ghost use Rattle.xheaac_tool.specs.Words.{texts, IsPlay};
ghost use Rattle.commands.specs.Worlds.{world};
ghost use Rattle.commands.specs.Calling.{Called};
ghost use Rattle.commands.specs.OnInput.{on_file};
ghost use Rattle.playing.specs.Playing.{playing};

use crate::words::{Asked, read_words};
use commands::{Frames, Outcome, run_file};
use core_iface::Core;
use outside::{Shelf, Sink};
use playing::Play;
use std::alloc::Global;

/// The command `play FILE`: plays each frame of a file and writes its samples, two bytes each, the least significant first,
/// channels interleaved by time.
///
/// The file is a LOAS stream (ISO/IEC 14496-3, AudioSyncStream). Where another UsacConfig (ISO/IEC 23003-3) begins in it, decoding
/// begins anew with what the frame's preroll carries, and the samples before fade into it where the preroll asks for that. The
/// file is refused where the stream is, and at a frame that the player refuses. The frames before that were played.
pub fn do_play<H: Shelf, K: Sink, C: Core>(
    alloc: Global,
    words: &[String],
    shelf: &mut H,
    out: &mut K,
    core: &mut C,
) -> Outcome
    requires words { (file : List ℕ) × IsPlay (texts words.now) file }
    requires begun { H.begun shelf.old ≤ 2 ^ 31 }
    requires fed { (C.meaning core.old).fed ≤ 2 ^ 63 }
    ensures { (file : List ℕ) → IsPlay (texts words.now) file → Called (on_file (playing C.does [])) (file ∷ [])
        (world H.Shelf K.Sink C.Core shelf.old out.old core.old) (world H.Shelf K.Sink C.Core shelf.new out.new core.new) result }
{
    let Some(Asked::Play { file }) = read_words(words) else {
        unreachable!()
    };
    run_file(alloc, &mut Frames(Play::new(alloc)), file, shelf, out, core)
}
