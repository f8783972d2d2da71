// The command `start`.
ghost use Rattle.std.specs.Prelude.{◌≤◌, ◌^◌, ℕ, List, [], ◌∷◌};
ghost use Rattle.xheaac_tool.specs.Words.{texts, IsStart};
ghost use Rattle.commands.specs.Worlds.{world};
ghost use Rattle.commands.specs.Calling.{Called};
ghost use Rattle.commands.specs.OnInput.{on_file};
ghost use Rattle.playing.specs.Starting.{starting};

use crate::words::{Asked, read_words};
use commands::{Frames, Outcome, run_file};
use core_iface::Core;
use outside::{Shelf, Sink};
use playing::Start;
use std::alloc::Global;

/// The command `start FILE FRAME`: plays a file from the frame with that number on, counted from 0, and writes the samples as
/// [`do_play`](crate::do_play) does.
///
/// The frames before are not decoded: they are refused where the stream is, and for nothing else. So the frame has to carry as many
/// units as the core's warm-up, also where it is independent; but frame 0 is played as `play` does. Numbers of frames in refusals are
/// those of the file. A file that ends before the frame is refused at its end.
pub fn do_start<H: Shelf, K: Sink, C: Core>(
    alloc: Global,
    words: &[String],
    shelf: &mut H,
    out: &mut K,
    core: &mut C,
) -> Outcome
    requires words { (file : List ℕ) × (frame : ℕ) × IsStart (texts words.now) file frame }
    requires begun { H.begun shelf.old ≤ 2 ^ 31 }
    requires fed { (C.meaning core.old).fed ≤ 2 ^ 63 }
    ensures { (file : List ℕ) (frame : ℕ) → IsStart (texts words.now) file frame → Called (on_file (starting C.does frame)) (file ∷ [])
        (world H.Shelf K.Sink C.Core shelf.old out.old core.old) (world H.Shelf K.Sink C.Core shelf.new out.new core.new) result }
{
    let Some(Asked::Start { file, frame }) = read_words(words) else {
        unreachable!()
    };
    let task = Start::new(alloc, frame);
    run_file(alloc, &mut Frames(task), file, shelf, out, core)
}
