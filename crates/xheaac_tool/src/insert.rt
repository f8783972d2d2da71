// The command `insert`.
ghost use Rattle.std.specs.Prelude.{◌≤◌, ◌^◌, ℕ, Bool, List, [], ◌∷◌};
ghost use Rattle.xheaac_tool.specs.Words.{texts, IsInsert};
ghost use Rattle.commands.specs.Worlds.{world};
ghost use Rattle.commands.specs.Calling.{Called};
ghost use Rattle.commands.specs.Wholes.{on_whole};
ghost use Rattle.editing.specs.declared.targets.Targets.{Targets};
ghost use Rattle.editing.specs.Inserting.{inserting};

use crate::words::{Asked, read_words};
use commands::{Outcome, WholeInput, run_file};
use core_iface::Core;
use editing::Insert;
use outside::{Shelf, Sink};
use std::alloc::Global;

/// The command `insert FILE K FADE TARGETS`: makes immediate play-out frames of frames of a file (ISO/IEC 23003-3, AudioPreRoll), and
/// writes the stream with them. Each target gets a preroll with the configuration of the stream, applyCrossfade where FADE is 1, and the
/// access units of the K frames before it; all else stays bit for bit. A decoder that begins at a target plays it as one that began before.
///
/// The file is a LOAS stream (ISO/IEC 14496-3, AudioSyncStream), and is read to its end. It is refused where the stream is, and then by
/// the first of these rules. Each frame has the configuration of frame 0, and is no shorter than its fields; the configuration declares a
/// preroll, and has at most 285 bytes; K is from 1 to 18; the targets rise, and are frames of the stream. Each target is independent, and
/// has no part for a preroll yet; K frames stand before it, the first of which is independent; its preroll has at most 65788 bytes, and its
/// AudioMuxElement at most 8191. Nothing is written before all rules hold. The core is left as it was.
pub fn do_insert<H: Shelf, K: Sink, C: Core>(
    alloc: Global,
    words: &[String],
    shelf: &mut H,
    out: &mut K,
    core: &mut C,
) -> Outcome
    requires words { (file : List ℕ) × (count : ℕ) × (fade : Bool) × (targets : Targets) × IsInsert (texts words.now) file count fade targets }
    requires begun { H.begun shelf.old ≤ 2 ^ 31 }
    requires fed { (C.meaning core.old).fed ≤ 2 ^ 63 }
    ensures { (file : List ℕ) (count : ℕ) (fade : Bool) (targets : Targets) → IsInsert (texts words.now) file count fade targets → Called (on_whole (inserting count fade targets)) (file ∷ [])
        (world H.Shelf K.Sink C.Core shelf.old out.old core.old) (world H.Shelf K.Sink C.Core shelf.new out.new core.new) result }
{
    let Some(
        Asked::Insert {
            file,
            count,
            fade,
            targets,
        },
    ) = read_words(words)
    else {
        unreachable!()
    };
    let targets = match targets.targets(alloc) {
        Ok(targets) => targets,
        Err(error) => return Outcome::Memory(error),
    };
    let insert = Insert {
        count,
        fade,
        targets,
    };
    run_file(alloc, &mut WholeInput(insert), file, shelf, out, core)
}
