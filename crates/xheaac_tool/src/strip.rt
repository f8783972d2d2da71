// The command `strip`.
ghost use Rattle.std.specs.Prelude.{◌≤◌, ◌^◌, ℕ, List, [], ◌∷◌};
ghost use Rattle.xheaac_tool.specs.Words.{texts, IsStrip};
ghost use Rattle.commands.specs.Worlds.{world};
ghost use Rattle.commands.specs.Calling.{Called};
ghost use Rattle.commands.specs.Wholes.{on_whole};
ghost use Rattle.ipf_frame.specs.declared.stripping.Tail.{Tail};
ghost use Rattle.editing.specs.declared.strip.StripTargets.{StripTargets};
ghost use Rattle.editing.specs.Stripping.{stripping};

use crate::words::{Asked, read_words};
use commands::{Outcome, WholeInput, run_file};
use core_iface::Core;
use editing::Strip;
use outside::{Shelf, Sink};
use std::alloc::Global;

/// The command `strip FILE TAIL TARGETS`: takes the prerolls out of immediate play-out frames of a file (ISO/IEC 23003-3, AudioPreRoll),
/// and writes the stream without them. `all` for TARGETS is each immediate frame. All else stays bit for bit; but the bits behind a
/// preroll move, and what then fills no byte is dropped where TAIL is `undo`, which gives back what was there before `insert`, and is
/// filled with zeros where it is `keep`.
///
/// The file is a LOAS stream (ISO/IEC 14496-3, AudioSyncStream), and is read to its end. It is refused where the stream is, and then by
/// the first of these rules. Each frame is no shorter than its fields; the targets rise, and are frames of the stream. Each target is
/// immediate; and with `undo` the bits that are dropped stand behind its leading extension elements, and are zeros. Nothing is written
/// before all rules hold. The core is left as it was.
pub fn do_strip<H: Shelf, K: Sink, C: Core>(
    alloc: Global,
    words: &[String],
    shelf: &mut H,
    out: &mut K,
    core: &mut C,
) -> Outcome
    requires words { (file : List ℕ) × (tail : Tail) × (targets : StripTargets) × IsStrip (texts words.now) file tail targets }
    requires begun { H.begun shelf.old ≤ 2 ^ 31 }
    requires fed { (C.meaning core.old).fed ≤ 2 ^ 63 }
    ensures { (file : List ℕ) (tail : Tail) (targets : StripTargets) → IsStrip (texts words.now) file tail targets → Called (on_whole (stripping tail targets)) (file ∷ [])
        (world H.Shelf K.Sink C.Core shelf.old out.old core.old) (world H.Shelf K.Sink C.Core shelf.new out.new core.new) result }
{
    let Some(
        Asked::Strip {
            file,
            tail,
            targets,
        },
    ) = read_words(words)
    else {
        unreachable!()
    };
    let targets = match targets.targets(alloc) {
        Ok(targets) => targets,
        Err(error) => return Outcome::Memory(error),
    };
    let strip = Strip { tail, targets };
    run_file(alloc, &mut WholeInput(strip), file, shelf, out, core)
}
