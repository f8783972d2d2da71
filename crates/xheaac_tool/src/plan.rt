// The command `plan`.
ghost use Rattle.std.specs.Prelude.{◌≤◌, ◌^◌, List};
ghost use Rattle.xheaac_tool.specs.Words.{texts, PieceWords, IsPlan, files_of, positions_of};
ghost use Rattle.commands.specs.Worlds.{world};
ghost use Rattle.commands.specs.Calling.{Called};
ghost use Rattle.joining.specs.Planning.{plans_files};

use crate::listing::{PieceLists, piece_lists};
use crate::words::{Asked, read_words};
use commands::Outcome;
use core_iface::Core;
use joining::plan_files;
use outside::{Shelf, Sink};
use std::alloc::Global;

/// The command `plan FILE POS [FILE POS]...`: checks whether renditions can be joined at positions, and tells the pieces, a line each.
///
/// A position is a number of output samples of one channel: the piece of a file begins with the frame that stands there, and ends
/// where the next piece begins, or with its file. Each file is begun when its piece comes, and read in pieces. The core is asked for
/// its warm-up alone: so many units a join has to carry.
pub fn do_plan<H: Shelf, K: Sink, C: Core>(
    alloc: Global,
    words: &[String],
    shelf: &mut H,
    out: &mut K,
    core: &mut C,
) -> Outcome
    requires words { (pieces : List PieceWords) × IsPlan (texts words.now) pieces }
    requires begun { H.begun shelf.old ≤ 2 ^ 31 }
    requires fed { (C.meaning core.old).fed ≤ 2 ^ 63 }
    ensures { (pieces : List PieceWords) → IsPlan (texts words.now) pieces → Called (plans_files C.does (positions_of pieces)) (files_of pieces)
        (world H.Shelf K.Sink C.Core shelf.old out.old core.old) (world H.Shelf K.Sink C.Core shelf.new out.new core.new) result }
{
    let Some(Asked::Plan { pieces }) = read_words(words) else {
        unreachable!()
    };
    let PieceLists { files, positions } = match piece_lists(alloc, pieces) {
        Ok(lists) => lists,
        Err(error) => return Outcome::Memory(error),
    };
    plan_files(alloc, &files, positions, shelf, out, core)
}
