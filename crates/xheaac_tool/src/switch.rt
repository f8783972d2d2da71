// The command `switch`.
ghost use Rattle.std.specs.Prelude.{◌≤◌, ◌^◌, List};
ghost use Rattle.xheaac_tool.specs.Words.{texts, PieceWords, IsSwitch, files_of, positions_of};
ghost use Rattle.commands.specs.Worlds.{world};
ghost use Rattle.commands.specs.Calling.{Called};
ghost use Rattle.switching.specs.Switching.{switches_files};

use crate::listing::{PieceLists, piece_lists};
use crate::words::{Asked, read_words};
use commands::Outcome;
use core_iface::Core;
use outside::{Shelf, Sink};
use std::alloc::Global;
use switching::switch_files;

/// The command `switch FILE POS [FILE POS]...`: plays renditions as one programme. What it writes is, sample by sample, what `play`
/// writes of the stream that `splice` makes of them, in one pass over the files.
///
/// It refuses what [`do_plan`](crate::do_plan) refuses, behind the samples of all frames before. The samples of each frame are one write,
/// before the next frame is read: 16 bits each, little endian, channels interleaved.
pub fn do_switch<H: Shelf, K: Sink, C: Core>(
    alloc: Global,
    words: &[String],
    shelf: &mut H,
    out: &mut K,
    core: &mut C,
) -> Outcome
    requires words { (pieces : List PieceWords) × IsSwitch (texts words.now) pieces }
    requires begun { H.begun shelf.old ≤ 2 ^ 31 }
    requires fed { (C.meaning core.old).fed ≤ 2 ^ 63 }
    ensures { (pieces : List PieceWords) → IsSwitch (texts words.now) pieces → Called (switches_files C.does (positions_of pieces)) (files_of pieces)
        (world H.Shelf K.Sink C.Core shelf.old out.old core.old) (world H.Shelf K.Sink C.Core shelf.new out.new core.new) result }
{
    let Some(Asked::Switch { pieces }) = read_words(words) else {
        unreachable!()
    };
    let PieceLists { files, positions } = match piece_lists(alloc, pieces) {
        Ok(lists) => lists,
        Err(error) => return Outcome::Memory(error),
    };
    switch_files(alloc, &files, positions, shelf, out, core)
}
