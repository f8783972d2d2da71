// The command `splice`.
ghost use Rattle.std.specs.Prelude.{◌≤◌, ◌^◌, List};
ghost use Rattle.xheaac_tool.specs.Words.{texts, PieceWords, IsSplice, files_of, positions_of};
ghost use Rattle.commands.specs.Worlds.{world};
ghost use Rattle.commands.specs.Calling.{Called};
ghost use Rattle.joining.specs.Splicing.{splices_files};

use crate::listing::{PieceLists, piece_lists};
use crate::words::{Asked, read_words};
use commands::Outcome;
use core_iface::Core;
use joining::splice_files;
use outside::{Shelf, Sink};
use std::alloc::Global;

/// The command `splice FILE POS [FILE POS]...`: joins renditions at positions, and writes them as one stream: a LOAS frame for each
/// access unit (ISO/IEC 14496-3, AudioSyncStream), with a StreamMuxConfig where a piece begins and nowhere else.
///
/// It refuses what [`do_plan`](crate::do_plan) refuses, and a frame whose AudioMuxElement would have more than 8191 bytes. Each frame is
/// written before the next one is read.
pub fn do_splice<H: Shelf, K: Sink, C: Core>(
    alloc: Global,
    words: &[String],
    shelf: &mut H,
    out: &mut K,
    core: &mut C,
) -> Outcome
    requires words { (pieces : List PieceWords) × IsSplice (texts words.now) pieces }
    requires begun { H.begun shelf.old ≤ 2 ^ 31 }
    requires fed { (C.meaning core.old).fed ≤ 2 ^ 63 }
    ensures { (pieces : List PieceWords) → IsSplice (texts words.now) pieces → Called (splices_files C.does (positions_of pieces)) (files_of pieces)
        (world H.Shelf K.Sink C.Core shelf.old out.old core.old) (world H.Shelf K.Sink C.Core shelf.new out.new core.new) result }
{
    let Some(Asked::Splice { pieces }) = read_words(words) else {
        unreachable!()
    };
    let PieceLists { files, positions } = match piece_lists(alloc, pieces) {
        Ok(lists) => lists,
        Err(error) => return Outcome::Memory(error),
    };
    splice_files(alloc, &files, positions, shelf, out, core)
}
