// The command `splice`, on names of files and positions.
ghost use Rattle.std.specs.Prelude.{◌≡◌, ◌<◌, ◌≤◌, ◌^◌, length, map};
ghost use Rattle.joining.specs.Splicing.{splices_files};
ghost use Rattle.commands.specs.Calling.{Called};
ghost use Rattle.commands.specs.Worlds.{world};

use crate::planned::refused_positions;
use crate::splice_task::Splice;
use commands::{Outcome, PieceFrames, run_files};
use core_iface::Core;
use outside::{Shelf, Sink};
use std::alloc::Global;
use timeline::check_positions;

/// Joins pieces of renditions that begin at these positions: the files of these names, one after another. Each is begun when its
/// turn comes, and read in pieces; each frame of its piece is written, in the canonical mux, before the next one is read.
pub fn splice_files<H: Shelf, K: Sink, C: Core>(
    alloc: Global,
    names: &[&str],
    positions: Vec<u64>,
    shelf: &mut H,
    out: &mut K,
    core: &mut C,
) -> Outcome
    requires each { length positions.items ≡ length names.now }
    requires some { 0 < length names.now }
    requires few { length names.now ≤ 64 }
    requires begun { H.begun shelf.old ≤ 2 ^ 31 }
    requires fed { (C.meaning core.old).fed ≤ 2 ^ 63 }
    ensures { Called (splices_files C.does positions.items) (map (λ name. name.now) names.now)
        (world H.Shelf K.Sink C.Core shelf.old out.old core.old) (world H.Shelf K.Sink C.Core shelf.new out.new core.new) result }
{
    if let Err(fault) = check_positions(&positions) {
        return refused_positions(alloc, &fault);
    }
    let mut task = PieceFrames(Splice::new(alloc, positions));
    run_files(alloc, &mut task, names, shelf, out, core)
}
