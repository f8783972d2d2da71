// The command `switch`, on names of files and positions.
ghost use Rattle.std.specs.Prelude.{◌≡◌, ◌<◌, ◌≤◌, ◌^◌, length, map};
ghost use Rattle.switching.specs.Switching.{switches_files};
ghost use Rattle.commands.specs.Calling.{Called};
ghost use Rattle.commands.specs.Worlds.{world};

use crate::switch_task::Switch;
use commands::{Outcome, PieceFrames, run_files};
use core_iface::Core;
use joining::refused_positions;
use outside::{Shelf, Sink};
use std::alloc::Global;
use timeline::check_positions;

/// Plays pieces of renditions that begin at these positions as one programme: the files of these names, one after another. Each is
/// begun when its turn comes, and read in pieces; each frame of its piece is played by the one player of all files before the next
/// one is read.
pub fn switch_files<H: Shelf, K: Sink, C: Core>(
    alloc: Global,
    names: &[&str],
    positions: Vec<u64>,
    shelf: &mut H,
    out: &mut K,
    core: &mut C,
) -> Outcome
    requires each { length positions.items ≡ length names.now }
    requires some { 0 < length names.now }
    requires few { length names.now ≤ 64 }
    requires begun { H.begun shelf.old ≤ 2 ^ 31 }
    requires fed { (C.meaning core.old).fed ≤ 2 ^ 63 }
    ensures { Called (switches_files C.does positions.items) (map (λ name. name.now) names.now)
        (world H.Shelf K.Sink C.Core shelf.old out.old core.old) (world H.Shelf K.Sink C.Core shelf.new out.new core.new) result }
{
    if let Err(fault) = check_positions(&positions) {
        return refused_positions(alloc, &fault);
    }
    let mut task = PieceFrames(Switch::new(alloc, positions));
    run_files(alloc, &mut task, names, shelf, out, core)
}
