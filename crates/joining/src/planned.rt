// The command `plan`, on names of files and positions.
ghost use Rattle.std.specs.Prelude.{◌≡◌, ◌<◌, ◌≤◌, ◌^◌, length, map, Some};
ghost use Rattle.joining.specs.Planning.{plans_files, piece_in};
ghost use Rattle.joining.specs.Refusals.{refusal_of_plan};
ghost use Rattle.commands.specs.Calling.{Called};
ghost use Rattle.commands.specs.Doing.{IsRefusedBy};
ghost use Rattle.commands.specs.Worlds.{world};

use crate::fault_end::plan_refusal;
use crate::plan_task::Plan;
use commands::{Outcome, PieceFrames, refused, run_files};
use core_iface::Core;
use outside::{Shelf, Sink};
use std::alloc::Global;
use timeline::{PlanFault, check_positions};
use tool_text::Within;

/// The number of the piece that a fault is about.
fn piece_of(fault: &PlanFault) -> u64
    ensures { result ≡ piece_in fault.now }
{
    match fault {
        PlanFault::BadOrder { piece } => u64::from(*piece),
        PlanFault::NoFrameAt { piece, .. } => u64::from(*piece),
        PlanFault::RateDiffers { piece } => u64::from(*piece),
        PlanFault::ChannelsDiffer { piece } => u64::from(*piece),
        PlanFault::PastEnd { piece } => u64::from(*piece),
        PlanFault::Memory(_) => 0,
    }
}

/// How the command ends at positions that have this fault.
pub fn refused_positions(alloc: Global, fault: &PlanFault) -> Outcome
    ensures { IsRefusedBy (Some (Within.Piece (piece_in fault.now))) (refusal_of_plan fault.now) result }
{
    let within = Some(Within::Piece(piece_of(fault)));
    refused(alloc, within, plan_refusal(fault))
}

/// Checks the pieces of renditions that begin at these positions: the files of these names, one after another. Each is begun when
/// its turn comes, and read in pieces; its piece is told on a line once all its frames were checked.
pub fn plan_files<H: Shelf, K: Sink, C: Core>(
    alloc: Global,
    names: &[&str],
    positions: Vec<u64>,
    shelf: &mut H,
    out: &mut K,
    core: &mut C,
) -> Outcome
    requires each { length positions.items ≡ length names.now }
    requires some { 0 < length names.now }
    requires few { length names.now ≤ 64 }
    requires begun { H.begun shelf.old ≤ 2 ^ 31 }
    requires fed { (C.meaning core.old).fed ≤ 2 ^ 63 }
    ensures { Called (plans_files C.does positions.items) (map (λ name. name.now) names.now)
        (world H.Shelf K.Sink C.Core shelf.old out.old core.old) (world H.Shelf K.Sink C.Core shelf.new out.new core.new) result }
{
    if let Err(fault) = check_positions(&positions) {
        return refused_positions(alloc, &fault);
    }
    let mut task = PieceFrames(Plan::new(alloc, positions));
    run_files(alloc, &mut task, names, shelf, out, core)
}
