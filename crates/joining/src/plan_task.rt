// `plan`, frame by frame.
ghost use Rattle.std.specs.Prelude.{◌≡◌, ◌<◌, ◌^◌, [], length};
ghost use Rattle.joining.specs.Planning.{lead_behind, first_at, PlanStands};

use crate::renditions::Renditions;
use au_stream::EventView;
use commands::{FrameEnd, Task, give_all};
use core_iface::Core;
use latm::MuxConfig;
use outside::Sink;
use splicer::Turn;
use std::alloc::Global;
use tool_text::{Within, piece_line};

/// How a piece begins: how many units its first frame carries, and whether that frame asks for a fade (AudioPreRoll, applyCrossfade).
#[derive(Clone, Copy)]
pub struct Lead {
    units: u32,
    fade: bool,
}

/// What is known of how a piece begins, behind a frame with that turn.
fn lead_behind(lead: Lead, turn: Turn) -> Lead
    ensures { result ≡ lead_behind lead turn }
{
    match turn {
        Turn::Start { units, fade } | Turn::Join { units, fade } => Lead { units, fade },
        Turn::Skip | Turn::Play | Turn::After => lead,
    }
}

/// The check of the pieces of renditions, each of which is told on a line at its end.
#[derive(Drop)]
pub struct Plan {
    renditions: Renditions,
    lead: Lead,
}

impl Plan {
    /// Before the first rendition. A piece is wanted at each of the positions, which are output samples of one channel.
    pub fn new(alloc: Global, positions: Vec<u64>) -> Plan
        requires some { 0 < length positions.items }
        requires few { length positions.items < 2 ^ 32 }
        ensures { PlanStands (first_at positions.items) [] result }
    {
        Plan {
            renditions: Renditions::new(alloc, positions),
            lead: Lead {
                units: 0,
                fade: false,
            },
        }
    }
}

impl Task for Plan {
    ghost use Rattle.std.specs.Prelude.{false};
    ghost use Rattle.joining.specs.Renditions.{PieceAt, next_at};
    ghost use Rattle.joining.specs.Planning.{planning, first_at, PlanStands};

    ghost At = { PieceAt };

    ghost first = { λ task. first_at task.renditions.positions.items };

    ghost command = { λ at d. planning d at };

    ghost then = { λ at frames. next_at at frames };

    ghost plays = { false };

    ghost Stands = { λ d at frames task ready. PlanStands at frames task };

    /// Checks a frame. Nothing is written.
    fn handle<K: Sink, C: Core>(
        &mut self,
        alloc: Global,
        event: &EventView,
        mux: &MuxConfig,
        out: &mut K,
        core: &mut C,
    ) -> Result<(), FrameEnd> {
        let _ = out;
        let au = event.au(alloc)?;
        let au = au.as_slice();
        let config = &mux.asc.usac;
        let turn = self.renditions.feed(alloc, config, au, core)?;
        self.lead = lead_behind(self.lead, turn);
        Ok(())
    }

    /// Refuses a rendition that lacks its piece, or writes the piece's line.
    fn close<K: Sink, C: Core>(&self, alloc: Global, out: &mut K) -> Result<(), FrameEnd> {
        let piece = self.renditions.end()?;
        let Lead { units, fade } = self.lead;
        let number = self.renditions.number();
        let line = piece_line(alloc, number, piece.from, piece.to, u64::from(units), fade)?;
        give_all(out, line.as_slice())?;
        Ok(())
    }

    /// Goes on to the next rendition.
    fn turn<C: Core>(&mut self) {
        self.renditions.go_on();
        self.lead = Lead {
            units: 0,
            fade: false,
        };
    }

    fn within<C: Core>(&self) -> Option<Within> {
        Some(Within::Piece(self.renditions.number()))
    }

    fn is_command<C: Core>() {}
}
