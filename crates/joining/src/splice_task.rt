// `splice`, frame by frame.
ghost use Rattle.std.specs.Prelude.{◌≡◌, ◌<◌, ◌^◌, [], length};
ghost use Rattle.joining.specs.Planning.{first_at};
ghost use Rattle.joining.specs.Splicing.{SpliceStands};

use crate::handing_on::hand_over;
use crate::renditions::Renditions;
use au_stream::EventView;
use commands::{FrameEnd, Task};
use core_iface::Core;
use latm::MuxConfig;
use outside::Sink;
use std::alloc::Global;
use tool_text::Within;

/// The check of the pieces of renditions, whose frames are written one behind another.
#[derive(Drop)]
pub struct Splice {
    renditions: Renditions,
}

impl Splice {
    /// Before the first rendition. A piece is wanted at each of the positions, which are output samples of one channel.
    pub fn new(alloc: Global, positions: Vec<u64>) -> Splice
        requires some { 0 < length positions.items }
        requires few { length positions.items < 2 ^ 32 }
        ensures { SpliceStands (first_at positions.items) [] result }
    {
        Splice {
            renditions: Renditions::new(alloc, positions),
        }
    }
}

impl Task for Splice {
    ghost use Rattle.std.specs.Prelude.{false};
    ghost use Rattle.joining.specs.Renditions.{PieceAt, next_at};
    ghost use Rattle.joining.specs.Planning.{first_at};
    ghost use Rattle.joining.specs.Splicing.{splicing, SpliceStands};

    ghost At = { PieceAt };

    ghost first = { λ task. first_at task.renditions.positions.items };

    ghost command = { λ at d. splicing d at };

    ghost then = { λ at frames. next_at at frames };

    ghost plays = { false };

    ghost Stands = { λ d at frames task ready. SpliceStands at frames task };

    /// Checks a frame, and writes it where it is one of the piece.
    fn handle<K: Sink, C: Core>(
        &mut self,
        alloc: Global,
        event: &EventView,
        mux: &MuxConfig,
        out: &mut K,
        core: &mut C,
    ) -> Result<(), FrameEnd> {
        let au = event.au(alloc)?;
        let au = au.as_slice();
        let turn = self.renditions.feed(alloc, &mux.asc.usac, au, core)?;
        hand_over(alloc, turn, event.frame(), &mux.asc, au, out)
    }

    /// Refuses a rendition that lacks its piece.
    fn close<K: Sink, C: Core>(&self, alloc: Global, out: &mut K) -> Result<(), FrameEnd> {
        let _ = alloc;
        let _ = out;
        let _piece = self.renditions.end()?;
        Ok(())
    }

    /// Goes on to the next rendition.
    fn turn<C: Core>(&mut self) {
        self.renditions.go_on();
    }

    fn within<C: Core>(&self) -> Option<Within> {
        Some(Within::Piece(self.renditions.number()))
    }

    fn is_command<C: Core>() {}
}
