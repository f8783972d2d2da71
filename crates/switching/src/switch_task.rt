// `switch`, frame by frame.
ghost use Rattle.std.specs.Prelude.{◌≡◌, ◌<◌, ◌^◌, [], length, IsOk, None, false, true};
ghost use Rattle.splicer.specs.Pieces.{is_given};
ghost use Rattle.joining.specs.Renditions.{RenditionStands};
ghost use Rattle.joining.specs.Planning.{first_at};

use au_stream::EventView;
use commands::{FrameEnd, Task};
use core_iface::Core;
use joining::Renditions;
use latm::MuxConfig;
use outside::Sink;
use playing::{Entry, FramePlayer};
use splicer::Turn;
use std::alloc::{AllocError, Global};
use timeline::Piece;
use tool_text::Within;

/// The check of the pieces of renditions, whose frames are fed to one player.
#[derive(Drop)]
pub struct Switch {
    renditions: Renditions,
    frames: FramePlayer,
    /// Whether each rendition before had its piece, and another piece was wanted behind it.
    follows: bool,
}

/// Whether the frame with that turn is of the piece.
fn is_given(turn: Turn) -> bool
    ensures { result ≡ is_given turn }
{
    match turn {
        Turn::Start { .. } | Turn::Join { .. } | Turn::Play => true,
        Turn::Skip | Turn::After => false,
    }
}

/// Whether the next rendition follows one that had this piece, or has none: it is that of a piece with a larger number.
fn follows_on(follows: bool, piece: &Result<Piece, FrameEnd>, number: u64, next: u64) -> bool
    ensures follows { result ≡ true → follows ≡ true }
    ensures whole { result ≡ true → IsOk piece.now }
    ensures further { result ≡ true → number < next }
{
    follows && piece.is_ok() && number < next
}

impl Switch {
    /// Before the first rendition. A piece is wanted at each of the positions, which are output samples of one channel, and rise.
    pub fn new(alloc: Global, positions: Vec<u64>) -> Switch
        requires some { 0 < length positions.items }
        requires few { length positions.items < 2 ^ 32 }
        ensures rendition { RenditionStands (first_at positions.items) [] result.renditions }
        ensures player { result.frames.player ≡ record { last = None; stopped = false } }
        ensures follows { result.follows ≡ true }
    {
        Switch {
            renditions: Renditions::new(alloc, positions),
            frames: FramePlayer::new(alloc),
            follows: true,
        }
    }
}

impl Task for Switch {
    ghost use Rattle.std.specs.Prelude.{true};
    ghost use Rattle.switching.specs.Switching.{SwitchAt, begins_at, next_at, switching};
    ghost use Rattle.switching.specs.Standing.{SwitchStands};

    ghost At = { SwitchAt };

    ghost first = { λ task. begins_at task.renditions.positions.items };

    ghost command = { λ at d. switching d at };

    ghost then = { λ at frames. next_at at frames };

    ghost plays = { true };

    ghost Stands = { λ d at frames task ready. SwitchStands d at frames task ready };

    /// Checks a frame, and plays it where it is of the piece: its samples are one write. The first frame of all may be one within its
    /// stream: the check has seen that it carries what a player needs there, so it is fed as the others are.
    fn handle<K: Sink, C: Core>(
        &mut self,
        alloc: Global,
        event: &EventView,
        mux: &MuxConfig,
        out: &mut K,
        core: &mut C,
    ) -> Result<(), FrameEnd> {
        if !self.follows {
            return Err(FrameEnd::Memory(AllocError));
        }
        let au = event.au(alloc)?;
        let au = au.as_slice();
        let config = &mux.asc.usac;
        let turn = self.renditions.feed(alloc, config, au, core)?;
        if !is_given(turn) {
            return Ok(());
        }
        self.frames
            .play(alloc, event.frame(), Entry::Next, config, au, out, core)
    }

    /// Refuses a rendition that lacks its piece. Writes nothing.
    fn close<K: Sink, C: Core>(&self, alloc: Global, out: &mut K) -> Result<(), FrameEnd> {
        let _ = alloc;
        let _ = out;
        let _piece = self.renditions.end()?;
        Ok(())
    }

    /// Goes on to the next rendition. The player goes on.
    fn turn<C: Core>(&mut self) {
        let piece = self.renditions.end();
        let number = self.renditions.number();
        self.renditions.go_on();
        self.follows = follows_on(self.follows, &piece, number, self.renditions.number());
    }

    fn within<C: Core>(&self) -> Option<Within> {
        Some(Within::Piece(self.renditions.number()))
    }

    fn is_command<C: Core>() {}
}
