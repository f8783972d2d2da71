// `start`, frame by frame.
ghost use Rattle.std.specs.Prelude.{◌≡◌, None, false};
ghost use Rattle.playing.specs.Starting.{entry_at};

use crate::frame_player::{Entry, FramePlayer};
use au_stream::EventView;
use commands::{FrameEnd, Task};
use core_iface::Core;
use latm::MuxConfig;
use outside::Sink;
use std::alloc::Global;
use tool_text::{Place, Reason, Refusal, Within};

/// The frames of `start`: those before the first one are skipped, and the others are given to one player.
#[derive(Drop)]
pub struct Start {
    /// The number of the frame at which the player starts.
    first: u64,
    /// How many frames there were, the skipped ones among them.
    count: u64,
    frames: FramePlayer,
}

/// How a player that starts at that frame is given the one with that number. Frame 0 begins a stream, as with `play`.
fn entry_at(first: u64, number: u64) -> Entry
    ensures { result ≡ entry_at first number }
{
    if first > 0 && number == first {
        Entry::Within
    } else {
        Entry::Next
    }
}

impl Start {
    /// Before the first frame of a file, to play those from that number on.
    pub fn new(alloc: Global, first: u64) -> Start
        ensures first { result.first ≡ first }
        ensures count { result.count ≡ 0 }
        ensures player { result.frames.player ≡ record { last = None; stopped = false } }
    {
        Start {
            first,
            count: 0,
            frames: FramePlayer::new(alloc),
        }
    }
}

impl Task for Start {
    ghost use Rattle.std.specs.Prelude.{ℕ, true};
    ghost use Rattle.playing.specs.Starting.{starting, StartStands};

    ghost At = { ℕ };

    ghost first = { λ task. task.first };

    ghost command = { λ first d. starting d first };

    ghost then = { λ first frames. first };

    ghost plays = { true };

    ghost Stands = { λ d first frames task ready. StartStands d first frames task ready };

    /// Plays a frame, or skips it. A skipped frame is not copied.
    fn handle<K: Sink, C: Core>(
        &mut self,
        alloc: Global,
        event: &EventView,
        mux: &MuxConfig,
        out: &mut K,
        core: &mut C,
    ) -> Result<(), FrameEnd> {
        let number = event.frame();
        self.count = number + 1;
        if number < self.first {
            return Ok(());
        }
        let au = event.au(alloc)?;
        let au = au.as_slice();
        let config = &mux.asc.usac;
        let entry = entry_at(self.first, number);
        self.frames
            .play(alloc, number, entry, config, au, out, core)
    }

    /// Refuses a file that ends before the first frame that is played. Writes nothing.
    fn close<K: Sink, C: Core>(&self, alloc: Global, out: &mut K) -> Result<(), FrameEnd> {
        let _ = alloc;
        let _ = out;
        if self.count <= self.first {
            return Err(FrameEnd::Refused(Refusal {
                place: Place::Whole,
                reason: Reason::PastEnd,
            }));
        }
        Ok(())
    }

    /// Begins anew, at the frame with the same number.
    fn turn<C: Core>(&mut self) {
        self.count = 0;
        self.frames.begin_anew();
    }

    fn within<C: Core>(&self) -> Option<Within> {
        None
    }

    fn is_command<C: Core>() {}
}
