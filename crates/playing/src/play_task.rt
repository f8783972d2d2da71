// `play`, frame by frame.
ghost use Rattle.std.specs.Prelude.{◌≡◌, None, false};

use crate::frame_player::{Entry, FramePlayer};
use au_stream::EventView;
use commands::{FrameEnd, Task};
use core_iface::Core;
use latm::MuxConfig;
use outside::Sink;
use std::alloc::Global;
use tool_text::Within;

/// The frames of `play`, which are fed to one player.
#[derive(Drop)]
pub struct Play {
    frames: FramePlayer,
}

impl Play {
    /// Before the first frame.
    pub fn new(alloc: Global) -> Play
        ensures { result.frames.player ≡ record { last = None; stopped = false } }
    {
        Play {
            frames: FramePlayer::new(alloc),
        }
    }
}

impl Task for Play {
    ghost use Rattle.std.specs.Prelude.{true, List, [], ◌++◌};
    ghost use Rattle.au_stream.specs.Frames.{Frame};
    ghost use Rattle.playing.specs.Playing.{playing};
    ghost use Rattle.playing.specs.Standing.{PlayerStands};

    ghost At = { List Frame };

    ghost first = { λ task. [] };

    ghost command = { λ earlier d. playing d earlier };

    ghost then = { λ earlier frames. earlier ++ frames };

    ghost plays = { true };

    ghost Stands = { λ d earlier frames task ready. PlayerStands d (earlier ++ frames) task.frames.player ready };

    /// Plays a frame: its samples are one write.
    fn handle<K: Sink, C: Core>(
        &mut self,
        alloc: Global,
        event: &EventView,
        mux: &MuxConfig,
        out: &mut K,
        core: &mut C,
    ) -> Result<(), FrameEnd> {
        let au = event.au(alloc)?;
        let au = au.as_slice();
        let config = &mux.asc.usac;
        self.frames
            .play(alloc, event.frame(), Entry::Next, config, au, out, core)
    }

    /// Writes nothing.
    fn close<K: Sink, C: Core>(&self, alloc: Global, out: &mut K) -> Result<(), FrameEnd> {
        let _ = alloc;
        let _ = out;
        Ok(())
    }

    /// The player goes on.
    fn turn<C: Core>(&mut self) {}

    fn within<C: Core>(&self) -> Option<Within> {
        None
    }

    fn is_command<C: Core>() {}
}
