//! Frames of files to samples: the tasks of the commands that feed a player, and what they promise.
//!
//! [`Play`] feeds each frame of a file, or of several, to one player, and writes its samples; a runner of the crate `commands` goes
//! over the frames. What `play` takes and writes is said of lists of frames: which frame is refused and why (`PlayRefuses`), and
//! that the output is the cut of the frames' own plan (`playing`). [`laws::play_takes_splices_alone`] is what follows from that for
//! whole files: `play` takes exactly those that carry the splice of whole streams at sound joins.
#![tactic(auto)]

mod frame_player;
pub mod laws;
mod play_end;
mod play_task;
mod start_task;

pub use frame_player::{Entry, FramePlayer};
pub use play_task::Play;
pub use start_task::Start;
