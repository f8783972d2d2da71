//! Renditions played as one programme: the command that joins pieces of files at positions and feeds them to one player.
//!
//! [`switch_files`] checks each frame of a rendition, and feeds those of its piece to one player for all files. It refuses what `plan`
//! refuses and nothing else: what was given out of renditions that break no rule is the splice of a sound plan, and a player takes
//! that whole. So the first event of the files decides how it ends, as it decides `plan`, and what it writes is the plan cut short by
//! that event: [`laws::switch_plays_before_events`]. Files that are the streams of a sound plan are played whole, and the samples are
//! those that `play` writes of the file that `splice` makes of them: [`laws::switch_plays_the_splice`].
#![tactic(auto)]

pub mod laws;
mod switch_task;
mod switched;

pub use switch_task::Switch;
pub use switched::switch_files;
