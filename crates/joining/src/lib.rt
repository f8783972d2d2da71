//! Renditions joined at positions on a timeline: the commands on pieces of several files.
//!
//! [`plan_files`] checks the pieces of renditions, one file after another, and tells each on a line of its own. [`splice_files`] checks
//! them so, and writes their frames as one stream. What becomes of the
//! files is said by their first event, in the order of the files and of their frames: the first rule that is broken, or the first
//! file that does not end behind its last frame. [`laws::no_event_is_a_sound_plan`] says that there is none exactly where the files
//! are whole streams whose pieces make a sound plan, which is timed by the positions. [`laws::no_stop_is_a_sound_plan`] says that
//! nothing stops [`splice_files`] exactly where they are so and each frame of the pieces fits an element of the canonical mux.
#![tactic(auto)]

mod fault_end;
mod handing_on;
pub mod laws;
mod plan_task;
mod planned;
mod renditions;
mod splice_task;
mod spliced;

pub use planned::{plan_files, refused_positions};
pub use renditions::Renditions;
pub use spliced::splice_files;
