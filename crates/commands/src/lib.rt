//! What all commands of the program share. No command is named here.
//!
//! A command gives its runner a value of a trait, and the runner does the rest: it begins the inputs, reads them, hands on what is
//! to be written, and ends with an [`Outcome`]. What is promised of a call is one record for all commands, `Called`, of which the
//! command's own part is what it does by the bytes of its inputs.
//!
//! | the command reads | runner | trait |
//! |---|---|---|
//! | one file, frame by frame | [`run_file`] over [`Frames`] | [`Task`] |
//! | several files, frame by frame | [`run_files`] over [`PieceFrames`] | [`Task`] |
//! | one file, whole | [`run_file`] over [`WholeInput`] | [`Whole`] |
//! | one file, or several, in another form | [`run_file`], [`run_files`] | [`Input`], [`Inputs`] |
//! | no file | [`run_none`] | [`Alone`] |
//!
//! Behind a command [`finish`] flushes the output, notes how it ended, and answers the status.
#![tactic(auto)]

mod alone;
mod frame_end;
mod frames;
mod give;
mod input;
mod inputs;
pub mod laws;
mod note;
mod outcome;
mod pieces;
mod task;
#[cfg(test)]
mod tests;
mod whole;

pub use alone::{Alone, run_none};
pub use frame_end::{FrameEnd, too_short};
pub use frames::{Frames, refused};
pub use give::give_all;
pub use input::{Input, run_file};
pub use inputs::{Inputs, run_files};
pub use note::{OUT_OF_MEMORY, finish, report};
pub use outcome::Outcome;
pub use pieces::PieceFrames;
pub use task::Task;
pub use whole::{Whole, WholeInput};
