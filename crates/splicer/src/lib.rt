//! The check of a rendition, frame by frame: whether a piece of it may be joined to what was given out before.
//!
//! A `PieceRun` is fed the frames of one stream as they are read, from the first one on, and says of each whether it stands before
//! the piece, begins it, goes on in it, or stands behind it; or it names the first rule that the frame breaks. It keeps the last 18
//! units of the stream, which are as many as a preroll carries, so it holds no more of a long stream than of a short one.
#![tactic(auto)]

mod asked;
mod fault;
mod join;
mod judged;
mod judging;
mod kept;
pub mod laws;
mod opening;
#[cfg(test)]
mod renditions;
mod run;
#[cfg(test)]
mod tests;
mod turn;

pub use fault::SpliceFault;
pub use run::PieceRun;
pub use turn::Turn;
