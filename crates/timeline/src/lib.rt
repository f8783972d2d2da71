//! The timeline: positions, in samples, as pieces of streams.
//!
//! A position is a number of output samples of one channel, counted from the first sample of the plan; within a stream it is the
//! number of a frame times the frame length. Pieces stand one behind another: each goes from its position to the next one's, and
//! the last one to the end of its stream. `check_positions` and `bounds` judge positions alone, so they can be asked before a stream
//! is read; `plan` judges whole shapes.
#![tactic(auto)]

mod bounding;
mod fault;
pub mod laws;
mod piece;
mod planning;
mod positions;
mod shape;
#[cfg(test)]
mod tests;

pub use bounding::bounds;
pub use fault::PlanFault;
pub use piece::{Piece, PieceBounds, Pieces};
pub use planning::plan;
pub use positions::check_positions;
pub use shape::Shape;
