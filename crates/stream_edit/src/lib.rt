//! A stream of which the access units of some frames are changed, and nothing else (ISO/IEC 14496-3, AudioMuxElement).
//!
//! The frames to change are targets: their numbers, counted from 0, in rising order. What becomes of a target is a [`Change`]. An
//! [`Editor`] gives the elements of the changed stream one by one, so that a caller holds its stream once.
#![tactic(auto)]

mod change;
mod editor;
mod frames;
pub mod laws;
mod targets;
#[cfg(test)]
mod tests;

pub use change::{Change, changed};
pub use editor::{Editor, Given};
pub use frames::{FrameRef, frames_of};
pub use targets::first_misplaced;
