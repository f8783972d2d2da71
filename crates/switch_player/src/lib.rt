//! A player of frames, on any core. A `Player` is fed the frames of a stream one by one, each with its configuration, and appends
//! the samples of each.
//!
//! Where the configuration goes on, a frame is decoded, and no more. The first frame, and one with another configuration, begin
//! decoding anew: the core is reset, the units that the frame's preroll (ISO/IEC 23003-3, AudioPreRoll) carries are stepped and
//! their blocks dropped, and then the frame's block is appended. Where the preroll asks for a fade (applyCrossfade), what the core
//! would have given next of the old stream is flushed before the reset, and `blend` fades it into the first 128 samples of the
//! block. What cannot be played is refused by name, and nothing has changed.
#![tactic(auto)]

mod blending;
mod fault;
mod judging;
pub mod laws;
mod player;
#[cfg(test)]
mod tests;
mod turn;
mod turning;

pub use blending::blend;
pub use fault::PlayFault;
pub use player::Player;
