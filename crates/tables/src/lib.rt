//! The tables of ISO/IEC 23003-3 that a UsacConfig points into: what an index stands for, and `None` exactly where it is reserved
//! or stands for something else.
#![tactic(auto)]

mod channels;
mod frame;
mod rates;

pub use channels::channels_of;
pub use frame::{FrameShape, frame_of};
pub use rates::rate_of;

#[cfg(test)]
mod tests;
