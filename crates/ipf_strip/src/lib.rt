//! Takes prerolls out of a stream again (ISO/IEC 23003-3, AudioPreRoll): its immediate play-out frames become frames that a decoder
//! does not start at.
//!
//! `strip` answers the first rule that applies, or the stream without these prerolls. `stripper` gives the elements of that stream
//! one by one, so that a caller holds its stream once. `immediate_frames` lists the frames that have a preroll to take out.
#![tactic(auto)]

mod fault;
mod immediate;
pub mod laws;
mod rules;
mod streams;
mod stripping;
#[cfg(test)]
mod tests;

pub use fault::StripFault;
pub use immediate::immediate_frames;
pub use ipf_frame::Tail;
pub use streams::{Stripper, strip, stripper};
pub use stripping::Stripping;
