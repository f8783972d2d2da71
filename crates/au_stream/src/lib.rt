//! The access units of a source of LOAS frames (ISO/IEC 14496-3, AudioSyncStream and AudioMuxElement).
//!
//! An [`AuReader`] reads a source in pieces and gives its frames, each once, in order, with the configuration in force;
//! [`read_stream`] reads all elements to the end. What they answer is the script of the source's bytes, whatever the sizes of
//! its reads: the frames of the most elements that the first 268,435,456 bytes begin with, and why no more follow.
#![tactic(auto)]

mod event;
mod event_view;
mod fault;
mod frame_reader;
mod gathered;
pub mod laws;
mod reader;
#[cfg(test)]
mod tests;
mod whole;

pub use event::{Event, EventHead};
pub use event_view::EventView;
pub use fault::StreamFault;
pub use reader::AuReader;
pub use whole::read_stream;
