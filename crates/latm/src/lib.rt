//! The mux of LATM: AudioMuxElement and StreamMuxConfig (ISO/IEC 14496-3), read and written.
//!
//! One program of one layer is taken, as each kind of the configuration spells it. What is read is well formed and takes
//! exactly its spelling; a text that begins with no spelling is refused at the first bit of its leftmost field at fault,
//! and the reader stays where it was. A write puts exactly the spelling, or nothing.
#![tactic(auto)]

mod element_bytes;
mod element_reading;
mod element_writing;
mod fault;
mod format;
pub mod laws;
mod mux_config;
mod mux_element;
mod other_length;
mod pairs;
mod places;
mod reading;
mod slot_place;
mod stream;
#[cfg(test)]
mod tests;
mod writing;

pub use element_bytes::{canonical, framed, write_element};
pub use fault::{MuxFault, MuxField, WriteFault};
pub use mux_config::MuxConfig;
pub use mux_element::{MuxElement, Slots, read_element};
pub use other_length::OtherLength;
pub use places::{Places, read_places};
pub use slot_place::{SlotPlace, SlotPlaces};
pub use stream::{MuxElements, Stream};
