//! The leading part of UsacFrame (ISO/IEC 23003-3), and the unit of it that a decoder sees.
//!
//! A frame is the flag usacIndependencyFlag, a part for each extension element that leads its configuration, and all bits
//! behind these, which are not looked at. Reading takes all bits of an access unit, and what is read is spelled by exactly
//! them; an access unit that is no frame is short at the first bit of its leftmost field that lacks bits. A write puts the
//! spelling, and the fewest zero bits behind it that fill the last byte. What a decoder sees of a frame is its unit: the
//! flag, and the bits behind the preroll element, without the zeros at their end.
#![tactic(auto)]

mod fault;
mod frame;
mod head;
mod immediate;
pub mod laws;
mod part;
mod reading;
#[cfg(test)]
mod tests;
mod unit;
mod unit_bits;
mod writing;

pub use fault::FrameFault;
pub use frame::{Frame, read_frame, write_frame};
pub use head::{FrameHead, read_head, read_head_at};
pub use immediate::{first_payload, is_immediate, is_whole};
pub use part::{ExtPart, LengthForm, Parts};
pub use unit::{Unit, payload_length, unit_of};
