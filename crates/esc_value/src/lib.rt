//! Numbers of which large values take more bits: numbers that escape to a longer field, numbers that tell how many bytes
//! they have, and the length of a slot.
//!
//! A read takes exactly the spelling of what it answers, and is short exactly where what is left is a proper prefix of
//! spellings; then the reader stays where it was, and the place is the first bit of the whole number. A write puts
//! exactly the spelling, or nothing.
#![tactic(auto)]

mod escaped;
mod fault;
mod format;
mod latm_value;
pub mod laws;
mod slot_length;
#[cfg(test)]
mod tests;

pub use escaped::Escaped;
pub use fault::EscFault;
pub use latm_value::LatmValue;
pub use slot_length::SlotLength;
