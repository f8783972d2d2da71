//! AudioSpecificConfig of object type 42, USAC (ISO/IEC 14496-3).
//!
//! What is read is well formed and takes exactly its spelling; a text that begins with no spelling is refused at the first
//! bit of its leftmost field at fault, and the reader stays where it was. A configuration in a counted text may have up to
//! 7 further bits, its tail, which are kept. A write puts exactly the spelling, or nothing.
#![tactic(auto)]

mod asc_config;
mod fault;
mod format;
pub mod laws;
mod reading;
#[cfg(test)]
mod tests;
mod writing;

pub use asc_config::Asc;
pub use fault::AscFault;
