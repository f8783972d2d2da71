//! Gives a stream immediate play-out frames (ISO/IEC 23003-3, AudioPreRoll): each target gets a preroll that carries the access
//! units before it, so that a decoder can start there.
//!
//! `insert` answers the first rule that applies, or the stream with these frames inserted. `inserter` gives the elements of that
//! stream one by one, so that a caller holds its stream once.
#![tactic(auto)]

mod changing;
mod fault;
mod gathering;
pub mod laws;
mod rules;
mod sources;
mod streams;
mod target_rules;
#[cfg(test)]
mod tests;

pub use fault::InsertFault;
pub use sources::Sources;
pub use streams::{Inserter, insert, inserter};
