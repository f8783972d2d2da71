//! The payload of an immediate play-out frame (ISO/IEC 23003-3, AudioPreRoll): a configuration, a crossfade flag, and the
//! access units that a decoder steps before the frame, so that it can start there.
//!
//! `read_preroll` and `write_preroll` go by the spelling. `carried` judges the preroll of a frame by eight rules, each over
//! all its access units before the next, and gives the units that it carries.
#![tactic(auto)]

mod carried_units;
mod carrying;
mod fault;
pub mod laws;
mod preroll;
mod reading;
#[cfg(test)]
mod tests;
mod units;
mod writing;

pub use carried_units::{CarriedUnits, Units};
pub use carrying::carried;
pub use fault::{CarryFault, PreFault};
pub use preroll::{PreRoll, UnitBytes, read_preroll, write_preroll};
