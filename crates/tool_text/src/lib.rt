//! The texts that tell a stream to a reader, each line with its line feed: StreamMuxConfig and AudioSpecificConfig (ISO/IEC
//! 14496-3), the UsacConfig in it (ISO/IEC 23003-3) with its elements and extensions, UsacFrame with its leading parts,
//! AudioPreRoll with its access units, what was counted of a stream, the pieces of a plan, and refusals.
//!
//! In the lines of a configuration and of a frame numbers are decimal, truth values are 0 or 1, bytes are lower-case hex, and a
//! dash stands for what is absent or empty. A refusal is a place and a reason, behind the piece or the file where there are several; each fault of the crates below but out of memory
//! is one.
#![tactic(auto)]

mod check_text;
mod configuration_text;
mod element_text;
mod faults;
mod frame_text;
mod mux_text;
mod parts;
mod piece_text;
mod preroll_text;
mod refusal;
#[cfg(test)]
mod refusal_tests;
mod refusal_text;
mod setting_text;
#[cfg(test)]
mod tests;

pub use check_text::check_line;
pub use configuration_text::configuration_lines;
pub use faults::{at_frame, carry_refusal, loas_refusal, mux_refusal};
pub use frame_text::frame_line;
pub use mux_text::mux_lines;
pub use piece_text::piece_line;
pub use preroll_text::{bad_preroll_line, preroll_lines};
pub use refusal::{Place, Reason, Refusal, Within};
pub use refusal_text::refusal_line;
