//! LOAS, the frames of a stream of audio (ISO/IEC 14496-3, AudioSyncStream), in whatever pieces its bytes come.
//!
//! A [`Loas`] is pushed bytes, and gives the frames that they begin with, each once, in order, with its offset. It never
//! skips a byte: where what remains begins with no frame and cannot become one, it has lost the stream, and says so from
//! then on. [`frames_of`] takes a whole stream in pieces. That the pieces make no difference is proved: its answer is told
//! by the joined bytes alone. Nothing is said of what an element holds.
#![tactic(auto)]

mod fault;
mod framed;
mod framer;
mod framing;
pub mod laws;
mod pieces;
#[cfg(test)]
mod tests;

pub use fault::LoasFault;
pub use framed::Framed;
pub use framer::Loas;
pub use framing::{Front, with_header};
pub use pieces::{StreamFrames, frames_of};
