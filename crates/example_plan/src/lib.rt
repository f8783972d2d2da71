//! A sound plan, written out: two streams and a fading join.
//!
//! The definitions are in `specs/`: the two streams, frame by frame, the plan, and the bytes of a file that carries its splice. The
//! functions run no code: the contract of each is a theorem.
#![tactic(auto)]

mod laws;

pub use laws::{example_is_cut_into_ramps, example_is_played, example_is_sound};
