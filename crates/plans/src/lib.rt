//! Plans: pieces of streams, put one behind another.
//!
//! A stream is a list of frames as they show themselves (`Shown`, of the crate `preroll`). The definitions are in `specs/`: a
//! piece of a stream, what pieces splice to, the segments of frames, and the plan of frames that is each segment as a stream of
//! its own. The same is defined of streams of access units, with more: what a whole stream is, and when a plan of parts of whole
//! streams is sound. They name no core and no player; of a core they take the warm-up, as a number for each configuration. The functions here run no code: the contract of each is a theorem.
#![tactic(auto)]

mod laws;

pub use laws::frames_are_their_segments;
