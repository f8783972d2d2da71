//! What an insertion of immediate play-out frames keeps for whoever cuts and joins the stream, and for `play`.
//!
//! The definitions are in `specs/`: an insertion, the frames of its stream before and behind it, and plans of which the streams of some
//! parts are replaced by what an insertion made of them. The functions run no code: the contract of each is a theorem.
#![tactic(auto)]

pub mod laws;
