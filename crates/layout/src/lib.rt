//! Layouts of bits: texts, spellings, first faults, and what holds of all of them.
//!
//! A layout says which values can be had, how each is spelled as a text of bits, and which fault a text has first. The
//! definitions are in `specs/`; every reader and writer of this repository is stated by them. The functions here run no
//! code: the contract of each is a theorem about every layout that is read exactly.
#![tactic(auto)]

mod laws;

pub use laws::{
    Following, Format, both_is_exact, is_decided, is_read, is_read_unless, one_fault, one_spelling,
};
