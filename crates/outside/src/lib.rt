//! What reaches the outside world: a shelf of named inputs, a source of bytes and a sink for bytes,
//! each with a count of its faults.
//!
//! The traits [`Shelf`], [`Source`] and [`Sink`] promise of every device, whether it tells its bytes
//! or not: a call answers `Failed` only where the count of faults rose, a read takes a front of what
//! is left, a write appends a front of its slice, and a call that was refused leaves both as they
//! were. [`MemShelf`] and [`MemSink`] keep their bytes in memory, tell them, and fail at the calls
//! that were asked for; [`FileShelf`] and [`StdSink`] stand over std's files and writers and tell
//! nothing; [`FromShelf`] reads one begun input of a shelf as a source.
#![tactic(auto)]

mod fault;
mod fault_plan;
mod file_shelf;
mod from_shelf;
mod held;
mod mem_shelf;
mod mem_sink;
mod opened;
mod shelf;
mod sink;
mod source;
mod std_sink;

pub use fault::DeviceFault;
pub use file_shelf::FileShelf;
pub use from_shelf::FromShelf;
pub use mem_shelf::MemShelf;
pub use mem_sink::MemSink;
pub use shelf::Shelf;
pub use sink::Sink;
pub use source::Source;
pub use std_sink::StdSink;

#[cfg(test)]
mod tests;
