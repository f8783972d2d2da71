//! What a decoder of units is, and an example of one. A `Core` turns units into blocks of samples,
//! one block a unit: `reset` starts it on a configuration, `step` appends a block, `flush` appends what
//! is still to come behind the last one. What every core of a type does is written in its `does`: the
//! state at the start, the state behind a unit, the block that it emits, the drain, the warm-up. Each
//! call says which state and which samples it leaves, and that a refusal leaves the samples as they
//! were and the core to be reset. Three laws hold of what a core does: states stay sound, blocks have
//! the samples of a frame, and behind the warm-up nothing depends on what was before. `FoldCore` is a
//! core that decodes no audio: its samples are sums over the bits of its units. `FaultyCore` is a core
//! over another one, of which listed calls fail. `decode_alone` decodes units from the start of a
//! stream. `push_sample_bytes` and `set_sample_bytes` write samples as bytes.
#![tactic(auto)]

mod alone;
mod cores;
mod fault;
mod faulty;
mod fold;
mod samples;

pub use alone::decode_alone;
pub use cores::Core;
pub use fault::CoreFault;
pub use faulty::FaultyCore;
pub use fold::FoldCore;
pub use samples::{push_sample_bytes, set_sample_bytes};
pub use usac_frame::Unit;

#[cfg(test)]
mod streams;
#[cfg(test)]
mod tests;
