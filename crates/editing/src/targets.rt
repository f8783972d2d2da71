// The frames that a command is asked to change.
ghost use Rattle.std.specs.Prelude.{◌≡◌, ◌-◌, ◌/◌, IfOk};
ghost use Rattle.editing.specs.TargetLists.{multiples_below, targets_in};

use bit_core::Items;
use std::alloc::{AllocError, Global};

/// Which frames of a stream are asked for.
#[derive(Debug, Drop)]
pub enum Targets {
    /// The frames with these numbers, counted from 0.
    Each(Items<u64>),
    /// The frames whose numbers are this one, twice this one, three times this one, and so on. At 0 there are none.
    Every(u64),
}

/// How many multiples of a step, from the step on, are below a number.
fn count_below(step: u64, frames: u64) -> u64
    ensures { result ≡ (frames - 1) / step }
{
    if step == 0 || frames == 0 {
        return 0;
    }
    (frames - 1) / step
}

fn multiples(alloc: Global, step: u64, frames: u64) -> Result<Vec<u64>, AllocError>
    ensures { IfOk result (λ list. list.items ≡ multiples_below step frames) }
{
    let mut list = Vec::new(alloc);
    for count in 0..count_below(step, frames) {
        list.push((count + 1) * step)?;
    }
    Ok(list)
}

impl Targets {
    /// Lists them for a stream with so many frames.
    ///
    /// Errors: out of memory.
    pub fn list(&self, alloc: Global, frames: u64) -> Result<Vec<u64>, AllocError>
        ensures { IfOk result (λ list. list.items ≡ targets_in self.now frames) }
    {
        match self {
            Targets::Each(numbers) => Vec::from_slice(alloc, numbers.as_slice()),
            Targets::Every(step) => multiples(alloc, *step, frames),
        }
    }
}
