// The command `strip` on a stream.
ghost use Rattle.std.specs.Prelude.{◌≡◌};
ghost use Rattle.latm.specs.Stream.{IsWellFormed};
ghost use Rattle.ipf_strip.specs.Steps.{Judges};
ghost use Rattle.editing.specs.Stripping.{targets_to_strip, list_fault};

use crate::elements::give_elements;
use crate::refusals::strip_end;
use bit_core::Items;
use commands::{FrameEnd, Whole};
use ipf_strip::{StripFault, Tail, immediate_frames, stripper};
use latm::Stream;
use outside::Sink;
use std::alloc::Global;

/// Which immediate play-out frames of a stream lose their preroll.
#[derive(Debug, Drop)]
pub enum StripTargets {
    /// The frames with these numbers, counted from 0.
    Each(Items<u64>),
    /// All of them.
    All,
}

/// Takes prerolls (ISO/IEC 23003-3, AudioPreRoll) out of a stream again, so that their frames are as they were before an insertion.
#[derive(Drop)]
pub struct Strip {
    /// What becomes of the bits that no longer fill a byte.
    pub tail: Tail,
    /// The frames.
    pub targets: StripTargets,
}

impl StripTargets {
    /// Lists them for a stream.
    ///
    /// Errors: where all are asked for, that of `immediate_frames`; else out of memory.
    fn list(&self, alloc: Global, stream: &Stream) -> Result<Vec<u64>, StripFault>
        requires { IsWellFormed stream.now }
        ensures { Judges result (list_fault self.now stream.now) (λ list. list.items ≡ targets_to_strip self.now stream.now) }
    {
        match self {
            StripTargets::Each(numbers) => {
                let list = Vec::from_slice(alloc, numbers.as_slice())?;
                Ok(list)
            }
            StripTargets::All => immediate_frames(alloc, stream),
        }
    }
}

impl Whole for Strip {
    ghost use Rattle.editing.specs.Stripping.{stripping};

    ghost command = { λ strip. stripping strip.tail strip.targets };

    /// Tries all rules, and then writes element after element.
    fn give<K: Sink>(&self, alloc: Global, stream: &Stream, out: &mut K) -> Result<(), FrameEnd> {
        let targets = match self.targets.list(alloc, stream) {
            Ok(targets) => targets,
            Err(fault) => return Err(strip_end(&fault)),
        };
        let stripper = match stripper(alloc, stream, self.tail, &targets) {
            Ok(stripper) => stripper,
            Err(fault) => return Err(strip_end(&fault)),
        };
        give_elements(alloc, stripper, out)
    }
}
