// The command `insert` on a stream.
use crate::elements::give_elements;
use crate::refusals::insert_end;
use crate::targets::Targets;
use commands::{FrameEnd, Whole};
use ipf_insert::inserter;
use latm::Stream;
use outside::Sink;
use std::alloc::Global;

/// Makes immediate play-out frames of frames of a stream: each gets a preroll (ISO/IEC 23003-3, AudioPreRoll) with the access units
/// before it, so that a decoder can begin there.
#[derive(Drop)]
pub struct Insert {
    /// How many access units a preroll carries.
    pub count: u32,
    /// applyCrossfade.
    pub fade: bool,
    /// The frames.
    pub targets: Targets,
}

impl Whole for Insert {
    ghost use Rattle.editing.specs.Inserting.{inserting};

    ghost command = { λ insert. inserting insert.count insert.fade insert.targets };

    /// Tries all rules, and then writes element after element.
    fn give<K: Sink>(&self, alloc: Global, stream: &Stream, out: &mut K) -> Result<(), FrameEnd> {
        let targets = self.targets.list(alloc, stream.frames())?;
        let inserter = match inserter(alloc, stream, self.count, self.fade, &targets) {
            Ok(inserter) => inserter,
            Err(fault) => return Err(insert_end(&fault)),
        };
        give_elements(alloc, inserter, out)
    }
}
