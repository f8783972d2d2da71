ghost use Rattle.std.specs.Prelude.{◌≡◌, IfOk};

use bit_core::Octets;
use ipf_frame::{Tail, without_preroll};
use std::alloc::{AllocError, Global};
use stream_edit::{Change, FrameRef};
use usac_cfg::UsacConfig;

/// The change of a target that loses its preroll, in a stream that is held elsewhere.
#[derive(Drop)]
pub struct Stripping<'a> {
    pub(crate) tail: Tail,
    // the frames of the stream
    pub(crate) frames: Vec<FrameRef<'a>>,
}

impl<'a> Change for Stripping<'a> {
    ghost use Rattle.stream_edit.specs.Frames.{pairs_of};
    ghost use Rattle.ipf_strip.specs.Steps.{MayLose};
    ghost use Rattle.ipf_strip.specs.Stripping.{slot_without};

    ghost new = { λ stripping t au. slot_without stripping.tail (pairs_of stripping.frames.items) t au };

    ghost May = { λ stripping t c au. MayLose stripping.tail (pairs_of stripping.frames.items) t c au };

    fn change(
        &self,
        alloc: Global,
        frame: u64,
        config: &UsacConfig,
        au: &[u8],
    ) -> Result<Octets, AllocError> {
        let _ = frame;
        match without_preroll(alloc, self.tail, config, au)? {
            Some(bytes) => Ok(bytes),
            None => unreachable!(),
        }
    }
}
