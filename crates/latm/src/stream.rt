ghost use Rattle.std.specs.Prelude.{◌≡◌, length, slice_get};
ghost use Rattle.std.specs.Option.{option_copied, option_map};
ghost use Rattle.latm.specs.Stream.{IsWellFormed, slots_under, frames_of, config_in, au_in};

use crate::mux_config::MuxConfig;
use crate::mux_element::{MuxElement, Slots};
use bit_core::Items;
use usac_cfg::UsacConfig;

/// The elements of a stream, in their order.
pub type MuxElements = Items<MuxElement>;

/// A stream: elements, each under the configuration that the elements before it leave in force.
///
/// Its frames are the slots of the elements, in their order, each with the UsacConfig in force (ISO/IEC 23003-3). Well formed
/// where each element is one under that configuration and makes whole bytes, at most 8191, and there are at most 2^32 - 1
/// frames.
#[derive(Debug, Drop)]
pub struct Stream {
    pub elements: MuxElements,
}

/// A frame: its configuration, and its access unit.
type FrameRef<'a> = (&'a UsacConfig, &'a [u8]);

/// How many frames an element has.
fn count_in(in_force: Option<&MuxConfig>, slots: &Slots) -> u64
    ensures { result ≡ length (slots_under (option_copied in_force.entry) slots.now) }
{
    match in_force {
        None => 0,
        Some(_) => slots.len(),
    }
}

/// The frame of an element with that number, counted from 0.
fn frame_in<'a>(
    in_force: Option<&'a MuxConfig>,
    slots: &'a Slots,
    frame: u64,
) -> Option<FrameRef<'a>>
    ensures { option_map (λ found. (found.0.now, found.1.now)) result ≡ slice_get (slots_under (option_copied in_force.entry) slots.now) frame }
{
    let config = match in_force {
        None => return None,
        Some(config) => config,
    };
    match slots.get(frame) {
        None => None,
        Some(slot) => Some((&config.asc.usac, slot.as_slice())),
    }
}

impl Stream {
    /// How many frames it has.
    pub fn frames(&self) -> u64
        requires { IsWellFormed self.now }
        ensures { result ≡ length (frames_of self.now) }
    {
        let mut in_force: Option<&MuxConfig> = None;
        let mut frames = 0;
        for element in self.elements.as_slice() {
            if let Some(config) = &element.config {
                in_force = Some(config);
            }
            frames += count_in(in_force, &element.slots);
        }
        frames
    }

    fn find(&self, frame: u64) -> Option<FrameRef<'_>>
        ensures { option_map (λ found. (found.0.now, found.1.now)) result ≡ slice_get (frames_of self.now) frame }
    {
        let mut in_force: Option<&MuxConfig> = None;
        let mut rest = frame;
        for element in self.elements.as_slice() {
            if let Some(config) = &element.config {
                in_force = Some(config);
            }
            let count = count_in(in_force, &element.slots);
            if rest < count {
                return frame_in(in_force, &element.slots, rest);
            }
            rest -= count;
        }
        None
    }

    /// The access unit of a frame, counted from 0; `None` exactly where there is no such frame.
    pub fn au(&self, frame: u64) -> Option<&[u8]>
        ensures { option_copied result ≡ option_map au_in (slice_get (frames_of self.now) frame) }
    {
        match self.find(frame) {
            None => None,
            Some((_, au)) => Some(au),
        }
    }

    /// The configuration of a frame, counted from 0; `None` exactly where there is no such frame.
    pub fn config(&self, frame: u64) -> Option<&UsacConfig>
        ensures { option_copied result ≡ option_map config_in (slice_get (frames_of self.now) frame) }
    {
        match self.find(frame) {
            None => None,
            Some((config, _)) => Some(config),
        }
    }
}
