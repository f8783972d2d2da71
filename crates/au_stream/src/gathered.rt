// The elements of a source that were read so far.
ghost use Rattle.std.specs.Prelude.{◌≡◌, [], ◌∷◌, ◌++◌, ◌≤◌, None, length};
ghost use Rattle.std.specs.Option.{option_copied};
ghost use Rattle.latm.specs.MuxElement.{then_in_force};
ghost use Rattle.loas.specs.Framing.{IsFrameBody};
ghost use Rattle.au_stream.specs.Elements.{in_force_behind};
ghost use Rattle.au_stream.specs.Frames.{frames_from};
ghost use Rattle.au_stream.specs.Gathering.{Adds, config_at};
ghost use Rattle.au_stream.specs.Script.{most_bytes};

use crate::fault::{StreamFault, refused};
use latm::{MuxConfig, MuxElement, MuxElements, read_element};
use std::alloc::Global;
use std::marker::Model;

/// Elements, each read under the configuration that those before it leave in force (ISO/IEC 14496-3, AudioMuxElement).
#[derive(Drop)]
pub struct Gathered {
    elements: MuxElements,
    // the place of the last element that has a configuration
    latest: Option<u64>,
    // how many frames they have
    frames: u64,
}

impl Model for Gathered {
    ghost use Rattle.std.specs.Prelude.{◌≡◌, List, None, length};
    ghost use Rattle.latm.specs.declared.mux_element.MuxElement.{MuxElement};
    ghost use Rattle.au_stream.specs.Elements.{in_force_behind};
    ghost use Rattle.au_stream.specs.Frames.{frames_from};
    ghost use Rattle.au_stream.specs.Gathering.{config_at};

    ghost Value = { List MuxElement };

    ghost view = { λ r. r.elements };

    ghost invariant = { λ r. (config_at r.elements r.latest ≡ in_force_behind None r.elements) × (r.frames ≡ length (frames_from None r.elements)) };
}

impl Gathered {
    /// No elements.
    pub fn new(alloc: Global) -> Gathered
        ensures { result ≡ [] }
    {
        Gathered {
            elements: MuxElements::new(alloc),
            latest: None,
            frames: 0,
        }
    }

    /// Reads the bytes of the next element behind the others.
    pub fn read(&mut self, alloc: Global, body: &[u8]) -> Result<(), StreamFault>
        requires fits { IsFrameBody body.now }
        requires room { length (frames_from None self.old) ≤ most_bytes }
        ensures { Adds body.now self.old self.new result }
    {
        let element = match read_element(alloc, self.in_force(), body) {
            Ok(element) => element,
            Err(fault) => return Err(refused(self.frames, fault)),
        };
        let latest = self.latest_with(&element);
        let slots = element.slots.len();
        self.elements.push(element)?;
        self.latest = latest;
        self.frames += slots;
        Ok(())
    }

    /// The elements.
    pub fn into_elements(self) -> MuxElements
        ensures { result ≡ self }
    {
        self.elements
    }

    // The configuration that the elements leave in force.
    fn in_force(&self) -> Option<&MuxConfig>
        ensures { option_copied result ≡ in_force_behind None self.now }
    {
        match self.elements.get(self.latest?) {
            None => None,
            Some(element) => element.config.as_ref(),
        }
    }

    // The place of the last configuration, with that element behind the others.
    fn latest_with(&self, element: &MuxElement) -> Option<u64>
        ensures { config_at (self.now ++ element.now ∷ []) result ≡ then_in_force (in_force_behind None self.now) element.now.config }
    {
        match element.config {
            None => self.latest,
            Some(_) => Some(self.elements.len()),
        }
    }
}
