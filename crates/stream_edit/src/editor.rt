ghost use Rattle.std.specs.Prelude.{◌≡◌, Some, length, IfOk};
ghost use Rattle.std.specs.Option.{option_copied};
ghost use Rattle.std.specs.List.{AllByRecursion};
ghost use Rattle.latm.specs.declared.mux_config.MuxConfig.{MuxConfig};
ghost use Rattle.latm.specs.MuxElement.{then_in_force};
ghost use Rattle.latm.specs.Stream.{IsWellFormed, frames_of};
ghost use Rattle.stream_edit.specs.Edited.{elements_in, edited};
ghost use Rattle.stream_edit.specs.Giving.{given, GivesNext, IsWritable};
ghost use Rattle.stream_edit.specs.Steps.{IsRising, TargetsMay};

use crate::change::{Change, changed};
use crate::targets::has_target;
use bit_core::Octets;
use latm::{MuxConfig, MuxElement, MuxElements, Slots, Stream};
use std::alloc::{AllocError, Global};
use std::marker::Model;

/// An element of a changed stream.
#[derive(Debug, Drop)]
pub enum Given<'a> {
    /// No slot of it is a target: it is as it was.
    Kept(&'a MuxElement),
    /// At least one slot is a target.
    Changed(MuxElement),
}

/// The elements of a changed stream, one after another. Contracts see those that are still to be given.
#[derive(Drop)]
pub struct Editor<'a, C: Change> {
    change: C,
    targets: &'a [u64],
    // the configuration in force before the elements that were not given yet, and the number of their first frame
    in_force: Option<&'a MuxConfig>,
    elements: &'a [MuxElement],
    first: u64,
}

impl<'a, C: Change> Model for Editor<'a, C> {
    ghost use Rattle.std.specs.Prelude.{List};
    ghost use Rattle.std.specs.Option.{option_copied};
    ghost use Rattle.latm.specs.declared.mux_element.MuxElement.{MuxElement};
    ghost use Rattle.stream_edit.specs.Edited.{elements_in};
    ghost use Rattle.stream_edit.specs.Steps.{Stands};

    ghost Value = { List MuxElement };

    ghost view = { λ r. elements_in (C.new r.change) r.targets.now r.first r.elements.now };

    ghost invariant = { λ r. Stands (C.new r.change) (C.May r.change) r.targets.now r.first (option_copied r.in_force) r.elements.now };
}

/// The configuration in force in an element.
fn in_force_of<'a>(before: Option<&'a MuxConfig>, element: &'a MuxElement) -> &'a MuxConfig
    requires { (m : MuxConfig) × (then_in_force (option_copied before) element.now.config ≡ Some m) }
    ensures { Some result.now ≡ then_in_force (option_copied before.entry) element.now.config }
{
    match (&element.config, before) {
        (Some(config), _) => config,
        (None, Some(config)) => config,
        (None, None) => unreachable!(),
    }
}

impl<'a, C: Change + Drop> Editor<'a, C> {
    /// All elements of a stream are to be given.
    pub fn new(change: C, stream: &'a Stream, targets: &'a [u64]) -> Editor<'a, C>
        requires stream { IsWellFormed stream.now }
        requires rising { IsRising targets.now }
        requires may { TargetsMay (C.May change) targets.now (frames_of stream.now) }
        requires writable { AllByRecursion IsWritable (elements_in (C.new change) targets.now 0 stream.now.elements) }
        ensures { result ≡ (edited (C.new change) targets.now stream.now).elements }
    {
        Editor {
            change,
            targets,
            in_force: None,
            elements: stream.elements.as_slice(),
            first: 0,
        }
    }

    /// Gives the next element; `None` exactly where all were given. It can be written as a LOAS frame.
    ///
    /// Errors: out of memory; it is still to be given.
    pub fn next(&mut self, alloc: Global) -> Result<Option<Given<'a>>, AllocError>
        ensures { GivesNext self.old self.new result }
    {
        let [element, behind @ ..] = self.elements else {
            return Ok(None);
        };
        let in_force = in_force_of(self.in_force, element);
        let count = element.slots.len();
        let given = if has_target(self.targets, self.first, count) {
            let config = &in_force.asc.usac;
            let new = changed(
                alloc,
                &self.change,
                self.targets,
                self.first,
                config,
                element,
            )?;
            Given::Changed(new)
        } else {
            Given::Kept(element)
        };
        self.elements = behind;
        self.in_force = Some(in_force);
        self.first += count;
        Ok(Some(given))
    }

    /// The changed stream.
    ///
    /// Errors: out of memory.
    pub fn into_stream(self, alloc: Global) -> Result<Stream, AllocError>
        ensures { IfOk result (λ stream. stream.elements ≡ self.entry) }
    {
        let mut editor = self;
        let mut elements = MuxElements::new(alloc);
        while let Some(given) = editor.next(alloc)? {
            elements.push(given.into_element(alloc)?)?;
        }
        Ok(Stream { elements })
    }
}

impl<'a> Given<'a> {
    /// The element itself, copied where it is as it was. The one error is out of memory.
    fn into_element(self, alloc: Global) -> Result<MuxElement, AllocError>
        ensures { IfOk result (λ element. element ≡ given self.entry) }
    {
        match self {
            Given::Kept(element) => copied(alloc, element),
            Given::Changed(element) => Ok(element),
        }
    }
}

fn copied_slots(alloc: Global, slots: &[Octets]) -> Result<Slots, AllocError>
    ensures { IfOk result (λ copied. copied ≡ slots.now) }
{
    let mut copied = Slots::new(alloc);
    for slot in slots {
        copied.push(slot.copy(alloc)?)?;
    }
    Ok(copied)
}

fn copied(alloc: Global, element: &MuxElement) -> Result<MuxElement, AllocError>
    ensures { IfOk result (λ copied. copied ≡ element.now) }
{
    let slots = copied_slots(alloc, element.slots.as_slice())?;
    element.with_slots(alloc, slots)
}
