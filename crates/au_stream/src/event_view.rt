ghost use Rattle.std.specs.Prelude.{◌≡◌, ◌≤◌, ◌*◌, length, IfOk};
ghost use Rattle.layout.specs.Text.{bits_of};
ghost use Rattle.layout.specs.Reader.{left};
ghost use Rattle.latm.specs.Places.{IsWithin, slot_at};
ghost use Rattle.au_stream.specs.Views.{event_with};

use crate::event::EventHead;
use bit_core::{BitReader, Octets};
use latm::SlotPlace;
use std::alloc::{AllocError, Global};
use std::marker::Model;

/// A frame of a source as an [`crate::Event`] has it, but that its access unit stays where it stands in the bytes that the
/// reader holds. Contracts see the event.
#[derive(Drop)]
pub struct EventView<'a> {
    head: EventHead,
    // the bytes of its element, and where among their bits the access unit stands
    element: &'a [u8],
    place: SlotPlace,
}

impl<'a> Model for EventView<'a> {
    ghost use Rattle.std.specs.Prelude.{◌≤◌, ◌*◌, length};
    ghost use Rattle.layout.specs.Text.{bits_of};
    ghost use Rattle.latm.specs.Places.{IsWithin, slot_at};
    ghost use Rattle.au_stream.specs.declared.event.Event.{Event};
    ghost use Rattle.au_stream.specs.Views.{event_with};

    ghost Value = { Event };

    ghost view = { λ v. event_with v.head (slot_at (bits_of v.element.now) v.place) };

    ghost invariant = { λ v. IsWithin (8 * length v.element.now) v.place × (length v.element.now ≤ 16777216) };
}

impl<'a> EventView<'a> {
    /// The frame whose access unit stands at that place of an element's bytes.
    pub(crate) fn new(head: EventHead, element: &'a [u8], place: SlotPlace) -> EventView<'a>
        requires within { IsWithin (8 * length element.now) place }
        requires size { length element.now ≤ 16777216 }
        ensures { result ≡ event_with head (slot_at (bits_of element.now) place) }
    {
        EventView {
            head,
            element,
            place,
        }
    }

    /// Its number, counted from 0 over the source.
    pub fn frame(&self) -> u64
        ensures { result ≡ self.now.frame }
    {
        self.head.frame
    }

    /// Whether its UsacConfig is not that of the frame before, or it is the first frame.
    pub fn changed(&self) -> bool
        ensures { result ≡ self.now.changed }
    {
        self.head.changed
    }

    /// Whether it is the first of an element that has a StreamMuxConfig.
    pub fn opens(&self) -> bool
        ensures { result ≡ self.now.opens }
    {
        self.head.opens
    }

    /// How many bytes the access unit has.
    pub fn len(&self) -> u64
        ensures { result ≡ length self.now.au }
    {
        u64::from(self.place.length)
    }

    /// A reader of the bits of the access unit, which counts places from the first bit of its element.
    pub fn reader(&self) -> BitReader<'a>
        ensures { left result ≡ bits_of self.now.au }
    {
        let from = self.place.from;
        BitReader::within(self.element, from, from + 8 * u64::from(self.place.length))
    }

    /// A copy of the access unit. The one error is out of memory.
    pub fn au(&self, alloc: Global) -> Result<Octets, AllocError>
        ensures { IfOk result (λ au. au ≡ self.now.au) }
    {
        self.place.slot(alloc, self.element)
    }
}
