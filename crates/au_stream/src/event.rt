ghost use Rattle.std.specs.Prelude.{◌≡◌};
ghost use Rattle.au_stream.specs.Views.{event_with};

use bit_core::Octets;

/// A frame of a source: one access unit (ISO/IEC 14496-3, the payload of one slot of an AudioMuxElement).
#[derive(Debug, Drop)]
pub struct Event {
    /// Its number, counted from 0 over the source.
    pub frame: u64,
    /// Its UsacConfig is not that of the frame before, or it is the first frame.
    pub changed: bool,
    /// It is the first of an element that has a StreamMuxConfig.
    pub opens: bool,
    /// The access unit.
    pub au: Octets,
}

/// What is known of a frame beside its access unit; the fields are those of [`Event`].
#[derive(Clone, Copy, Debug, Drop, PartialEq, Eq)]
pub struct EventHead {
    pub frame: u64,
    pub changed: bool,
    pub opens: bool,
}

/// A frame that a reader has found, and its access unit where a copy was asked for.
#[derive(Drop)]
pub(crate) struct Found {
    pub(crate) head: EventHead,
    pub(crate) au: Octets,
}

impl Found {
    /// The event, with that copy.
    pub(crate) fn into_event(self) -> Event
        ensures { result ≡ event_with self.head self.au }
    {
        Event {
            frame: self.head.frame,
            changed: self.head.changed,
            opens: self.head.opens,
            au: self.au,
        }
    }
}
