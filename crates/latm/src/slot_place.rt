ghost use Rattle.std.specs.Prelude.{◌≡◌, ◌≤◌, ◌*◌, length, IfOk};
ghost use Rattle.layout.specs.Text.{bits_of};
ghost use Rattle.latm.specs.Places.{IsWithin, slot_at};

use bit_core::{BitReader, Items, Octets, ReadFault};
use std::alloc::{AllocError, Global};

/// Where a slot stands among the bits of an element.
#[derive(Clone, Copy, Debug, Drop, PartialEq, Eq)]
pub struct SlotPlace {
    /// Its first bit, counted from the first bit of the element.
    pub from: u64,
    /// How many bytes it has.
    pub length: u32,
}

/// Where the slots of an element stand, in their order.
pub type SlotPlaces = Items<SlotPlace>;

impl SlotPlace {
    /// A copy of the slot that stands there, of the bytes of its element, which are at most 16,777,216. The one error is out
    /// of memory.
    pub fn slot(self, alloc: Global, bytes: &[u8]) -> Result<Octets, AllocError>
        requires size { length bytes.now ≤ 16777216 }
        requires within { IsWithin (8 * length bytes.now) self }
        ensures { IfOk result (λ slot. slot ≡ slot_at (bits_of bytes.now) self) }
    {
        let length = u64::from(self.length);
        let mut reader = BitReader::within(bytes, self.from, self.from + 8 * length);
        match reader.take_bytes(alloc, length) {
            Ok(slot) => Ok(slot),
            Err(ReadFault::Short(_)) => unreachable!(),
            Err(ReadFault::Memory(fault)) => Err(fault),
        }
    }
}
