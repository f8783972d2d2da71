ghost use Rattle.std.specs.Prelude.{◌≡◌, ◌<◌, ℕ, List, Bool};
ghost use Rattle.std.specs.declared.option.Option.{Option};
ghost use Rattle.outside.specs.Other.{Kept, all_but};

use crate::{DeviceFault, Shelf, Source};

/// One begun input of a shelf, as a source. Its faults are those of the shelf.
#[derive(Drop)]
pub struct FromShelf<'a, H: Shelf> {
    /// The shelf that is read.
    pub shelf: &'a mut H,
    /// The number of the begun input.
    pub id: u32,
    /// That number was answered by a `begin` of the shelf.
    pub ghost begun: { id < H.begun shelf.now },
}

impl<'a, H: Shelf> FromShelf<'a, H> {
    /// The begun input of `shelf` with that number.
    pub fn new(shelf: &'a mut H, id: u32) -> FromShelf<'a, H>
        requires known { id < H.begun shelf.old }
        ensures id { result.id ≡ id }
        ensures shelf { result.shelf.now ≡ shelf.old }
        ensures same_reference { result.shelf.ghost_name ≡ shelf.entry.ghost_name }
    {
        FromShelf { shelf, id }
    }
}

impl<'a, H: Shelf> Source for FromShelf<'a, H> {
    ghost left = { λ s. H.left s.shelf.now s.id };

    ghost faults = { λ s. H.faults s.shelf.now };

    ghost calm = { λ s. H.calm s.shelf.now };

    ghost Other = { Kept };

    ghost other = { λ s. record {
      shelf = s.shelf.ghost_name;
      id = s.id;
      begun = H.begun s.shelf.now;
      tells = H.tells s.shelf.now;
      bytes = H.bytes s.shelf.now;
      others = all_but s.id (H.left s.shelf.now);
    } };

    fn faults(&self) -> u64 {
        self.shelf.faults()
    }

    fn read(&mut self, into: &mut [u8]) -> Result<usize, DeviceFault> {
        self.shelf.read(self.id, into)
    }
}
