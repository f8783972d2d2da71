// A shelf that counts what is asked of another one.
use outside::{DeviceFault, Shelf};
use std::alloc::Global;

// The shelf, how many inputs were begun, and how many bytes its reads gave.
#[derive(Drop)]
pub struct CountedShelf<H> {
    pub shelf: H,
    pub begun: u64,
    pub taken: u64,
}

impl<H: Shelf> Shelf for CountedShelf<H> {
    ghost tells = { λ s. H.tells s.shelf };

    ghost bytes = { λ s. H.bytes s.shelf };

    ghost begun = { λ s. H.begun s.shelf };

    ghost left = { λ s. H.left s.shelf };

    ghost faults = { λ s. H.faults s.shelf };

    ghost calm = { λ s. H.calm s.shelf };

    fn faults(&self) -> u64 {
        self.shelf.faults()
    }

    fn begin(&mut self, alloc: Global, name: &str) -> Result<u32, DeviceFault> {
        let id = self.shelf.begin(alloc, name)?;
        self.begun = self.begun.wrapping_add(1);
        Ok(id)
    }

    fn read(&mut self, id: u32, into: &mut [u8]) -> Result<usize, DeviceFault> {
        let count = self.shelf.read(id, into)?;
        self.taken = self.taken.wrapping_add(count as u64);
        Ok(count)
    }
}
