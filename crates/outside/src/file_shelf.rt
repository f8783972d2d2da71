ghost use Rattle.std.specs.Prelude.{◌≡◌, false, None};

use crate::{DeviceFault, Shelf};
use causes::raised;
use std::alloc::{AllocError, Global};
use std::fs;
use std::io::{self, Read};
use std::marker::Model;
use std::rt::Files;

/// The files of the system, by their paths. It tells no contents.
#[derive(Drop)]
pub struct FileShelf<R: Files> {
    rt: R,
    files: Vec<R::File>,
    faults: u64,
}

impl<R: Files> Model for FileShelf<R> {
    ghost use Rattle.std.specs.Prelude.{vec_len};
    ghost use Rattle.outside.specs.Files.{FileCounts};

    ghost Value = { FileCounts };

    ghost view = { λ s. record { begun = vec_len s.files; faults = s.faults } };
}

impl<R: Files + Drop> FileShelf<R> {
    /// A shelf over the files that `rt` reaches.
    pub fn new(rt: R, alloc: Global) -> FileShelf<R>
        ensures begun { result.begun ≡ 0 }
        ensures faults { result.faults ≡ 0 }
    {
        FileShelf {
            rt,
            files: Vec::new(alloc),
            faults: 0,
        }
    }
}

impl<R: Files + Drop> Shelf for FileShelf<R> {
    ghost tells = { λ _. false };

    ghost bytes = { λ _ _. None };

    ghost begun = { λ s. s.begun };

    ghost left = { λ _ _. None };

    ghost faults = { λ s. s.faults };

    ghost calm = { λ _. ⊥ };

    fn faults(&self) -> u64 {
        self.faults
    }

    fn begin(&mut self, _alloc: Global, name: &str) -> Result<u32, DeviceFault> {
        let file = match fs::open(&self.rt, name) {
            Ok(file) => file,
            Err(error) if error.kind() == io::ErrorKind::OutOfMemory => {
                return Err(DeviceFault::Memory(AllocError));
            }
            Err(_) => {
                self.faults = raised(self.faults);
                return Err(DeviceFault::Failed);
            }
        };
        let id = self.files.len() as u32;
        if self.files.push(file).is_err() {
            return Err(DeviceFault::Memory(AllocError));
        }
        Ok(id)
    }

    fn read(&mut self, id: u32, into: &mut [u8]) -> Result<usize, DeviceFault> {
        match self.files[id as usize].read(into) {
            Ok(count) => Ok(count),
            Err(_) => {
                self.faults = raised(self.faults);
                Err(DeviceFault::Failed)
            }
        }
    }
}
