ghost use Rattle.std.specs.Prelude.{◌≡◌, ◌≤◌, None};
ghost use Rattle.causes.specs.Counts.{Rose};

use crate::{DeviceFault, Sink};
use causes::raised;
use std::io::Write;
use std::marker::Model;

/// A writer of std, as a sink. It tells no contents. Where the writer holds bytes back, as a `BufWriter` does, `flush` hands
/// them on.
#[derive(Drop)]
pub struct StdSink<W> {
    writer: W,
    faults: u64,
}

impl<W> Model for StdSink<W> {
    ghost use Rattle.std.specs.Prelude.{ℕ};

    ghost Value = { ℕ };

    ghost view = { λ s. s.faults };
}

impl<W: Write + Drop> StdSink<W> {
    /// A sink over that writer.
    pub fn new(writer: W) -> StdSink<W>
        ensures { result ≡ 0 }
    {
        StdSink { writer, faults: 0 }
    }

    /// Counts a fault.
    fn failed(&mut self) -> DeviceFault
        ensures fault { result ≡ DeviceFault.Failed }
        ensures later { self.old ≤ self.new }
        ensures rose { Rose self.old self.new }
    {
        self.faults = raised(self.faults);
        DeviceFault::Failed
    }
}

impl<W: Write + Drop> Sink for StdSink<W> {
    ghost written = { λ _. None };

    ghost faults = { λ s. s };

    ghost calm = { λ _. ⊥ };

    fn faults(&self) -> u64 {
        self.faults
    }

    fn write(&mut self, from: &[u8]) -> Result<usize, DeviceFault> {
        match self.writer.write(from) {
            Ok(count) if count > 0 || from.is_empty() => Ok(count),
            _ => Err(self.failed()),
        }
    }

    fn flush(&mut self) -> Result<(), DeviceFault> {
        match self.writer.flush() {
            Ok(()) => Ok(()),
            Err(_) => Err(self.failed()),
        }
    }
}
