// How a command ended, as a text on note and a status.
ghost use Rattle.std.specs.Prelude.{◌≡◌};
ghost use Rattle.commands.specs.Ran.{Reports, Flushed, Finished, notes, status_of, text_of};

use crate::give::give_all;
use crate::outcome::Outcome;
use outside::{DeviceFault, Sink};

const READ_FAULT: &str = "read fault\n";

const WRITE_FAULT: &str = "write fault\n";

const CORE_FAULT: &str = "core fault\n";

/// What is noted where memory ran out.
pub const OUT_OF_MEMORY: &str = "out of memory\n";

const TOO_LARGE: &str = "too large\n";

/// Writes bytes on note, and answers the status. A fault of note changes no status; out of memory is status 6.
fn report_bytes<N: Sink>(note: &mut N, text: &[u8], status: u8) -> u8
    ensures { Reports (notes N.Sink note.old note.new) text.now status result }
{
    match give_all(note, text) {
        Ok(()) => status,
        Err(DeviceFault::Failed) => status,
        Err(DeviceFault::Memory(_)) => 6,
    }
}

/// Writes a text on note, and answers the status. A fault of note changes no status: then note holds a front of the text.
pub fn report<N: Sink>(note: &mut N, text: &str, status: u8) -> u8
    ensures { Reports (notes N.Sink note.old note.new) text.now status result }
{
    report_bytes(note, text.as_bytes(), status)
}

/// Flushes out behind a command, and says how it ended in all: a failed flush is a write fault.
fn settle<K: Sink>(out: &mut K, outcome: Outcome) -> Outcome
    ensures { Flushed K.Sink out.old out.new outcome result }
{
    if let Outcome::WriteFault = outcome {
        return outcome;
    }
    match out.flush() {
        Ok(()) => outcome,
        Err(DeviceFault::Failed) => Outcome::WriteFault,
        Err(DeviceFault::Memory(error)) => Outcome::Memory(error),
    }
}

/// Notes how a command ended, and answers its status.
fn tell<N: Sink>(note: &mut N, outcome: &Outcome) -> u8
    ensures reports { Reports (notes N.Sink note.old note.new) (text_of outcome.now) (status_of outcome.now) result }
    ensures done { outcome.now ≡ Outcome.Done → (result ≡ 0) × (note.new ≡ note.old) }
{
    match outcome {
        Outcome::Done => 0,
        Outcome::Refused(text) => report_bytes(note, text.as_slice(), 1),
        Outcome::ReadFault => report(note, READ_FAULT, 3),
        Outcome::WriteFault => report(note, WRITE_FAULT, 4),
        Outcome::CoreFault => report(note, CORE_FAULT, 5),
        Outcome::Memory(_) => report(note, OUT_OF_MEMORY, 6),
        Outcome::TooLarge => report(note, TOO_LARGE, 7),
    }
}

/// Flushes out behind a command, notes how it ended in all, and answers its status.
pub fn finish<K: Sink, N: Sink>(out: &mut K, note: &mut N, outcome: Outcome) -> u8
    ensures { Finished K.Sink out.old out.new (notes N.Sink note.old note.new) outcome result }
{
    let ended = settle(out, outcome);
    tell(note, &ended)
}
