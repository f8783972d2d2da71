use bit_core::Octets;
use std::alloc::AllocError;

/// How a command ended. Each outcome stands for one exit status of the program.
#[derive(Drop)]
pub enum Outcome {
    /// All was done: status 0.
    Done,
    /// The input breaks a rule of the command: status 1. The bytes are the whole text for note.
    Refused(Octets),
    /// The shelf failed: status 3.
    ReadFault,
    /// The output failed: status 4.
    WriteFault,
    /// The core failed: status 5.
    CoreFault,
    /// There was no memory: status 6.
    Memory(AllocError),
    /// The input has more than 268,435,456 bytes, and nothing in them was refused: status 7.
    TooLarge,
}
