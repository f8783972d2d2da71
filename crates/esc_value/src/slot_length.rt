ghost use Rattle.std.specs.Prelude.{◌≡◌, ◌+◌, ◌*◌, ◌≤◌, ◌++◌, OnErr, OnOk, IfOk};
ghost use Rattle.layout.specs.Reader.{left};
ghost use Rattle.layout.specs.Reading.{Gives, Reads, IsOnwards};
ghost use Rattle.esc_value.specs.SlotLength.{slot, slot_text};
ghost use Rattle.bit_core.specs.Writer.{Extends};

use bit_core::{BitReader, BitWriter, Short, small};
use std::alloc::AllocError;

/// The length of a slot in bytes (ISO/IEC 14496-3, MuxSlotLengthBytes): bytes that are added up until one of them is not
/// 255.
pub struct SlotLength;

impl SlotLength {
    /// Reads a length, in bytes.
    ///
    /// Errors: `Short` at the first bit of the length, where the text ends within it; the reader stays there.
    pub fn read(reader: &mut BitReader) -> Result<u32, Short>
        ensures reads { Reads slot reader.old reader.new result }

        // For the proofs of the readers above.
        ensures exact { Gives slot reader.old reader.new result }
    {
        let start = reader.at();
        match added_up(reader) {
            Ok(length) => Ok(length),
            Err(fault) => {
                reader.back_to(start);
                Err(fault)
            }
        }
    }

    /// Writes a length, in bytes.
    ///
    /// Errors: out of memory; nothing is written.
    #[tactic(auto, using(bit_core::proofs::Writing::extends_cut, bit_core::proofs::Writing::extends_long))]
    pub fn write(length: u32, writer: &mut BitWriter) -> Result<(), AllocError>
        ensures ok { OnOk result (writer.new ≡ writer.old ++ slot_text length) }
        ensures err { OnErr result (writer.new ≡ writer.old) }
    {
        let start = writer.len();
        match put_bytes(length, writer) {
            Ok(()) => Ok(()),
            Err(fault) => {
                writer.truncate(start);
                Err(fault)
            }
        }
    }
}

/// Puts the bytes. On error some fields may already be written.
fn put_bytes(length: u32, writer: &mut BitWriter) -> Result<(), AllocError>
    ensures ok { OnOk result (writer.new ≡ writer.old ++ slot_text length) }
    ensures kept { Extends writer.old writer.new }
{
    for _ in 0..length / 255 {
        writer.put(255, 8)?;
    }
    writer.put(length % 255, 8)
}

/// Adds up bytes until one of them is not 255. On error some fields may already be consumed.
fn added_up(reader: &mut BitReader) -> Result<u32, Short>
    ensures exact { Gives slot reader.old reader.new result }
{
    let start = reader.at();
    let mut length: u32 = 0;
    'bytes: loop {
        let byte = match small(reader, 8) {
            Ok(byte) => byte,
            Err(_) => return Err(Short { at: start }),
        };
        length += u32::from(byte);
        if byte != 255 {
            return Ok(length);
        }
    }
}
