// bytesForValue   2   the number of bytes, less one
// valueTmp        8   for each of the bytes, most significant first
ghost use Rattle.std.specs.Prelude.{◌≡◌, ◌≤◌, ◌<◌, ◌^◌, ◌*◌, ◌++◌, IfOk, OnOk, OnErr};
ghost use Rattle.layout.specs.Reading.{Gives, Reads};
ghost use Rattle.esc_value.specs.LatmValue.{IsWellFormed, latm_text, latm_fields, latm_value};
ghost use Rattle.bit_core.specs.Writer.{Extends};

use bit_core::{BitReader, BitWriter, Short, small};
use std::alloc::AllocError;

/// A number with the count of the bytes that spell it (ISO/IEC 14496-3, LatmGetValue()): a small value has several
/// spellings.
///
/// Well formed where `bytes` is from 1 to 4 and `value` is below 256 to the power of `bytes`.
#[derive(Clone, Copy, Debug, PartialEq, Eq)]
pub struct LatmValue {
    /// The number of bytes: `bytesForValue` + 1.
    pub bytes: u8,
    /// The number that these bytes spell.
    pub value: u32,
}

impl LatmValue {
    /// Reads a number, which is well formed.
    ///
    /// Errors: `Short` at the first bit of the whole, where the text ends within it; the reader stays there.
    pub fn read(reader: &mut BitReader) -> Result<LatmValue, Short>
        ensures reads { Reads latm_value reader.old reader.new result }

        // For the proofs of the readers above.
        ensures exact { Gives latm_value reader.old reader.new result }
    {
        let start = reader.at();
        match read_fields(reader) {
            Ok(value) => Ok(value),
            Err(_) => {
                reader.back_to(start);
                Err(Short { at: start })
            }
        }
    }

    /// Writes a well formed number.
    ///
    /// Errors: out of memory; nothing is written.
    #[tactic(auto, using(bit_core::proofs::Writing::extends_cut, bit_core::proofs::Writing::extends_long))]
    pub fn write(&self, writer: &mut BitWriter) -> Result<(), AllocError>
        requires { IsWellFormed self.now }
        ensures ok { OnOk result (writer.new ≡ writer.old ++ latm_text self.now) }
        ensures err { OnErr result (writer.new ≡ writer.old) }
    {
        let start = writer.len();
        match put_fields(*self, writer) {
            Ok(()) => Ok(()),
            Err(fault) => {
                writer.truncate(start);
                Err(fault)
            }
        }
    }
}

/// Puts the fields. On error the first of them may already be written.
fn put_fields(value: LatmValue, writer: &mut BitWriter) -> Result<(), AllocError>
    requires { IsWellFormed value }
    ensures ok { OnOk result (writer.new ≡ writer.old ++ latm_text value) }
    ensures kept { Extends writer.old writer.new }
{
    writer.put(u32::from(value.bytes) - 1, 2)?;
    writer.put(value.value, 8 * u32::from(value.bytes))
}

/// Reads the fields. On error the first of them may already be consumed.
fn read_fields(reader: &mut BitReader) -> Result<LatmValue, Short>
    ensures { Gives latm_fields reader.old reader.new result }
{
    let bytes = small(reader, 2)? + 1;
    let value = reader.take(8 * u32::from(bytes))?;
    Ok(LatmValue { bytes, value })
}
