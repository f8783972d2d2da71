ghost use Rattle.std.specs.Prelude.{◌≡◌, ◌≤◌, ◌<◌, ◌^◌, ◌-◌, ◌++◌, ◌↔◌, OnOk, OnErr, IsErrOf};
ghost use Rattle.layout.specs.Reading.{Gives, Reads};
ghost use Rattle.esc_value.specs.Escaped.{summed, escaped, escaped_text, largest};
ghost use Rattle.bit_core.specs.Writer.{Extends};

use crate::fault::EscFault;
use bit_core::{BitReader, BitWriter, Short};
use std::alloc::AllocError;

/// A number that escapes to a longer field (ISO/IEC 23003-3, escapedValue()): A bits, to which B more are added where
/// these are all ones, and to which C more are added where the B bits are all ones too.
///
/// ```text
/// let mut reader = BitReader::new(&[0xFF, 0xE0]);
/// Escaped::<4, 8, 16>::read(&mut reader)     // Ok(269), which is 15 + 254
/// reader.at()                                // 12
/// ```
pub struct Escaped<const A: u32, const B: u32, const C: u32>;

impl<const A: u32, const B: u32, const C: u32> Escaped<A, B, C> {
    /// Reads a number, which is at most 196,605.
    ///
    /// Errors: `Short` at the first bit of the number, where the text ends within it; the reader stays there.
    pub fn read(reader: &mut BitReader) -> Result<u32, Short>
        requires first { (1 ≤ A) × (A ≤ 16) }
        requires second { (1 ≤ B) × (B ≤ 16) }
        requires third { C ≤ 16 }
        ensures reads { Reads (escaped A B C) reader.old reader.new result }

        // For the proofs of the readers above.
        ensures exact { Gives (escaped A B C) reader.old reader.new result }
    {
        let start = reader.at();
        match Escaped::<A, B, C>::added_up(reader) {
            Ok(value) => Ok(value),
            Err(_) => {
                reader.back_to(start);
                Err(Short { at: start })
            }
        }
    }

    /// Writes a number.
    ///
    /// Errors: `TooLarge` where the number is above the sum of the largest numbers of A, B and C bits, or out of memory;
    /// nothing is written.
    pub fn write(value: u32, writer: &mut BitWriter) -> Result<(), EscFault>
        requires first { (1 ≤ A) × (A ≤ 16) }
        requires second { (1 ≤ B) × (B ≤ 16) }
        requires third { C ≤ 16 }
        ensures ok { OnOk result (writer.new ≡ writer.old ++ escaped_text A B C value) }
        ensures too_large { IsErrOf result EscFault.TooLarge ↔ (largest A B C < value) }
        ensures err { OnErr result (writer.new ≡ writer.old) }
    {
        if value > all_ones(A) + all_ones(B) + all_ones(C) {
            return Err(EscFault::TooLarge);
        }
        Escaped::<A, B, C>::put(value, writer)?;
        Ok(())
    }

    /// Puts a number that is known to be no larger than the fields can hold.
    ///
    /// Errors: out of memory; nothing is put.
    #[tactic(auto, using(bit_core::proofs::Writing::extends_cut, bit_core::proofs::Writing::extends_long))]
    pub fn put(value: u32, writer: &mut BitWriter) -> Result<(), AllocError>
        requires first { (1 ≤ A) × (A ≤ 16) }
        requires second { (1 ≤ B) × (B ≤ 16) }
        requires third { C ≤ 16 }
        requires within { value ≤ largest A B C }
        ensures ok { OnOk result (writer.new ≡ writer.old ++ escaped_text A B C value) }
        ensures err { OnErr result (writer.new ≡ writer.old) }
    {
        let start = writer.len();
        match Escaped::<A, B, C>::put_fields(value, writer) {
            Ok(()) => Ok(()),
            Err(fault) => {
                writer.truncate(start);
                Err(fault)
            }
        }
    }

    /// Adds up the fields. On error some fields may already be consumed.
    fn added_up(reader: &mut BitReader) -> Result<u32, Short>
        requires first { (1 ≤ A) × (A ≤ 16) }
        requires second { (1 ≤ B) × (B ≤ 16) }
        requires third { C ≤ 16 }
        ensures { Gives (summed A B C) reader.old reader.new result }
    {
        let first = reader.take(A)?;
        if first != all_ones(A) {
            return Ok(first);
        }
        let second = reader.take(B)?;
        if second != all_ones(B) {
            return Ok(first + second);
        }
        let third = reader.take(C)?;
        Ok(first + second + third)
    }

    /// Puts the fields. On error some fields may already be written.
    fn put_fields(value: u32, writer: &mut BitWriter) -> Result<(), AllocError>
        requires first { (1 ≤ A) × (A ≤ 16) }
        requires second { (1 ≤ B) × (B ≤ 16) }
        requires third { C ≤ 16 }
        requires within { value ≤ largest A B C }
        ensures ok { OnOk result (writer.new ≡ writer.old ++ escaped_text A B C value) }
        ensures kept { Extends writer.old writer.new }
    {
        let first = all_ones(A);
        if value < first {
            return writer.put(value, A);
        }
        writer.put(first, A)?;
        let second = all_ones(B);
        if value < first + second {
            return writer.put(value - first, B);
        }
        writer.put(second, B)?;
        writer.put(value - first - second, C)
    }
}

/// The largest number of n bits.
fn all_ones(n: u32) -> u32
    requires { n ≤ 16 }
    ensures value { result ≡ 2 ^ n - 1 }
    ensures small { result < 65536 }
{
    (1 << n) - 1
}
