ghost use Rattle.std.specs.Prelude.{◌≡◌, ◌≤◌, ◌<◌, ◌^◌, ◌++◌, IfOk, OnOk, OnErr};
ghost use Rattle.layout.specs.Text.{num};
ghost use Rattle.layout.specs.Reading.{Gives, Reads};
ghost use Rattle.bit_core.specs.Plain.{bits, bit};

use crate::faults::Short;
use crate::reader::BitReader;
use crate::writer::BitWriter;
use std::alloc::AllocError;

/// Takes a number of at most 8 bits, most significant bit first.
///
/// Errors: `Short` at the first of these bits, where fewer than n are left; nothing is taken.
pub fn small(reader: &mut BitReader, n: u32) -> Result<u8, Short>
    requires { n ≤ 8 }
    ensures below { IfOk result (λ v. v < 2 ^ n) }
    ensures reads { Reads (bits n) reader.old reader.new result }

    // For the proofs of the readers above.
    ensures exact { Gives (bits n) reader.old reader.new result }
{
    let value = reader.take(n)?;
    Ok(value as u8)
}

/// Takes one bit, as a truth value: 1 is true.
///
/// Errors: `Short` at the place of the bit, where none is left.
pub fn flag(reader: &mut BitReader) -> Result<bool, Short>
    ensures reads { Reads bit reader.old reader.new result }

    // For the proofs of the readers above.
    ensures exact { Gives bit reader.old reader.new result }
{
    let value = reader.take(1)?;
    Ok(value == 1)
}

/// Puts a number of at most 8 bits, most significant bit first.
///
/// Errors: out of memory; nothing is put.
pub fn put_small(writer: &mut BitWriter, value: u8, n: u32) -> Result<(), AllocError>
    requires short { n ≤ 8 }
    requires below { value < 2 ^ n }
    ensures ok { OnOk result (writer.new ≡ writer.old ++ num n value) }
    ensures err { OnErr result (writer.new ≡ writer.old) }
{
    writer.put(u32::from(value), n)
}
